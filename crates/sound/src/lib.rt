// The soundness test. One filter takes the frames' valid pages and then the slots' page numbers one by one; only where a
// bit is met already are entries compared.
#![tactic(auto)]

ghost use Rattle.std.specs.Prelude.{◌≡◌, not, cond, ◌<◌, ltb, eqb};
ghost use Rattle.prelude.specs.Scan.{all, all_pairs};
ghost use Rattle.model.specs.Sizes.{vacant, InLimits};
ghost use Rattle.model.specs.Directory.{slot_at, frame_at, inFrame};
ghost use Rattle.model.specs.Soundness.{sound, frames_differ, listed_once, framePast, slot_past, uses_ok, Shape};
ghost use Rattle.cache.specs.View.{sizes_of, directory_of, numbers};
ghost use Rattle.sound.specs.Soundness.{slot_good, FramesTested, Ready};

use address::PageNo;
use cache::{Directory, Sizes, VACANT};

// Whether the record of these sizes and this directory is sound.
pub fn directory_sound(sizes: Sizes, directory: &Directory) -> bool
    ensures { result ≡ sound (sizes_of sizes) (directory_of directory.now) }
{
    sizes.ok() && entries_sound(sizes, directory)
}

// The same of five lists, for a caller that has no directory.
pub fn lists_sound(
    sizes: Sizes,
    slots: &[u32; 128],
    frames: &[u32; 8],
    valid: &[u64; 8],
    recency: &[u8; 8],
    uses: &[u32; 8],
) -> bool
    ensures { let d = numbers slots.now frames.now valid.now recency.now uses.now in
        result ≡ sound (sizes_of sizes) d }
{
    let directory = Directory::of(*slots, *frames, *valid, *recency, *uses);
    directory_sound(sizes, &directory)
}

// The soundness test where the sizes are within their limits.
fn entries_sound(sizes: Sizes, directory: &Directory) -> bool
    requires { InLimits (sizes_of sizes) }
    ensures { result ≡ sound (sizes_of sizes) (directory_of directory.now) }
{
    shaped(directory);
    // cleared before the tests that do without it: what is read at once after it was written takes longer
    let mut seen = [0u64; 64];
    let others = frames_apart(sizes, directory)
        & order_ok(sizes, directory)
        & frames_past(sizes, directory)
        & slots_past(sizes, directory)
        & uses_ok(sizes, directory);
    if !others {
        return false;
    }
    frames_ok(sizes, directory, &mut seen) && slots_ok(sizes, directory, &mut seen)
}

// The lists are as long as their types say. It reads one entry, since what lies behind a reference is known only once it is read.
fn shaped(directory: &Directory)
    ensures { Shape (directory_of directory.now) }
{
    let _entry = directory.slots[0];
}

// Each frame below B is vacant with no valid page, or holds a block and valid pages of it. The valid pages go into the filter. By index:
// frames and valid pages go in step.
fn frames_ok(sizes: Sizes, directory: &Directory, seen: &mut [u64; 64]) -> bool
    requires { InLimits (sizes_of sizes) }
    ensures { FramesTested (sizes_of sizes) (directory_of directory.now) seen.new result }
{
    let k = sizes.pages_per_block;
    let full = bitmap::first(k);
    for f in 0..sizes.frames as usize {
        let x = directory.frames[f];
        let v = directory.valid[f];
        if x.0 == VACANT {
            if v != 0 {
                return false;
            }
        } else {
            if (sizes.blocks <= x.0) | (v == 0) | (full < v) {
                return false;
            }
            filter::lay(seen, address::page_of(x, 0, k), v);
        }
    }
    true
}

// No block stands in two frames. Frames whose blocks have different remainders by 64 are not compared. By index, since a frame is compared
// with those before it.
fn frames_apart(sizes: Sizes, directory: &Directory) -> bool
    requires { InLimits (sizes_of sizes) }
    ensures { result ≡ all_pairs (sizes_of sizes).B (frames_differ (sizes_of sizes) (directory_of directory.now)) }
{
    let mut met = 0u64;
    let mut ok = true;
    for f in 0..sizes.frames as usize {
        let x = directory.frames[f].0;
        if x != VACANT {
            if bitmap::has(met, x % 64) {
                ok = ok & frame_new(directory, f);
            }
            met = bitmap::with(met, x % 64);
        }
    }
    ok
}

// The order lists each frame below B once: among B entries below B, each of them.
fn order_ok(sizes: Sizes, directory: &Directory) -> bool
    requires { InLimits (sizes_of sizes) }
    ensures { result ≡ all (sizes_of sizes).B (listed_once (sizes_of sizes) (directory_of directory.now)) }
{
    let mut listed = 0u64;
    for i in 0..sizes.frames as usize {
        let f = directory.recency[i] as u32;
        if sizes.frames <= f {
            return false;
        }
        listed = bitmap::with(listed, f);
    }
    listed == bitmap::first(sizes.frames)
}

// Each frame past B is vacant, its bits are 0 and its order entry is its own index. By index: three lists go in step.
#[tactic(auto, using(crate::proofs::Entries::testing))]
fn frames_past(sizes: Sizes, directory: &Directory) -> bool
    requires { InLimits (sizes_of sizes) }
    ensures { result ≡ all 8 (framePast (sizes_of sizes) (directory_of directory.now)) }
{
    let mut ok = true;
    for f in sizes.frames as usize..8 {
        let vacant = directory.frames[f].0 == VACANT;
        ok = ok & (vacant & (directory.valid[f] == 0) & (directory.recency[f] as usize == f));
    }
    ok
}

// Each slot below P is vacant, or holds a page number that stands in no slot before it and is valid in no frame. The filter has the frames'
// valid pages: what it has not met is new. No `for`: the filter takes numbers on the way, so that what it meets next depends on those
// before.
fn slots_ok(sizes: Sizes, directory: &Directory, seen: &mut [u64; 64]) -> bool
    requires { Ready (sizes_of sizes) (directory_of directory.now) seen.old }
    ensures { result ≡ all (sizes_of sizes).P (slot_good (sizes_of sizes) (directory_of directory.now)) }
{
    let mut i = 0;
    while let Some(j) = filter::first_met(sizes, directory, seen, i) {
        if !slot_ok(sizes, directory, j) {
            return false;
        }
        i = j + 1;
    }
    true
}

// Slot j by itself, compared with each slot before it and each frame. It stands out of line: in line it makes the loop over the slots
// longer, and the test of 128 slots takes 264 ns in place of 182.
#[inline(never)]
fn slot_ok(sizes: Sizes, directory: &Directory, j: usize) -> bool
    requires { InLimits (sizes_of sizes) × (j < 128) }
    ensures { result ≡ slot_good (sizes_of sizes) (directory_of directory.now) j }
{
    let y = directory.slots[j];
    let end = sizes.blocks * sizes.pages_per_block;
    (y.0 == VACANT) | ((y.0 < end) & slot_new(directory, j) & outside(sizes, directory, y))
}

// Slot j's page is in no slot before it. By index: with `contains` a directory that is handed over by value is copied for the test, by C's
// memcpy, which a program that links no C library has not.
#[tactic(auto, using(crate::proofs::Entries::testing))]
fn slot_new(directory: &Directory, j: usize) -> bool
    requires { j < 128 }
    ensures { let d = directory_of directory.now in result ≡ all j (λ i. not (eqb (slot_at d i) (slot_at d j))) }
{
    let y = directory.slots[j];
    let mut ok = true;
    for i in 0..j {
        ok = ok & (directory.slots[i] != y);
    }
    ok
}

// Frame f's block is in no frame before it.
fn frame_new(directory: &Directory, f: usize) -> bool
    requires { f < 8 }
    ensures { let d = directory_of directory.now in result ≡ all f (λ e. not (eqb (frame_at d e) (frame_at d f))) }
{
    !directory.frames[..f].contains(&directory.frames[f])
}

// Page n is valid in no frame below B. By index: frames and valid pages go in step.
#[tactic(auto, using(crate::proofs::Entries::testing))]
fn outside(sizes: Sizes, directory: &Directory, n: PageNo) -> bool
    requires { InLimits (sizes_of sizes) }
    ensures { let d = directory_of directory.now in
        result ≡ all (sizes_of sizes).B (λ f. not (inFrame (sizes_of sizes) d n.0 f)) }
{
    let k = sizes.pages_per_block;
    let block = address::block_of(n, k);
    let offset = address::offset_of(n, k);
    let mut ok = true;
    for f in 0..sizes.frames as usize {
        ok = ok & !((directory.frames[f].0 == block.0) & bitmap::has(directory.valid[f], offset));
    }
    ok
}

// Each slot past P is vacant.
#[tactic(auto, using(crate::proofs::Entries::testing))]
fn slots_past(sizes: Sizes, directory: &Directory) -> bool
    requires { InLimits (sizes_of sizes) }
    ensures { result ≡ all 128 (slot_past (sizes_of sizes) (directory_of directory.now)) }
{
    let mut ok = true;
    for j in sizes.slots as usize..128 {
        ok = ok & (directory.slots[j].0 == VACANT);
    }
    ok
}

// Each occupied frame has at least one use, and each other none. By index: frames and uses go in step.
#[tactic(auto, using(crate::proofs::Entries::testing))]
fn uses_ok(sizes: Sizes, directory: &Directory) -> bool
    ensures { result ≡ all 8 (uses_ok (sizes_of sizes) (directory_of directory.now)) }
{
    let mut ok = true;
    for f in 0..8 {
        ok = ok & counted(directory.frames[f].0, directory.uses[f]);
    }
    ok
}

// Whether a frame with entry x may have u uses.
fn counted(x: u32, u: u32) -> bool
    ensures { result ≡ cond (eqb x vacant) (eqb u 0) (ltb 0 u) }
{
    if x == VACANT { u == 0 } else { 0 < u }
}

// What a flush step rewrites, and which block stops a flush.
ghost use Rattle.std.specs.Prelude.{◌≡◌, ◌<◌, ◌&&◌, cond, ltb, length, IfSome, unwrap_or};
ghost use Rattle.model.specs.Policy.{policy_choice, lowest_in_slots, due_of, is_worn, lowest_worn};
ghost use Rattle.cache.specs.View.{block_no, sizes_of, directory_of};
ghost use Rattle.policy.specs.Views.{due_view, step_frame, worn_in_slots, worn_in_frames, SlotsOf, FramesOf, DueOf, CachedWorn};

use crate::choice;
use crate::decision::Due;
use address::{BlockNo, PageNo};
use cache::{Directory, Sizes, VACANT};

// What a flush step is due to do; None where nothing is cached. It is lent no wear.
#[tactic(auto, using(crate::proofs::Due::steps), unfolding(model::specs::Policy::due_of, crate::specs::Views::step_frame))]
pub fn due(z: Sizes, directory: &Directory) -> Option<Due>
    requires { let d = directory_of directory.now in DueOf (sizes_of z) d.slots d.frames d.recency d.uses }
    ensures { due_view result ≡ due_of policy_choice (sizes_of z) (directory_of directory.now) }
{
    if let Some(frame) = step_frame(z, directory) {
        let block = directory.frames[frame];
        return Some(Due { block, frame });
    }
    let block = lowest_in_slots(z, directory)?;
    Some(Due { block, frame: 0 })
}

// The occupied frame that a step takes, by the record's policy.
#[tactic(auto, using(crate::proofs::Due::taken_lt, crate::proofs::Uses::choices), unfolding(crate::specs::Views::step_frame))]
fn step_frame(z: Sizes, directory: &Directory) -> Option<usize>
    requires { let d = directory_of directory.now in DueOf (sizes_of z) d.slots d.frames d.recency d.uses }
    ensures found { unwrap_or result z.frames ≡ step_frame (sizes_of z) (directory_of directory.now) }
    ensures within { IfSome result (λ f. f < z.frames) }
{
    let among = choice::held(z, directory);
    if among == 0 {
        return None;
    }
    Some(choice::chosen(z, directory, among))
}

// The lowest block with pages in slots: the block of the least page number.
#[tactic(auto, using(crate::proofs::Lowest::leasts, crate::proofs::Lowest::lowest, crate::proofs::Held::slot_read))]
fn lowest_in_slots(z: Sizes, directory: &Directory) -> Option<BlockNo>
    requires { SlotsOf (sizes_of z) (directory_of directory.now).slots }
    ensures found { (unwrap_or result (block_no z.blocks)).0 ≡ lowest_in_slots (sizes_of z) (directory_of directory.now) }
    ensures within { IfSome result (λ b. b.0 < z.blocks) }
{
    let mut low = VACANT;
    for n in &directory.slots[..z.slots as usize] {
        low = low.min(n.0);
    }
    if low == VACANT {
        return None;
    }
    Some(address::block_of(PageNo(low), z.pages_per_block))
}

// The lowest worn block with a page cached.
#[tactic(auto, using(crate::proofs::Lowest::lower, crate::proofs::Lowest::lowest_le))]
pub fn lowest_worn(z: Sizes, directory: &Directory, wear: &[u32]) -> Option<BlockNo>
    requires { let d = directory_of directory.now in CachedWorn (sizes_of z) d.slots d.frames wear.now }
    ensures found { (unwrap_or result (block_no z.blocks)).0 ≡ lowest_worn (sizes_of z) (directory_of directory.now) wear.now }
    ensures within { IfSome result (λ b. b.0 < z.blocks) }
{
    let low = worn_in_slots(z, directory, wear).min(worn_in_frames(z, directory, wear));
    if low == z.blocks {
        return None;
    }
    Some(BlockNo(low))
}

// The lowest worn block with a page in a slot, or the number of blocks, which is plainer than an `Option` where the lowest is looked
// for. Not one loop with that over the frames: these entries are pages, those are blocks.
#[tactic(auto, using(crate::proofs::Lowest::least_none, crate::proofs::Lowest::slots_lowest, crate::proofs::Held::pages))]
fn worn_in_slots(z: Sizes, directory: &Directory, wear: &[u32]) -> u32
    requires { SlotsOf (sizes_of z) (directory_of directory.now).slots × (length wear.now ≡ z.blocks) }
    ensures { result ≡ worn_in_slots (sizes_of z) (directory_of directory.now) wear.now }
{
    let m = address::range::reciprocal(z.pages_per_block);
    let mut low = z.blocks;
    for &n in &directory.slots[..z.slots as usize] {
        if n.0 < VACANT {
            let b = address::range::block_by(n, z.pages_per_block, m);
            low = lower_worn(z, wear, low, b);
        }
    }
    low
}

// The lowest worn block with a frame, or the number of blocks, for the same reason.
#[tactic(auto, using(crate::proofs::Lowest::least_none, crate::proofs::Lowest::frames_lowest, crate::proofs::Held::frames))]
fn worn_in_frames(z: Sizes, directory: &Directory, wear: &[u32]) -> u32
    requires { FramesOf (sizes_of z) (directory_of directory.now).frames × (length wear.now ≡ z.blocks) }
    ensures { result ≡ worn_in_frames (sizes_of z) (directory_of directory.now) wear.now }
{
    let mut low = z.blocks;
    for &b in &directory.frames[..z.frames as usize] {
        if b.0 < VACANT {
            low = lower_worn(z, wear, low, b);
        }
    }
    low
}

// Block b where it is worn and lower than `low`, else `low`.
fn lower_worn(z: Sizes, wear: &[u32], low: u32, b: BlockNo) -> u32
    requires { b.0 < length wear.now }
    ensures { result ≡ cond (ltb b.0 low && is_worn (sizes_of z) wear.now b.0) b.0 low }
{
    if (b.0 < low) & is_worn(z, wear, b) {
        b.0
    } else {
        low
    }
}

// Whether block b has wear W or more.
#[tactic(auto, unfolding(model::specs::Policy::is_worn))]
pub fn is_worn(z: Sizes, wear: &[u32], b: BlockNo) -> bool
    requires { b.0 < length wear.now }
    ensures { result ≡ is_worn (sizes_of z) wear.now b.0 }
{
    let at = b.0 as usize;
    let worn = wear[at];
    (b.0 < VACANT) & (z.wear_limit <= worn)
}

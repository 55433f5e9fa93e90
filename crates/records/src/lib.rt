// Records for the programs that run: sizes, filled directories, and directories with one entry replaced.
#![tactic(auto)]

ghost use Rattle.std.specs.Prelude.{◌≤◌};

use address::{BlockNo, PageNo};
use cache::{Directory, Sizes};

// The sizes S, K, N, P, B, W, with LRU and no other option.
pub fn sizes(s: u32, k: u32, n: u32, p: u32, b: u32, w: u32) -> Sizes {
    Sizes {
        page_size: s,
        pages_per_block: k,
        blocks: n,
        slots: p,
        frames: b,
        wear_limit: w,
        ..Sizes::blank()
    }
}

// The largest sizes.
pub fn largest() -> Sizes {
    sizes(2048, 64, 4096, 128, 8, 1000000)
}

// Sizes that leave slots, frames and bits unused.
pub fn middling() -> Sizes {
    sizes(512, 16, 256, 100, 5, 1000)
}

// The sizes with these options.
pub fn with_options(s: Sizes, policy: u32, coded: u32, shelf_pages: u32, marked: u32) -> Sizes {
    Sizes {
        policy,
        coded,
        shelf_pages,
        marked,
        ..s
    }
}

// Slot i holds page start + i * step, and frame f all pages of block f, with one use.
pub fn filled(s: Sizes, start: u32, step: u32) -> Directory {
    let mut d = with_blocks(s);
    let slots = s.slots.min(128) as usize;
    place_pages(&mut d.slots, 0, slots, start, step);
    d
}

// At the largest sizes, slots whose pages have one of the remainders r, r + 1 and r + 2 by 4096.
pub fn crowded(s: Sizes, r: u32) -> Directory {
    let mut d = with_blocks(s);
    place_pages(&mut d.slots, 0, 63, r.wrapping_add(4096), 4096);
    place_pages(&mut d.slots, 63, 126, r.wrapping_add(4097), 4096);
    place_pages(&mut d.slots, 126, 128, r.wrapping_add(4098), 4096);
    d
}

// Slots from a to e hold the pages start, start + step and so on. By index: to lend a part of the list would ask that a is not after e.
fn place_pages(slots: &mut [PageNo; 128], a: usize, e: usize, start: u32, step: u32)
    requires { e ≤ 128 }
{
    let mut n = start;
    for i in a..e {
        slots[i] = PageNo(n);
        n = n.wrapping_add(step);
    }
}

// Frame f holds block f with all its pages valid and has one use, for each frame, and no slot holds a page. By index, since three lists go
// in step.
fn with_blocks(s: Sizes) -> Directory {
    let mut d = Directory::vacant();
    for f in 0..s.frames.min(8) {
        d.frames[f as usize] = BlockNo(f);
        d.valid[f as usize] = all_pages(s.pages_per_block);
        d.uses[f as usize] = 1;
    }
    d
}

// All bits below k.
fn all_pages(k: u32) -> u64 {
    if k <= 64 { bitmap::first(k) } else { 0 }
}

// What is spoilt: a slot, a frame, a set of valid pages, an entry of the order or a use count, and what stands there then.
#[derive(Clone, Copy, PartialEq, Eq, Debug)]
pub enum Entry {
    Slot(u32),
    Frame(u32),
    Valid(u64),
    Order(u8),
    Uses(u32),
}

// The directory with entry i replaced by x.
pub fn with(d: Directory, i: usize, x: Entry) -> Directory {
    let mut d = d;
    match x {
        Entry::Slot(n) => replace(&mut d.slots, i, PageNo(n)),
        Entry::Frame(b) => replace(&mut d.frames, i, BlockNo(b)),
        Entry::Valid(v) => replace(&mut d.valid, i, v),
        Entry::Order(f) => replace(&mut d.recency, i, f),
        Entry::Uses(u) => replace(&mut d.uses, i, u),
    }
    d
}

// Entry i of the list is x then, where it has one.
fn replace<T: Copy>(list: &mut [T], i: usize, x: T) {
    if let Some(entry) = list.get_mut(i) {
        *entry = x;
    }
}

// What the calls answer. The definitions in specs/ give the number and values of each case.
#![tactic(auto)]

mod fault; // fault.rt: what reading a flash page meets, and the refusal for it
pub mod numbers; // numbers.rt: accepted reads and writes in numbers
mod way; // way.rt: the ways of reads and writes, and their numbers

use address::BlockNo;
pub use fault::{Fault, late};
pub use way::{ReadWay, WriteWay};

// Why a call is turned down: document 01's refusals 1 to 6, and those that requests add.
#[derive(Clone, Copy, PartialEq, Eq, Debug)]
pub enum Refusal {
    // 1: at opening, a size, the wear limit or an option is beyond its limits
    Size,
    // 2: a lent buffer has another length than the sizes ask for
    Buffer,
    // 3: at opening, a wear entry is above the wear limit
    Overworn,
    // 4: the record is not sound
    Record,
    // 5: there is no such page
    Page,
    // 6: a rewrite is due for this block, whose wear has reached the limit
    Worn(BlockNo),
    // 7: a flash page that the call reads is unreadable (request A6)
    Unreadable,
    // 8: there is no entry on the shelf to take back (request A8)
    Empty,
    // 14: a flash page that the call reads is torn (request A12)
    Torn,
}

// What an opening answers: the number of torn blocks, those with a mark that is not 0 (request A12).
#[derive(Clone, Copy, PartialEq, Eq, Debug)]
pub struct Opening {
    pub torn: u32,
}

// What a read answers: its way, and how many chunks were mended (request A7).
#[derive(Clone, Copy, PartialEq, Eq, Debug)]
pub struct Read {
    pub way: ReadWay,
    pub mends: u32,
}

// What a write answers: its way, the block erased, the merge reads and the chunks mended. Only way 7 erases a block and merges; the read of
// a part write may mend as well.
#[derive(Clone, Copy, PartialEq, Eq, Debug)]
pub enum Write {
    // ways 0 to 6
    Done {
        way: WriteWay,
        mends: u32,
    },
    // way 7
    Rewrote {
        block: BlockNo,
        merged: u32,
        mends: u32,
    },
}

// What a flush step answers that found something cached: the block rewritten, its merge reads and the chunks mended.
#[derive(Clone, Copy, PartialEq, Eq, Debug)]
pub struct Step {
    pub block: BlockNo,
    pub merged: u32,
    pub mends: u32,
}

// What a flush answers: the rewrites, the sum of their merge reads and of the chunks mended.
#[derive(Clone, Copy, PartialEq, Eq, Debug)]
pub struct Flush {
    pub rewrites: u32,
    pub merged: u32,
    pub mends: u32,
}

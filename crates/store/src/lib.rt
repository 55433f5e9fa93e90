// The page store: the cache record, and the calls on it. Each call takes the record by value with the lent buffers and hands back the next
// record beside its answer; a refused call changes nothing. The buffers are lent one by one, since C hands them on so: each call makes a
// `Lent` of them for the crates below. A read and a write take the record apart and put it together again: lent as a part of it, the
// directory keeps the whole record in memory, which costs a copy more of it, and a rehearsal then can't tell that its options are 0.
#![tactic(auto)]

mod back; // back.rt: taking a write back
mod cut; // cut.rt: calls that are cut off after so many operations of the chip
mod flush; // flush.rt: a flush step, and a flush
mod open; // open.rt: the blank record, and opening a store
mod part; // part.rt: writing part of a page
mod read; // read.rt: reading a page
mod write; // write.rt: writing a page

use answer::{Flush, Opening, Read, Refusal, Step, Write};
use cache::{Directory, Sizes};

// The cache record: sizes and options, the shelf's entries (page numbers or VACANT, request A8), the directory.
#[repr(C)]
#[derive(Clone, Copy, PartialEq, Eq, Debug)]
pub struct Cache {
    pub sizes: Sizes,
    pub entries: [u32; 8],
    pub directory: Directory,
}

// The record after a call, and the call's answer.
#[derive(Clone, Copy, PartialEq, Eq, Debug)]
pub struct Out<T> {
    pub cache: Cache,
    pub answer: T,
}

// Of an opening: the blank record where it is refused.
pub type Opened = Out<Result<Opening, Refusal>>;

// Of a read.
pub type ReadOut = Out<Result<Read, Refusal>>;

// Of a write, of a page or of part of one, or of taking one back.
pub type WriteOut = Out<Result<Write, Refusal>>;

// Of a flush step; none where nothing was cached.
pub type StepOut = Out<Result<Option<Step>, Refusal>>;

// Of a flush.
pub type FlushOut = Out<Result<Flush, Refusal>>;

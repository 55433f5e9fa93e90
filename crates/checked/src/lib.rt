// The calls on a record's sizes and directory and on lent buffers: checks 4, 2 and 5 in their order, of a part write its reach too, and
// then the call itself. They ask nothing. A call that rewrites is told how many operations of the chip it may do (request A12). Each makes
// the chip of what it is lent: one function for that would hand out b-space with it, by a clause for each buffer, and is no plainer.
#![tactic(auto)]

pub mod check; // check.rt: the checks
pub mod flush; // flush.rt: a flush step, and a flush
pub mod keep; // keep.rt: a write and a part write, with the page kept as it was
pub mod part; // part.rt: writing part of a page
pub mod read; // read.rt: reading a page
pub mod write; // write.rt: writing a page

// The operations of the chip that a call may do where it is not cut off: more than any call has.
pub const UNCUT: u32 = 4294967295;

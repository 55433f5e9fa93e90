// The decisions of the store, from the record's numbers alone: each is what document 01's rule says of a sound record.
#![tactic(auto)]

pub mod choice; // choice.rt: which of several open frames is taken
pub mod decision; // decision.rt: what is decided, as data
pub mod lookup; // lookup.rt: where a page or a block is
pub mod victim; // victim.rt: which block leaves the slots, and which frame makes room
pub mod plan; // plan.rt: what a write does
pub mod flush; // flush.rt: what a flush step rewrites, and which block stops a flush

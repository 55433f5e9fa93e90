// A catalogue of runs above the page store (requests A9 to A11). Each call takes the store's record by value with the lent buffers, the
// number of sheets, who calls and a page buffer; a call that can change the record hands back the next one beside its answer. A refused
// call changes nothing. The public calls are lent the buffers one by one, as the store's calls are, since C hands them on so; adding and
// its cut twin share `judge::put`, and differ in the store's call that writes the sheet.
#![tactic(auto)]

pub mod cut; // cut.rt: adding, replacing, marking, cut off after so many operations of the chip
mod gate; // gate.rt: the checks before the sheets are read
mod judge; // judge.rt: the sheets read, and what they decide
pub mod look; // look.rt: a look, and a listing
mod mends; // mends.rt: the mends of a whole call
pub mod read; // read.rt: a page of a run
pub mod write; // write.rt: adding, replacing, marking

ghost use Rattle.std.specs.Prelude.{◌≡◌};

use answer::{Fault, Read, Refusal, Write};
use sheets::Sheet;
use sheets::verdict::Cause;
use store::Out;

// Why a call is turned down: by the catalogue, or by the store.
#[derive(Clone, Copy, PartialEq, Eq, Debug)]
pub enum Turned {
    Denied(Cause),
    Stopped(Refusal),
}

impl From<Cause> for Turned {
    ghost use Rattle.catalogue.specs.View.{denied};

    ghost from_gives = { λ why r. r ≡ denied why };

    fn from(why: Cause) -> Turned {
        Turned::Denied(why)
    }
}

impl From<Fault> for Turned {
    ghost use Rattle.catalogue.specs.View.{met};

    ghost from_gives = { λ fault r. r ≡ met fault };

    // Of a sheet that flash refuses.
    fn from(fault: Fault) -> Turned {
        Turned::Stopped(Refusal::from(fault))
    }
}

// What a look answers: the sheet as the caller sees it, the current run and the mends.
#[derive(Clone, Copy, PartialEq, Eq, Debug)]
pub struct Shown {
    pub sheet: Sheet,
    pub current: u32,
    pub mends: u32,
}

// What a listing answers: the run at the position, and the mends.
#[derive(Clone, Copy, PartialEq, Eq, Debug)]
pub struct Told {
    pub run: u32,
    pub mends: u32,
}

// What adding, replacing and marking answer: the run, and what the store's write of its sheet does, with the whole call's mends.
#[derive(Clone, Copy, PartialEq, Eq, Debug)]
pub struct Wrote {
    pub run: u32,
    pub answer: Result<Write, Refusal>,
}

// Of a look.
pub type Looked = Result<Shown, Turned>;

// Of a listing.
pub type Listed = Result<Told, Turned>;

// Of a read of a run's page: what the store's read of that page does, with the whole call's mends.
pub type Fetched = Result<Result<Read, Refusal>, Turned>;

// Of adding, replacing and marking.
pub type Written = Result<Wrote, Turned>;

// The record after a read, and its answer.
pub type ReadOut = Out<Fetched>;

// The record after adding, replacing or marking, and its answer.
pub type WriteOut = Out<Written>;

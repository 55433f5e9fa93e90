// The tallies of a rehearsal (request A13), brought up to date after every call.
#![tactic(auto)]

pub mod numbers; // numbers.rt: tallies of answers in numbers

ghost use Rattle.std.specs.Prelude.{◌≡◌};
ghost use Rattle.tally.specs.Count.{answer_of, counted, no_tallies, May};

use answer::numbers::{of_read, of_write};
use answer::{Read, Refusal, Write};

// What a bench's call was answered.
#[derive(Clone, Copy, PartialEq, Eq, Debug)]
pub enum Answered {
    Read(Result<Read, Refusal>),
    Write(Result<Write, Refusal>),
}

// Accepted reads and accepted writes by way, at the way's own number; erasures, merge reads and refused calls. Numbers and lists, since C
// is handed them.
#[repr(C)]
#[derive(Clone, Copy, PartialEq, Eq, Debug)]
pub struct Tallies {
    pub reads: [u32; 4],
    pub writes: [u32; 8],
    pub erased: u32,
    pub merged: u32,
    pub refused: u32,
}

// Nothing counted.
pub fn none() -> Tallies
    ensures { result ≡ no_tallies }
{
    Tallies {
        reads: [0; 4],
        writes: [0; 8],
        erased: 0,
        merged: 0,
        refused: 0,
    }
}

// Brings the tallies that are lent up to date, by the answer in numbers, where way 7 stands beside the others.
pub fn bring_up_to_date(t: &mut Tallies, a: Answered)
    requires { May t.old (answer_of a) }
    ensures { t.new ≡ counted t.old (answer_of a) }
{
    let numbered = match a {
        Answered::Read(answer) => numbers::Answered::Read(of_read(answer)),
        Answered::Write(answer) => numbers::Answered::Write(of_write(answer)),
    };
    numbers::bring_up_to_date(t, numbered);
}

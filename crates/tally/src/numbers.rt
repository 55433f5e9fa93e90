// Tallies of answers in numbers.
ghost use Rattle.std.specs.Prelude.{◌≡◌};
ghost use Rattle.tally.specs.Count.{numbered_answer, counted, May};

use crate::Tallies;
use answer::Refusal;
use answer::numbers::{Read, Write};
use cache::VACANT;

// What a bench's call was answered, in numbers.
#[derive(Clone, Copy, PartialEq, Eq, Debug)]
pub enum Answered {
    Read(Result<Read, Refusal>),
    Write(Result<Write, Refusal>),
}

// The tallies after a call is answered: one value to another. A write that names a block erased it; a refused call has no way.
fn count(t: Tallies, a: Answered) -> Tallies
    requires { May t (numbered_answer a) }
    ensures { result ≡ counted t (numbered_answer a) }
{
    let mut r = t;
    match a {
        Answered::Read(Ok(read)) => r.reads[read.way as usize] += 1,
        Answered::Write(Ok(write)) => {
            r.writes[write.way as usize] += 1;
            r.erased += u32::from(write.block.0 < VACANT);
            r.merged += write.merged;
        }
        Answered::Read(Err(_)) | Answered::Write(Err(_)) => r.refused += 1,
    }
    r
}

// Brings the tallies that are lent up to date.
pub fn bring_up_to_date(t: &mut Tallies, a: Answered)
    requires { May t.old (numbered_answer a) }
    ensures { t.new ≡ counted t.old (numbered_answer a) }
{
    *t = count(*t, a);
}

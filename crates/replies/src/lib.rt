// An answer in numbers, for C: document 01's number of a refusal, and what a call answers.
#![tactic(auto)]

ghost use Rattle.std.specs.Prelude.{◌≡◌};
ghost use Rattle.model.specs.Sizes.{vacant};
ghost use Rattle.answer.specs.Numbers.{refusal_of};
ghost use Rattle.replies.specs.Numbers.{accepted, numbers_of};

use answer::{Flush, Opening, Read, Refusal, Step, Write, numbers};
use cache::VACANT;

// `refusal` is document 01's number, and 0 where the call is accepted. What a call does not answer is 0, and `block` is VACANT where no
// block is meant.
#[repr(C)]
#[derive(Clone, Copy, PartialEq, Eq, Debug)]
pub struct Answer {
    pub refusal: u32,
    // the way of a read or a write, 0 of a part write without bytes
    pub way: u32,
    // the block that a write erased, that a step rewrote, or that refusal 6 names
    pub block: u32,
    // blocks rewritten by a flush: 0 or 1 by a step
    pub rewrites: u32,
    // merge reads
    pub merged: u32,
    // chunks that the page codes mended
    pub mended: u32,
    // torn blocks that an opening found
    pub torn: u32,
}

// The number of a refusal.
pub fn number(why: Refusal) -> u32
    ensures { result ≡ (numbers_of (refusal_of why) 0).refusal }
{
    match why {
        Refusal::Size => 1,
        Refusal::Buffer => 2,
        Refusal::Overworn => 3,
        Refusal::Record => 4,
        Refusal::Page => 5,
        Refusal::Worn(_) => 6,
        Refusal::Unreadable => 7,
        Refusal::Empty => 8,
        Refusal::Torn => 14,
    }
}

// An accepted call that answers nothing more.
fn done() -> Answer
    ensures { result ≡ accepted 0 vacant 0 0 0 0 }
{
    Answer {
        refusal: 0,
        way: 0,
        block: VACANT,
        rewrites: 0,
        merged: 0,
        mended: 0,
        torn: 0,
    }
}

impl From<Refusal> for Answer {
    ghost use Rattle.std.specs.Prelude.{◌≡◌};
    ghost use Rattle.answer.specs.Numbers.{refusal_of};
    ghost use Rattle.replies.specs.Numbers.{numbers_of};

    ghost from_gives = { λ why r. r ≡ numbers_of (refusal_of why) 0 };

    // Refusal 6 names its block.
    fn from(why: Refusal) -> Answer {
        let block = match why {
            Refusal::Worn(b) => b.0,
            _ => VACANT,
        };
        Answer {
            refusal: number(why),
            block,
            ..done()
        }
    }
}

impl From<Result<Opening, Refusal>> for Answer {
    ghost use Rattle.std.specs.Prelude.{◌≡◌};
    ghost use Rattle.answer.specs.Numbers.{opening_of, torn_of};
    ghost use Rattle.replies.specs.Numbers.{answer_numbers};

    ghost from_gives = { λ a r. r ≡ answer_numbers (opening_of a) 0 (torn_of a) };

    fn from(a: Result<Opening, Refusal>) -> Answer {
        match a {
            Ok(opening) => Answer {
                torn: opening.torn,
                ..done()
            },
            Err(why) => Answer::from(why),
        }
    }
}

impl From<Result<numbers::Read, Refusal>> for Answer {
    ghost use Rattle.std.specs.Prelude.{◌≡◌};
    ghost use Rattle.answer.specs.ByNumber.{numbered_read, mends_of_numbered_read};
    ghost use Rattle.replies.specs.Numbers.{numbers_of};

    ghost from_gives = { λ a r. r ≡ numbers_of (numbered_read a) (mends_of_numbered_read a) };

    // A read's, of any way.
    fn from(a: Result<numbers::Read, Refusal>) -> Answer {
        match a {
            Ok(read) => Answer {
                way: read.way,
                mended: read.mends,
                ..done()
            },
            Err(why) => Answer::from(why),
        }
    }
}

impl From<Result<Read, Refusal>> for Answer {
    ghost use Rattle.std.specs.Prelude.{◌≡◌};
    ghost use Rattle.answer.specs.Numbers.{read_of, mends_of_read};
    ghost use Rattle.replies.specs.Numbers.{numbers_of};

    ghost from_gives = { λ a r. r ≡ numbers_of (read_of a) (mends_of_read a) };

    fn from(a: Result<Read, Refusal>) -> Answer {
        Answer::from(numbers::of_read(a))
    }
}

impl From<Result<numbers::Write, Refusal>> for Answer {
    ghost use Rattle.std.specs.Prelude.{◌≡◌};
    ghost use Rattle.answer.specs.ByNumber.{numbered_write, mends_of_numbered_write};
    ghost use Rattle.replies.specs.Numbers.{numbers_of};

    ghost from_gives = { λ a r. r ≡ numbers_of (numbered_write a) (mends_of_numbered_write a) };

    // A write's, of a page or of part of one, of any way.
    fn from(a: Result<numbers::Write, Refusal>) -> Answer {
        match a {
            Ok(write) => Answer {
                way: write.way,
                block: write.block.0,
                merged: write.merged,
                mended: write.mends,
                ..done()
            },
            Err(why) => Answer::from(why),
        }
    }
}

impl From<Result<Write, Refusal>> for Answer {
    ghost use Rattle.std.specs.Prelude.{◌≡◌};
    ghost use Rattle.answer.specs.Numbers.{write_of, mends_of_write};
    ghost use Rattle.replies.specs.Numbers.{numbers_of};

    ghost from_gives = { λ a r. r ≡ numbers_of (write_of a) (mends_of_write a) };

    fn from(a: Result<Write, Refusal>) -> Answer {
        Answer::from(numbers::of_write(a))
    }
}

impl From<Result<Option<Step>, Refusal>> for Answer {
    ghost use Rattle.std.specs.Prelude.{◌≡◌};
    ghost use Rattle.answer.specs.Numbers.{step_of, mends_of_step};
    ghost use Rattle.replies.specs.Numbers.{numbers_of};

    ghost from_gives = { λ a r. r ≡ numbers_of (step_of a) (mends_of_step a) };

    fn from(a: Result<Option<Step>, Refusal>) -> Answer {
        match a {
            Ok(Some(step)) => Answer {
                block: step.block.0,
                rewrites: 1,
                merged: step.merged,
                mended: step.mends,
                ..done()
            },
            Ok(None) => done(),
            Err(why) => Answer::from(why),
        }
    }
}

impl From<Result<Flush, Refusal>> for Answer {
    ghost use Rattle.std.specs.Prelude.{◌≡◌};
    ghost use Rattle.answer.specs.Numbers.{flush_of, mends_of_flush};
    ghost use Rattle.replies.specs.Numbers.{numbers_of};

    ghost from_gives = { λ a r. r ≡ numbers_of (flush_of a) (mends_of_flush a) };

    fn from(a: Result<Flush, Refusal>) -> Answer {
        match a {
            Ok(flush) => Answer {
                rewrites: flush.rewrites,
                merged: flush.merged,
                mended: flush.mends,
                ..done()
            },
            Err(why) => Answer::from(why),
        }
    }
}

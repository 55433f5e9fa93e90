// Accepted reads and writes in numbers, as lines, tallies and C have them. A way is any number here, whatever a call answers.
ghost use Rattle.std.specs.Prelude.{◌≡◌};
ghost use Rattle.answer.specs.Numbers.{read_of, write_of, mends_of_read, mends_of_write};
ghost use Rattle.answer.specs.ByNumber.{numbered_read, numbered_write, mends_of_numbered_read, mends_of_numbered_write};

use crate::Refusal;
use address::BlockNo;

// A read: its way, and how many chunks were mended.
#[derive(Clone, Copy, PartialEq, Eq, Debug)]
pub struct Read {
    pub way: u32,
    pub mends: u32,
}

// A write: its way, the block erased, 4294967295 where none was, the merge reads and the chunks mended.
#[derive(Clone, Copy, PartialEq, Eq, Debug)]
pub struct Write {
    pub way: u32,
    pub block: BlockNo,
    pub merged: u32,
    pub mends: u32,
}

// A read's answer in numbers.
pub fn of_read(answer: Result<crate::Read, Refusal>) -> Result<Read, Refusal>
    ensures { (numbered_read result ≡ read_of answer) × (mends_of_numbered_read result ≡ mends_of_read answer) }
{
    let read = answer?;
    Ok(Read {
        way: read.way.into(),
        mends: read.mends,
    })
}

// A write's, which has way 7 where a block was rewritten.
pub fn of_write(answer: Result<crate::Write, Refusal>) -> Result<Write, Refusal>
    ensures { (numbered_write result ≡ write_of answer) × (mends_of_numbered_write result ≡ mends_of_write answer) }
{
    Ok(match answer? {
        crate::Write::Done { way, mends } => Write {
            way: way.into(),
            block: BlockNo(u32::MAX),
            merged: 0,
            mends,
        },
        crate::Write::Rewrote {
            block,
            merged,
            mends,
        } => Write {
            way: 7,
            block,
            merged,
            mends,
        },
    })
}

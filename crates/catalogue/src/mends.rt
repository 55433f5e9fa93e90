// The mends of a whole call: those of its last step, and those of the sheets that the last step did not read from flash as well.
ghost use Rattle.std.specs.Prelude.{◌≡◌, cond, ◌+◌, ◌≤◌, ◌<◌};
ghost use Rattle.chip.specs.Chip.{most_mends};
ghost use Rattle.model.specs.Calls.{is_refused};
ghost use Rattle.answer.specs.Numbers.{read_of, write_of, mends_of_read, mends_of_write};
ghost use Rattle.catalogue.specs.Kinds.{Few, kept_mends, left_mends, erased_in};

use address::{BlockNo, PageNo};
use answer::{Read, Refusal, Write};
use cache::VACANT;

// The mends of sheet i; none where it is of block b, or page `at`.
#[tactic(auto, unfolding(crate::specs::Kinds::kept_mends, address::specs::Address::block_of))]
fn one(m: &[u32; 256], i: u32, k: u32, b: BlockNo, at: u32) -> u32
    requires { (i < 256) × (0 < k) }
    ensures { result ≡ kept_mends k b.0 at m.now i }
{
    if (address::block_of(PageNo(i), k) == b) | (i == at) {
        return 0;
    }
    m[i as usize]
}

// The mends of the first c sheets, but for those of block b and that of page `at`; either may be VACANT, as the model's words have it.
pub(crate) fn left(m: &[u32; 256], c: u32, k: u32, b: BlockNo, at: u32) -> u32
    requires { Few c m.now × (0 < k) }
    ensures { (result ≡ left_mends c k b.0 at m.now) × (result ≤ 536870912) }
{
    let mut sum = 0;
    for i in 0..c {
        sum += one(m, i, k, b, at);
    }
    sum
}

// A read's answer with more mends.
pub(crate) fn with_read(answer: Result<Read, Refusal>, more: u32) -> Result<Read, Refusal>
    requires { (mends_of_read answer ≤ most_mends) × (more ≤ 536870912) }
    ensures { (read_of result ≡ read_of answer)
        × (mends_of_read result ≡ cond (is_refused (read_of answer)) 0 (mends_of_read answer + more)) }
{
    match answer {
        Ok(Read { way, mends }) => Ok(Read {
            way,
            mends: mends + more,
        }),
        Err(why) => Err(why),
    }
}

// A write's answer with the mends of the sheets that the write did not read.
pub(crate) fn with_write(
    answer: Result<Write, Refusal>,
    m: &[u32; 256],
    c: u32,
    k: u32,
    at: u32,
) -> Result<Write, Refusal>
    requires { (mends_of_write answer ≤ most_mends) × (Few c m.now × (0 < k)) }
    ensures { (write_of result ≡ write_of answer) × (mends_of_write result ≡ cond (is_refused (write_of answer)) 0
        (mends_of_write answer + left_mends c k (erased_in (write_of answer)) at m.now)) }
{
    match answer {
        Ok(Write::Done { way, mends }) => Ok(Write::Done {
            way,
            mends: mends + left(m, c, k, BlockNo(VACANT), at),
        }),
        Ok(
            Write::Rewrote {
                block,
                merged,
                mends,
            },
        ) => Ok(Write::Rewrote {
            block,
            merged,
            mends: mends + left(m, c, k, block, at),
        }),
        Err(why) => Err(why),
    }
}

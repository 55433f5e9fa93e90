// A flush step, and a flush.
ghost use Rattle.std.specs.Prelude.{◌≡◌, false, []};
ghost use Rattle.model.specs.Policy.{policy_choice};
ghost use Rattle.model.specs.Calls.{step, flush};
ghost use Rattle.cache.specs.View.{directory_of};
ghost use Rattle.answer.specs.Numbers.{step_of, flush_of, mends_of_step, mends_of_flush};
ghost use Rattle.lent.specs.Loan.{IsSameLent, buffers_of};
ghost use Rattle.checked.specs.Called.{store_with, result_with, CalledTo};

use crate::check;
use answer::{Flush, Refusal, Step};
use cache::{Directory, Sizes};
use chip::lent::Chip;
use lent::Lent;

// The checks, and the step, with at most ops operations of the chip.
pub fn step(
    z: Sizes,
    directory: &mut Directory,
    lent: &mut Lent<'_>,
    pspace: &[u8],
    ops: u32,
) -> Result<Option<Step>, Refusal>
    ensures loan { IsSameLent lent.old lent.new }
    ensures order { directory.new.recency ≡ directory.old.recency }
    ensures called { let d = directory_of directory.old in
        let u = buffers_of lent.old pspace.now in
        let d' = directory_of directory.new in
        let u' = buffers_of lent.new pspace.now in
        CalledTo policy_choice ops (λ _. false) (store_with z d u) step
        (result_with (step_of result) (mends_of_step result) z d' u' []) }
{
    check::ready(z, directory, lent.view(pspace))?;
    let mut chip = Chip {
        sizes: z,
        flash: &mut *lent.flash,
        codes: &mut *lent.codes,
        marks: &mut *lent.marks,
        wear: &mut *lent.wear,
    };
    flushes::step(&mut chip, directory, pspace, &mut *lent.bspace, ops)
}

// The checks, and the flush, with at most ops operations of the chip.
pub fn flush(
    z: Sizes,
    directory: &mut Directory,
    lent: &mut Lent<'_>,
    pspace: &[u8],
    ops: u32,
) -> Result<Flush, Refusal>
    ensures loan { IsSameLent lent.old lent.new }
    ensures order { directory.new.recency ≡ directory.old.recency }
    ensures called { let d = directory_of directory.old in
        let u = buffers_of lent.old pspace.now in
        let d' = directory_of directory.new in
        let u' = buffers_of lent.new pspace.now in
        CalledTo policy_choice ops (λ _. false) (store_with z d u) flush
        (result_with (flush_of result) (mends_of_flush result) z d' u' []) }
{
    check::ready(z, directory, lent.view(pspace))?;
    let mut chip = Chip {
        sizes: z,
        flash: &mut *lent.flash,
        codes: &mut *lent.codes,
        marks: &mut *lent.marks,
        wear: &mut *lent.wear,
    };
    flushes::flush(&mut chip, directory, pspace, &mut *lent.bspace, ops)
}

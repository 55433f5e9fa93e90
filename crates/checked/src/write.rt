// Writing a page.
ghost use Rattle.std.specs.Prelude.{false, length};
ghost use Rattle.model.specs.Policy.{policy_choice};
ghost use Rattle.model.specs.Calls.{write};
ghost use Rattle.cache.specs.View.{directory_of};
ghost use Rattle.answer.specs.Numbers.{write_of, mends_of_write};
ghost use Rattle.lent.specs.Loan.{IsSameLent, buffers_of};
ghost use Rattle.checked.specs.Called.{store_with, result_with, CalledTo};
ghost use Rattle.checked.specs.Checks.{Passed};

use crate::check;
use address::PageNo;
use answer::{Refusal, Write};
use cache::{Directory, Sizes};
use chip::Seen;
use chip::lent::Chip;
use lent::Lent;

// The checks, and the write, with at most ops operations of the chip.
pub fn write(
    z: Sizes,
    directory: &mut Directory,
    lent: &mut Lent<'_>,
    pspace: &mut [u8],
    n: PageNo,
    page: &[u8],
    ops: u32,
) -> Result<Write, Refusal>
    ensures loan { IsSameLent lent.old lent.new }
    ensures called { let d = directory_of directory.old in
        let u = buffers_of lent.old pspace.old in
        let d' = directory_of directory.new in
        let u' = buffers_of lent.new pspace.new in
        CalledTo policy_choice ops (λ _. false) (store_with z d u) (write n.0 page.now)
        (result_with (write_of result) (mends_of_write result) z d' u' page.now) }
{
    check::page_ready(z, directory, lent.view(pspace), n, page.len())?;
    carry(z, directory, lent, pspace, n, page, ops)
}

// The write of a page whose checks were passed, with at most ops operations of the chip.
pub fn carry(
    z: Sizes,
    directory: &mut Directory,
    lent: &mut Lent<'_>,
    pspace: &mut [u8],
    n: PageNo,
    page: &[u8],
    ops: u32,
) -> Result<Write, Refusal>
    requires { Passed (store_with z (directory_of directory.old) (buffers_of lent.old pspace.old)) n.0 (length page.now) }
    ensures loan { IsSameLent lent.old lent.new }
    ensures called { let d = directory_of directory.old in
        let u = buffers_of lent.old pspace.old in
        let d' = directory_of directory.new in
        let u' = buffers_of lent.new pspace.new in
        CalledTo policy_choice ops (λ _. false) (store_with z d u) (write n.0 page.now)
        (result_with (write_of result) (mends_of_write result) z d' u' page.now) }
{
    let mut chip = Chip {
        sizes: z,
        flash: &mut *lent.flash,
        codes: &mut *lent.codes,
        marks: &mut *lent.marks,
        wear: &mut *lent.wear,
    };
    let beside = Seen {
        fault: None,
        mends: 0,
    };
    writes::write(
        &mut chip,
        directory,
        pspace,
        &mut *lent.bspace,
        n,
        page,
        beside,
        ops,
    )
}

// Writing part of a page.
ghost use Rattle.std.specs.Prelude.{false};
ghost use Rattle.model.specs.Policy.{policy_choice};
ghost use Rattle.model.specs.Calls.{part};
ghost use Rattle.cache.specs.View.{directory_of};
ghost use Rattle.answer.specs.Numbers.{write_of, mends_of_write};
ghost use Rattle.lent.specs.Loan.{IsSameLent, buffers_of};
ghost use Rattle.checked.specs.Called.{store_with, result_with, CalledTo};

use crate::check;
use address::PageNo;
use answer::{Refusal, Write, WriteWay};
use cache::{Directory, Sizes};
use chip::lent::Chip;
use lent::Lent;

// The checks, and the write, with at most ops operations of the chip.
pub fn write(
    z: Sizes,
    directory: &mut Directory,
    lent: &mut Lent<'_>,
    pspace: &mut [u8],
    n: PageNo,
    first: u32,
    bytes: &[u8],
    page: &mut [u8],
    ops: u32,
) -> Result<Write, Refusal>
    ensures loan { IsSameLent lent.old lent.new }
    ensures called { let d = directory_of directory.old in
        let u = buffers_of lent.old pspace.old in
        let d' = directory_of directory.new in
        let u' = buffers_of lent.new pspace.new in
        CalledTo policy_choice ops (λ _. false) (store_with z d u) (part n.0 first bytes.now page.old)
        (result_with (write_of result) (mends_of_write result) z d' u' page.new) }
{
    check::page_ready(z, directory, lent.view(pspace), n, page.len())?;
    if !lent::reach_ok(z, first, bytes.len()) {
        return Err(Refusal::Buffer);
    }
    if bytes.is_empty() {
        return Ok(Write::Done {
            way: WriteWay::Nothing,
            mends: 0,
        });
    }
    let mut chip = Chip {
        sizes: z,
        flash: &mut *lent.flash,
        codes: &mut *lent.codes,
        marks: &mut *lent.marks,
        wear: &mut *lent.wear,
    };
    parts::write(
        &mut chip,
        directory,
        pspace,
        &mut *lent.bspace,
        n,
        first,
        bytes,
        page,
        ops,
    )
}

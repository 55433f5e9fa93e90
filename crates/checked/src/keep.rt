// A write, and a part write, that keep page n as it was before (request A8): the checks, and the call itself.
ghost use Rattle.std.specs.Prelude.{◌≢◌, length};
ghost use Rattle.model.specs.Calls.{write, part};
ghost use Rattle.cache.specs.View.{directory_of};
ghost use Rattle.answer.specs.Numbers.{write_of, mends_of_write};
ghost use Rattle.lent.specs.Loan.{IsSameLent, buffers_of};
ghost use Rattle.checked.specs.Called.{result_with, KeepingTo};

use crate::check;
use address::PageNo;
use answer::{Refusal, Write};
use cache::{Directory, Sizes};
use chip::lent::Chip;
use lent::Lent;

// The checks, and the write of a page, with at most ops operations of the chip.
pub fn write(
    z: Sizes,
    directory: &mut Directory,
    lent: &mut Lent<'_>,
    pspace: &mut [u8],
    n: PageNo,
    page: &[u8],
    kept: &mut [u8; 2048],
    ops: u32,
) -> Result<Write, Refusal>
    ensures loan { IsSameLent lent.old lent.new }
    ensures called { let d = directory_of directory.old in
        let u = buffers_of lent.old pspace.old in
        let d' = directory_of directory.new in
        let u' = buffers_of lent.new pspace.new in
        KeepingTo ops z d u n.0 (write n.0 page.now) (result_with (write_of result) (mends_of_write result) z d' u' page.now)
        kept.new }
{
    check::page_ready(z, directory, lent.view(pspace), n, page.len())?;
    let mut chip = Chip {
        sizes: z,
        flash: &mut *lent.flash,
        codes: &mut *lent.codes,
        marks: &mut *lent.marks,
        wear: &mut *lent.wear,
    };
    let s = z.page_size as usize;
    keeping::write(
        &mut chip,
        directory,
        pspace,
        &mut *lent.bspace,
        n,
        page,
        &mut kept[..s],
        ops,
    )
}

// The checks, and the write of a page with bytes laid in, of which there are some, with at most ops operations of the chip.
pub fn part(
    z: Sizes,
    directory: &mut Directory,
    lent: &mut Lent<'_>,
    pspace: &mut [u8],
    n: PageNo,
    first: u32,
    bytes: &[u8],
    page: &mut [u8],
    kept: &mut [u8; 2048],
    ops: u32,
) -> Result<Write, Refusal>
    requires { length bytes.now ≢ 0 }
    ensures loan { IsSameLent lent.old lent.new }
    ensures called { let d = directory_of directory.old in
        let u = buffers_of lent.old pspace.old in
        let d' = directory_of directory.new in
        let u' = buffers_of lent.new pspace.new in
        KeepingTo ops z d u n.0 (part n.0 first bytes.now page.old)
        (result_with (write_of result) (mends_of_write result) z d' u' page.new) kept.new }
{
    check::page_ready(z, directory, lent.view(pspace), n, page.len())?;
    if !lent::reach_ok(z, first, bytes.len()) {
        return Err(Refusal::Buffer);
    }
    let mut chip = Chip {
        sizes: z,
        flash: &mut *lent.flash,
        codes: &mut *lent.codes,
        marks: &mut *lent.marks,
        wear: &mut *lent.wear,
    };
    let s = z.page_size as usize;
    keeping::part(
        &mut chip,
        directory,
        pspace,
        &mut *lent.bspace,
        n,
        first,
        bytes,
        page,
        &mut kept[..s],
        ops,
    )
}

// Reading a page.
ghost use Rattle.std.specs.Prelude.{◌≡◌};
ghost use Rattle.model.specs.Policy.{policy_choice};
ghost use Rattle.model.specs.Formats.{store_format};
ghost use Rattle.model.specs.Calls.{read, call};
ghost use Rattle.cache.specs.View.{directory_of};
ghost use Rattle.answer.specs.Numbers.{read_of, mends_of_read};
ghost use Rattle.lent.specs.Loan.{buffers_seen};
ghost use Rattle.checked.specs.Called.{store_with, result_with};

use crate::check;
use address::PageNo;
use answer::{Read, Refusal};
use cache::{Directory, Sizes};
use chip::lent::View;
use lent::LentView;

// The checks, and the read.
pub fn read(
    z: Sizes,
    directory: &mut Directory,
    lent: LentView<'_>,
    n: PageNo,
    page: &mut [u8],
) -> Result<Read, Refusal>
    ensures { let u = buffers_seen lent.entry in
        let d = directory_of directory.old in
        let d' = directory_of directory.new in
        result_with (read_of result) (mends_of_read result) z d' u page.new
        ≡ call store_format policy_choice (store_with z d u) (read n.0 page.old) }
{
    check::page_ready(z, directory, lent, n, page.len())?;
    let view = View {
        sizes: z,
        flash: lent.flash,
        codes: lent.codes,
        marks: lent.marks,
    };
    let done = reads::read(view, directory, lent.pspace, lent.bspace, n, page);
    match done.fault {
        Some(fault) => Err(fault.into()),
        None => Ok(Read {
            way: done.way,
            mends: done.mends,
        }),
    }
}

// The checks of a call, in their order.
ghost use Rattle.cache.specs.View.{directory_of};
ghost use Rattle.lent.specs.Loan.{buffers_seen};
ghost use Rattle.checked.specs.Called.{store_with};
ghost use Rattle.checked.specs.Checks.{Checked, PageChecked};

use address::PageNo;
use answer::Refusal;
use cache::{Directory, Sizes};
use lent::LentView;

// Checks 4 and 2: the record is sound, and each lent buffer has its length.
pub fn ready(z: Sizes, directory: &Directory, lent: LentView<'_>) -> Result<(), Refusal>
    ensures { Checked (store_with z (directory_of directory.now) (buffers_seen lent.entry)) result }
{
    if !sound::directory_sound(z, directory) {
        return Err(Refusal::Record);
    }
    if !lent.fits(z) {
        return Err(Refusal::Buffer);
    }
    Ok(())
}

// Checks 4, 2 and 5 of a call on page n with a page buffer of so many bytes.
pub(crate) fn page_ready(
    z: Sizes,
    directory: &Directory,
    lent: LentView<'_>,
    n: PageNo,
    long: usize,
) -> Result<(), Refusal>
    ensures { PageChecked (store_with z (directory_of directory.now) (buffers_seen lent.entry)) n.0 long result }
{
    ready(z, directory, lent)?;
    if long != z.page_size as usize {
        return Err(Refusal::Buffer);
    }
    if z.blocks * z.pages_per_block <= n.0 {
        return Err(Refusal::Page);
    }
    Ok(())
}

// Taking a write back (request A8): the latest shelved page is written as page buffers are, and its entry dropped.
ghost use Rattle.std.specs.Prelude.{[]};
ghost use Rattle.model.specs.Shelf as model;
ghost use Rattle.cache.specs.View.{directory_of};
ghost use Rattle.answer.specs.Numbers.{write_of, mends_of_write};
ghost use Rattle.lent.specs.Loan.{IsSameLent, buffers_of};
ghost use Rattle.shelving.specs.Shelving.{store_on, result_on, ShelvedTo};

use crate::unfit;
use address::PageNo;
use answer::{Refusal, Write};
use cache::{Directory, Sizes};
use lent::Lent;

// Taking back. Its checks 4 and 2 stand before 8, the empty shelf; check 5 is not needed, since the entries have pages of the chip.
pub fn back(
    z: Sizes,
    entries: &mut [u32; 8],
    directory: &mut Directory,
    lent: &mut Lent<'_>,
    pspace: &mut [u8],
    shelf: &[u8],
    ops: u32,
) -> Result<Write, Refusal>
    ensures loan { IsSameLent lent.old lent.new }
    ensures shelved { let d = directory_of directory.old in
        let d' = directory_of directory.new in
        let u = buffers_of lent.old pspace.old in
        let u' = buffers_of lent.new pspace.new in
        ShelvedTo ops (store_on z d entries.old u shelf.now) model.back
        (result_on (write_of result) (mends_of_write result) z d' entries.new u' shelf.now []) }
{
    unfit::fitting(z, entries, directory, shelf.len())?;
    checked::check::ready(z, directory, lent.view(pspace))?;
    let used = shelf::used(entries);
    if used == 0 {
        return Err(Refusal::Empty);
    }
    let latest = used - 1;
    let n = PageNo(entries[latest]);
    let s = z.page_size as usize;
    let a = latest * s;
    let page = &shelf[a..a + s];
    let answer = checked::write::carry(z, directory, lent, pspace, n, page, ops);
    shelf::drop_latest(entries, latest, answer);
    answer
}

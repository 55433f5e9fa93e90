// The calls on a record's sizes and directory and on lent buffers, with the shelf's entries and the shelf: a call where these do not fit
// is refused, and every other is checked and carried out. Writes of a store with shelf pages go their own way. A call that rewrites is
// told how many operations of the chip it may do (request A12).
#![tactic(auto)]

pub mod back; // back.rt: taking a write back
mod keep; // keep.rt: writes of a store with shelf pages
mod unfit; // unfit.rt: calls that are refused for their entries and shelf

ghost use Rattle.std.specs.Prelude.{◌≡◌, []};
ghost use Rattle.model.specs.Policy.{policy_choice};
ghost use Rattle.model.specs.Calls as calls;
ghost use Rattle.model.specs.Shelf.{plainly, store_call};
ghost use Rattle.cache.specs.View.{directory_of};
ghost use Rattle.answer.specs.Numbers.{read_of, write_of, step_of, flush_of, mends_of_read, mends_of_write, mends_of_step, mends_of_flush};
ghost use Rattle.lent.specs.Loan.{IsSameLent, buffers_of, buffers_seen};
ghost use Rattle.shelving.specs.Shelving.{store_on, result_on, ShelvedTo};

use address::PageNo;
use answer::{Flush, Read, Refusal, Step, Write};
use cache::{Directory, Sizes};
use lent::{Lent, LentView};

// Reading a page.
pub fn read(
    z: Sizes,
    entries: &[u32; 8],
    directory: &mut Directory,
    lent: LentView<'_>,
    shelf: &[u8],
    n: PageNo,
    page: &mut [u8],
) -> Result<Read, Refusal>
    ensures { let d = directory_of directory.old in
        let d' = directory_of directory.new in
        let u = buffers_seen lent.entry in
        result_on (read_of result) (mends_of_read result) z d' entries.now u shelf.now page.new
        ≡ store_call policy_choice (store_on z d entries.now u shelf.now) (plainly (calls.read n.0 page.old)) }
{
    unfit::fitting(z, entries, directory, shelf.len())?;
    checked::read::read(z, directory, lent, n, page)
}

// Writing a page.
pub fn write(
    z: Sizes,
    entries: &mut [u32; 8],
    directory: &mut Directory,
    lent: &mut Lent<'_>,
    pspace: &mut [u8],
    shelf: &mut [u8],
    n: PageNo,
    page: &[u8],
    ops: u32,
) -> Result<Write, Refusal>
    ensures loan { IsSameLent lent.old lent.new }
    ensures shelved { let d = directory_of directory.old in
        let d' = directory_of directory.new in
        let u = buffers_of lent.old pspace.old in
        let u' = buffers_of lent.new pspace.new in
        ShelvedTo ops (store_on z d entries.old u shelf.old) (plainly (calls.write n.0 page.now))
        (result_on (write_of result) (mends_of_write result) z d' entries.new u' shelf.new page.now) }
{
    unfit::fitting(z, entries, directory, shelf.len())?;
    if z.shelf_pages != 0 {
        return keep::write(z, entries, directory, lent, pspace, shelf, n, page, ops);
    }
    checked::write::write(z, directory, lent, pspace, n, page, ops)
}

// Writing part of a page.
pub fn part(
    z: Sizes,
    entries: &mut [u32; 8],
    directory: &mut Directory,
    lent: &mut Lent<'_>,
    pspace: &mut [u8],
    shelf: &mut [u8],
    n: PageNo,
    first: u32,
    bytes: &[u8],
    page: &mut [u8],
    ops: u32,
) -> Result<Write, Refusal>
    ensures loan { IsSameLent lent.old lent.new }
    ensures shelved { let d = directory_of directory.old in
        let d' = directory_of directory.new in
        let u = buffers_of lent.old pspace.old in
        let u' = buffers_of lent.new pspace.new in
        ShelvedTo ops (store_on z d entries.old u shelf.old) (plainly (calls.part n.0 first bytes.now page.old))
        (result_on (write_of result) (mends_of_write result) z d' entries.new u' shelf.new page.new) }
{
    unfit::fitting(z, entries, directory, shelf.len())?;
    if (z.shelf_pages != 0) & !bytes.is_empty() {
        return keep::part(
            z, entries, directory, lent, pspace, shelf, n, first, bytes, page, ops,
        );
    }
    checked::part::write(z, directory, lent, pspace, n, first, bytes, page, ops)
}

// A flush step.
pub fn step(
    z: Sizes,
    entries: &[u32; 8],
    directory: &mut Directory,
    lent: &mut Lent<'_>,
    pspace: &[u8],
    shelf: &[u8],
    ops: u32,
) -> Result<Option<Step>, Refusal>
    ensures loan { IsSameLent lent.old lent.new }
    ensures order { directory.new.recency ≡ directory.old.recency }
    ensures shelved { let d = directory_of directory.old in
        let d' = directory_of directory.new in
        let u = buffers_of lent.old pspace.now in
        let u' = buffers_of lent.new pspace.now in
        ShelvedTo ops (store_on z d entries.now u shelf.now) (plainly calls.step)
        (result_on (step_of result) (mends_of_step result) z d' entries.now u' shelf.now []) }
{
    unfit::fitting(z, entries, directory, shelf.len())?;
    checked::flush::step(z, directory, lent, pspace, ops)
}

// A flush.
pub fn flush(
    z: Sizes,
    entries: &[u32; 8],
    directory: &mut Directory,
    lent: &mut Lent<'_>,
    pspace: &[u8],
    shelf: &[u8],
    ops: u32,
) -> Result<Flush, Refusal>
    ensures loan { IsSameLent lent.old lent.new }
    ensures order { directory.new.recency ≡ directory.old.recency }
    ensures shelved { let d = directory_of directory.old in
        let d' = directory_of directory.new in
        let u = buffers_of lent.old pspace.now in
        let u' = buffers_of lent.new pspace.now in
        ShelvedTo ops (store_on z d entries.now u shelf.now) (plainly calls.flush)
        (result_on (flush_of result) (mends_of_flush result) z d' entries.now u' shelf.now []) }
{
    unfit::fitting(z, entries, directory, shelf.len())?;
    checked::flush::flush(z, directory, lent, pspace, ops)
}

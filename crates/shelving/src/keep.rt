// Writes of a store with shelf pages: page n as it was before is kept on the way, and goes to the shelf where the write is accepted.
ghost use Rattle.std.specs.Prelude.{◌≡◌, ◌≢◌, true, length};
ghost use Rattle.model.specs.Calls as calls;
ghost use Rattle.model.specs.Shelf.{plainly, shelf_fits};
ghost use Rattle.cache.specs.View.{sizes_of, directory_of};
ghost use Rattle.answer.specs.Numbers.{write_of, mends_of_write};
ghost use Rattle.lent.specs.Loan.{IsSameLent, buffers_of};
ghost use Rattle.shelving.specs.Shelving.{store_on, result_on, ShelvedTo};

use address::PageNo;
use answer::{Refusal, Write};
use cache::{Directory, Sizes};
use lent::Lent;

// Writing a page.
pub(crate) fn write(
    z: Sizes,
    entries: &mut [u32; 8],
    directory: &mut Directory,
    lent: &mut Lent<'_>,
    pspace: &mut [u8],
    shelf: &mut [u8],
    n: PageNo,
    page: &[u8],
    ops: u32,
) -> Result<Write, Refusal>
    requires { (shelf_fits (sizes_of z) z.shelf_pages entries.old (length shelf.old) ≡ true) × (z.shelf_pages ≢ 0) }
    ensures loan { IsSameLent lent.old lent.new }
    ensures shelved { let d = directory_of directory.old in
        let d' = directory_of directory.new in
        let u = buffers_of lent.old pspace.old in
        let u' = buffers_of lent.new pspace.new in
        ShelvedTo ops (store_on z d entries.old u shelf.old) (plainly (calls.write n.0 page.now))
        (result_on (write_of result) (mends_of_write result) z d' entries.new u' shelf.new page.now) }
{
    let mut kept = [0u8; 2048];
    let answer = checked::keep::write(z, directory, lent, pspace, n, page, &mut kept, ops);
    shelf::keep(z, entries, shelf, answer, n, &kept);
    answer
}

// Writing part of a page, with bytes.
pub(crate) fn part(
    z: Sizes,
    entries: &mut [u32; 8],
    directory: &mut Directory,
    lent: &mut Lent<'_>,
    pspace: &mut [u8],
    shelf: &mut [u8],
    n: PageNo,
    first: u32,
    bytes: &[u8],
    page: &mut [u8],
    ops: u32,
) -> Result<Write, Refusal>
    requires { (shelf_fits (sizes_of z) z.shelf_pages entries.old (length shelf.old) ≡ true) × (z.shelf_pages ≢ 0)
        × (length bytes.now ≢ 0) }
    ensures loan { IsSameLent lent.old lent.new }
    ensures shelved { let d = directory_of directory.old in
        let d' = directory_of directory.new in
        let u = buffers_of lent.old pspace.old in
        let u' = buffers_of lent.new pspace.new in
        ShelvedTo ops (store_on z d entries.old u shelf.old) (plainly (calls.part n.0 first bytes.now page.old))
        (result_on (write_of result) (mends_of_write result) z d' entries.new u' shelf.new page.new) }
{
    let mut kept = [0u8; 2048];
    let answer = checked::keep::part(
        z, directory, lent, pspace, n, first, bytes, page, &mut kept, ops,
    );
    shelf::keep(z, entries, shelf, answer, n, &kept);
    answer
}

// The page buffer goes over a slot's page or over a page of a frame, or enters a vacant slot.
ghost use Rattle.std.specs.Prelude.{◌≡◌, ◌+◌, ◌*◌, ◌%◌, set};
ghost use Rattle.model.specs.Calls.{slot_pages, frame_pages};
ghost use Rattle.cache.specs.View.{sizes_of, directory_of};
ghost use Rattle.writes.specs.Writes.{OverSlot, OverFrame};
ghost use Rattle.writes.specs.Enter.{Enters, Entered};

use address::PageNo;
use cache::{Directory, Sizes};
use moves::numbers;
use policy::lookup;

// The page buffer goes over the page of slot i.
pub fn over_slot(z: Sizes, pspace: &mut [u8], i: usize, page: &[u8])
    requires { OverSlot (sizes_of z) i pspace.old page.now }
    ensures { slot_pages (sizes_of z) pspace.new ≡ set (slot_pages (sizes_of z) pspace.old) i page.now }
{
    page::copy_page(pspace, i, page, 0, z.page_size as usize);
}

// It goes over page n in frame f.
pub fn over_frame_page(z: Sizes, bspace: &mut [u8], f: usize, n: PageNo, page: &[u8])
    requires { OverFrame (sizes_of z) f bspace.old page.now }
    ensures { frame_pages (sizes_of z) bspace.new ≡ set (frame_pages (sizes_of z) bspace.old)
        (f * z.pages_per_block + n.0 % z.pages_per_block) page.now }
{
    let s = z.page_size as usize;
    let k = z.pages_per_block as usize;
    let o = address::offset_of(n, z.pages_per_block) as usize;
    page::copy_in_block(bspace, f, k, o, page, 0, s);
}

// Pages have joined frame f, or filled it, which is a use of it, and page n enters the first vacant slot.
pub fn enter(
    z: Sizes,
    directory: &mut Directory,
    pspace: &mut [u8],
    f: usize,
    filled: bool,
    n: PageNo,
    page: &[u8],
)
    requires { Enters (sizes_of z) (directory_of directory.old) f pspace.old page.now }
    ensures { Entered (sizes_of z) filled (directory_of directory.old) f pspace.old n.0 page.now
        (directory_of directory.new) pspace.new }
{
    numbers::used(z, directory, f, filled);
    let i = lookup::free_slot(z, directory).unwrap();
    over_slot(z, pspace, i, page);
    directory.slots[i] = n;
}

// One sheet, decoded where its page lies: in a slot, in a frame or in flash. Only a page that its code mends is copied.
ghost use Rattle.std.specs.Prelude.{◌≡◌, ◌*◌, ◌≤◌, ◌<◌, Ok};
ghost use Rattle.prelude.specs.Pages.{page_at};
ghost use Rattle.page.specs.Page.{HasPage};
ghost use Rattle.runs.specs.Sheet.{sheet_of};
ghost use Rattle.cache.specs.View.{sizes_of, directory_of};
ghost use Rattle.reads.specs.Reads.{Readable};
ghost use Rattle.sheets.specs.View.{fields_of};
ghost use Rattle.gather.specs.Gather.{CachedSheet, FlashSheet, SheetRead};

use address::PageNo;
use answer::Fault;
use cache::Directory;
use chip::lent::View;
use policy::lookup;
use sheets::{Sheet, bytes};

// The sheet that a page holds, and how many chunks of the page were mended.
#[derive(Clone, Copy, PartialEq, Eq, Debug)]
pub struct Met {
    pub mends: u32,
    pub sheet: Sheet,
}

// The sheet on page n: a read that counts as no use. Error: what it meets in flash.
pub fn read(
    view: View<'_>,
    directory: &Directory,
    pspace: &[u8],
    bspace: &[u8],
    n: PageNo,
    whole: &mut [u8],
) -> Result<Met, Fault>
    requires { Readable (sizes_of view.sizes) pspace.now bspace.now n.0 whole.old × (28 ≤ view.sizes.page_size) }
    ensures { let v = view.entry in
        SheetRead (sizes_of v.sizes) (directory_of directory.now) v.flash.now v.codes.now v.marks.now pspace.now bspace.now n.0 result }
{
    let z = view.sizes;
    let s = z.page_size as usize;
    if let Some(i) = lookup::slot_of(z, directory, n) {
        return Ok(cached(pspace, i, s));
    }
    if let Some(f) = lookup::frame_with(z, directory, n) {
        let o = address::offset_of(n, z.pages_per_block) as usize;
        let at = f * z.pages_per_block as usize + o;
        return Ok(cached(bspace, at, s));
    }
    in_flash(view, n, whole)
}

// The sheet on page i of p-space or b-space, where nothing is refused or mended.
fn cached(space: &[u8], i: usize, s: usize) -> Met
    requires { HasPage s space.now i × (28 ≤ s) }
    ensures { CachedSheet s space.now i (Ok result) }
{
    Met {
        mends: 0,
        sheet: sheet_at(space, i, s),
    }
}

// The sheet on page n of flash, which is cached nowhere. Where nothing is mended it is read as it lies.
fn in_flash(view: View<'_>, n: PageNo, whole: &mut [u8]) -> Result<Met, Fault>
    requires { (n.0 < view.sizes.blocks * view.sizes.pages_per_block) × HasPage view.sizes.page_size whole.old 0
        × (28 ≤ view.sizes.page_size) }
    ensures { let v = view.entry in FlashSheet (sizes_of v.sizes) v.flash.now v.codes.now v.marks.now n.0 result }
{
    let s = view.sizes.page_size as usize;
    let seen = view.look_page(n);
    if let Some(fault) = seen.fault {
        return Err(fault);
    }
    let mends = seen.mends;
    let mended = mends != 0;
    let sheet = if mended {
        view.mend_page(n, whole, 0);
        sheet_at(whole, 0, s)
    } else {
        sheet_at(view.flash, n.0 as usize, s)
    };
    Ok(Met { mends, sheet })
}

// The sheet on page i of a run of pages.
#[tactic(auto, unfolding(prelude::specs::Pages::page_at))]
fn sheet_at(pages: &[u8], i: usize, s: usize) -> Sheet
    requires { HasPage s pages.now i × (28 ≤ s) }
    ensures { fields_of result ≡ sheet_of (page_at s pages.now i) }
{
    let a = i * s;
    let e = a + s;
    bytes::decode(&pages[a..e])
}

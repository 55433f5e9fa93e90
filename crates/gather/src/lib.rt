// All sheets of a catalogue read from the store, as no use, into a table.
#![tactic(auto)]

mod sheet; // sheet.rt: one sheet, decoded where it lies

ghost use Rattle.cache.specs.View.{sizes_of, directory_of};
ghost use Rattle.gather.specs.Gather.{Gatherable, Gathered};

use address::PageNo;
use answer::Fault;
use cache::Directory;
use chip::lent::View;
use sheets::Sheet;

// Reads the sheets on the first c pages one after the other, into a table and the mends of each; a page that wants mending goes into a page
// that is lent. The sheets serve a verdict and the mends go on to the end of the call, so that each has a table of its own. Error: what the
// first page meets that flash refuses, where it stops.
pub fn gather(
    view: View<'_>,
    directory: &Directory,
    pspace: &[u8],
    bspace: &[u8],
    whole: &mut [u8],
    c: u32,
    t: &mut [Sheet; 256],
    mends: &mut [u32; 256],
) -> Result<(), Fault>
    requires { Gatherable (sizes_of view.sizes) pspace.now bspace.now whole.old c }
    ensures { let v = view.entry in
        Gathered (sizes_of v.sizes) (directory_of directory.now) v.flash.now v.codes.now v.marks.now pspace.now bspace.now c result
        t.new mends.new }
{
    for i in 0..c {
        let met = sheet::read(view, directory, pspace, bspace, PageNo(i), whole)?;
        let at = i as usize;
        t[at] = met.sheet;
        mends[at] = met.mends;
    }
    Ok(())
}

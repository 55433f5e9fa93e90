// The check beforehand of a flush: what all its merge reads meet in flash. The steps are gone through on a copy of the directory, so that
// each block with a page cached is looked at once, and nothing is changed.
ghost use Rattle.cache.specs.View.{sizes_of, directory_of};
ghost use Rattle.flushes.specs.Flushes.{LooksAll, AllLooked};

use cache::Directory;
use chip::Seen;
use chip::lent::View;

// The fault that stands of all that the flush merges, and their mends. A store without codes and marks meets nothing. No `for`: which block
// is due next is known only once the one before is forgotten.
#[tactic(auto, using(policy::proofs::Asks::all_due))]
pub fn look_all(view: View<'_>, directory: &Directory) -> Seen
    requires { LooksAll (sizes_of view.sizes) (directory_of directory.now) view.flash.now view.codes.now view.marks.now }
    ensures { AllLooked (sizes_of view.entry.sizes) (directory_of directory.now) view.entry.flash.now view.entry.codes.now
        view.entry.marks.now result }
{
    let z = view.sizes;
    let mut fault = None;
    let mut mends = 0;
    if !chip::has_codes(z) && !chip::has_marks(z) {
        return Seen { fault, mends };
    }
    let mut rest = *directory;
    while let Some(due) = policy::flush::due(z, &rest) {
        let seen = clean::look(view, &rest, due.block, due.frame);
        fault = chip::worse(fault, seen.fault);
        mends += seen.mends;
        clean::forget(z, &mut rest, due.block, due.frame);
    }
    Seen { fault, mends }
}

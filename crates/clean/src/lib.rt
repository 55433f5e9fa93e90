// The cleaning of one block, for a sound record: a flush step's work, and the beginning of way 7.
#![tactic(auto)]

ghost use Rattle.std.specs.Prelude.{◌≡◌, ◌<◌};
ghost use Rattle.model.specs.Policy.{due};
ghost use Rattle.model.specs.Moves.{stepped, vacated};
ghost use Rattle.cache.specs.View.{sizes_of, directory_of};
ghost use Rattle.chip.specs.Loan.{IsSameLoan};
ghost use Rattle.clean.specs.Clean.{Lookable, MergesLooked, Cleanable, BlockCleaned};

use address::BlockNo;
use cache::{Directory, Sizes, VACANT};
use chip::lent::{Chip, View};
use chip::{BlockSeen, Rewrote};
use moves::join;

// The check beforehand: what the merge reads of a cleaning of block b through frame f meet in flash. Nothing is changed. Without codes and
// marks (numbers, as the C interface has them) nothing can be met, and the slots need no pass.
pub fn look(view: View<'_>, directory: &Directory, b: BlockNo, f: usize) -> BlockSeen
    requires { Lookable (sizes_of view.sizes) (directory_of directory.now) b.0 f }
    ensures { MergesLooked (sizes_of view.entry.sizes) (directory_of directory.now) view.entry.flash.now view.entry.codes.now
        view.entry.marks.now b.0 f result }
{
    if (view.sizes.coded != 1) & (view.sizes.marked != 1) {
        return BlockSeen {
            fault: None,
            mends: 0,
            mend: 0,
        };
    }
    let v = join::offsets(view.sizes, directory, b, directory.valid[f]);
    view.look_block(b, v)
}

// Block b's pages in slots join frame f, and the frame is vacated and rewritten: a rewrite needs only its valid set. The check
// beforehand found no fault, and mend has the pages that want mending. At most ops operations of the chip are done.
pub fn clean_block(
    chip: &mut Chip<'_>,
    directory: &mut Directory,
    pspace: &[u8],
    bspace: &mut [u8],
    b: BlockNo,
    f: usize,
    mend: u64,
    ops: u32,
) -> Rewrote
    requires { Cleanable (sizes_of chip.old.sizes) (directory_of directory.old) chip.old.flash.now chip.old.codes.now
        chip.old.marks.now chip.old.wear.now pspace.now bspace.old b.0 f mend }
    ensures loan { IsSameLoan chip.old chip.new }
    ensures cleaned { BlockCleaned (sizes_of chip.old.sizes) (directory_of directory.old) chip.old.flash.now chip.old.codes.now
        chip.old.marks.now chip.old.wear.now pspace.now bspace.old b.0 f ops (directory_of directory.new) result chip.new.flash.now
        chip.new.codes.now chip.new.marks.now chip.new.wear.now bspace.new }
{
    join::join(chip.sizes, directory, pspace, bspace, b, f);
    let v = directory.valid[f];
    vacate_frame(directory, f);
    chip.rewrite(v, mend, bspace, b, f, ops)
}

// What a cleaning of block b through frame f leaves of the directory, without any page moved: for a look at the blocks that come after it.
pub fn forget(z: Sizes, directory: &mut Directory, b: BlockNo, f: usize)
    requires { Lookable (sizes_of z) (directory_of directory.old) b.0 f }
    ensures { directory_of directory.new ≡ stepped (sizes_of z) (directory_of directory.old) (due b.0 f) }
{
    join::vacate(z, directory, b);
    vacate_frame(directory, f);
}

// Frame f is vacant, with no valid page and no uses.
#[tactic(auto, using(cache::proofs::Entries::blocks_set), unfolding(cache::specs::View::directory_of, model::specs::Moves::vacated))]
fn vacate_frame(directory: &mut Directory, f: usize)
    requires { f < 8 }
    ensures { directory_of directory.new ≡ vacated (directory_of directory.old) f }
{
    directory.frames[f] = BlockNo(VACANT);
    directory.valid[f] = 0;
    directory.uses[f] = 0;
}

// Way 7: the frame's block is cleaned as by a flush step, and the victim's pages fill the frame. At most ops operations of the chip are
// done.
ghost use Rattle.model.specs.Policy.{evict};
ghost use Rattle.cache.specs.View.{sizes_of, directory_of};
ghost use Rattle.chip.specs.Loan.{IsSameLoan, buffers_of};
ghost use Rattle.answer.specs.Numbers.{write_of, mends_of_write};
ghost use Rattle.writes.specs.Writes.{Carries, CarriedOut};

use crate::ahead::Outlook;
use crate::put;
use address::{BlockNo, PageNo};
use answer::Write;
use cache::Directory;
use chip::lent::Chip;
use moves::join;

// The victim is block v, and f the frame.
pub fn evict(
    chip: &mut Chip<'_>,
    directory: &mut Directory,
    pspace: &mut [u8],
    bspace: &mut [u8],
    v: BlockNo,
    f: usize,
    outlook: Outlook,
    n: PageNo,
    page: &[u8],
    ops: u32,
) -> Write
    requires { let u = buffers_of chip.old pspace.old bspace.old in
        Carries (sizes_of chip.old.sizes) (directory_of directory.old) u page.now (evict v.0 f) outlook.mend }
    ensures loan { IsSameLoan chip.old chip.new }
    ensures carried { let u = buffers_of chip.old pspace.old bspace.old in
        let u' = buffers_of chip.new pspace.new bspace.new in
        CarriedOut (sizes_of chip.old.sizes) (directory_of directory.old) u n.0 page.now (evict v.0 f) outlook.mends ops
        (write_of (Ok result)) (mends_of_write (Ok result)) (directory_of directory.new) u' }
{
    let z = chip.sizes;
    let block = directory.frames[f];
    let done = clean::clean_block(chip, directory, pspace, bspace, block, f, outlook.mend, ops);
    join::join(z, directory, pspace, bspace, v, f);
    put::enter(z, directory, pspace, f, true, n, page);
    Write::Rewrote {
        block,
        merged: done.reads,
        mends: outlook.mends,
    }
}

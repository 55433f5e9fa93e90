// A flush step and a flush, for a sound record and rightly sized buffers. Each looks first, and changes nothing where it is refused.
#![tactic(auto)]

mod ahead; // ahead.rt: the check beforehand of a flush

ghost use Rattle.std.specs.Prelude.{◌≡◌};
ghost use Rattle.model.specs.Directory.{valid_at};
ghost use Rattle.model.specs.Moves.{joined};
ghost use Rattle.model.specs.Calls.{merges_page, mends_met};
ghost use Rattle.chip.specs.Chip.{mends_on, mend_set};
ghost use Rattle.chip.specs.Loan.{IsSameLoan, buffers_of};
ghost use Rattle.answer.specs.Numbers.{step_of, flush_of, mends_of_step, mends_of_flush};
ghost use Rattle.answer.specs.Carried.{Ready};
ghost use Rattle.cache.specs.View.{sizes_of, directory_of};
ghost use Rattle.clean.specs.Clean.{Lookable};
ghost use Rattle.flushes.specs.Flushes.{StepCarried, FlushCarried, Flushable};

use answer::{Flush, Refusal, Step};
use cache::Directory;
use chip::lent::{Chip, View};
use policy::decision::Due;

// One flush step: the block that is due is cleaned, unless it is worn or a merge read meets a refusal. At most ops operations of the chip
// are done. None: nothing is cached.
#[tactic(auto, using(policy::proofs::Asks::all_due))]
pub fn step(
    chip: &mut Chip<'_>,
    directory: &mut Directory,
    pspace: &[u8],
    bspace: &mut [u8],
    ops: u32,
) -> Result<Option<Step>, Refusal>
    requires { Ready (sizes_of chip.old.sizes) (directory_of directory.old) (buffers_of chip.old pspace.now bspace.old) }
    ensures loan { IsSameLoan chip.old chip.new }
    ensures order { directory.new.recency ≡ directory.old.recency }
    ensures carried { let u = buffers_of chip.old pspace.now bspace.old in
        let u' = buffers_of chip.new pspace.now bspace.new in
        StepCarried (sizes_of chip.old.sizes) (directory_of directory.old) u ops (step_of result) (mends_of_step result)
        (directory_of directory.new) u' }
{
    let Some(due) = policy::flush::due(chip.sizes, directory) else {
        return Ok(None);
    };
    // The wear by a name of its own: lent as a field, the chip would not be known to hold the same afterwards.
    let wear = &mut *chip.wear;
    if policy::flush::is_worn(chip.sizes, wear, due.block) {
        return Err(Refusal::Worn(due.block));
    }
    let seen = clean::look(chip.view(), directory, due.block, due.frame);
    if let Some(fault) = seen.fault {
        return Err(fault.into());
    }
    let done = clean::clean_block(
        chip, directory, pspace, bspace, due.block, due.frame, seen.mend, ops,
    );
    Ok(Some(Step {
        block: due.block,
        merged: done.reads,
        mends: seen.mends,
    }))
}

// A flush: steps until nothing is cached, unless a block with a page cached is worn, of which the lowest is named, or a page that any of
// the steps would merge meets a refusal. The mends are those of the check beforehand, and no step adds to them: each page counts once.
#[tactic(auto, using(policy::proofs::Asks::cached_worn))]
pub fn flush(
    chip: &mut Chip<'_>,
    directory: &mut Directory,
    pspace: &[u8],
    bspace: &mut [u8],
    ops: u32,
) -> Result<Flush, Refusal>
    requires { Ready (sizes_of chip.old.sizes) (directory_of directory.old) (buffers_of chip.old pspace.now bspace.old) }
    ensures loan { IsSameLoan chip.old chip.new }
    ensures order { directory.new.recency ≡ directory.old.recency }
    ensures carried { let u = buffers_of chip.old pspace.now bspace.old in
        let u' = buffers_of chip.new pspace.now bspace.new in
        FlushCarried (sizes_of chip.old.sizes) (directory_of directory.old) u ops (flush_of result) (mends_of_flush result)
        (directory_of directory.new) u' }
{
    // The wear by a name of its own: lent as a field, the chip would not be known to hold the same afterwards.
    let wear = &mut *chip.wear;
    if let Some(block) = policy::flush::lowest_worn(chip.sizes, directory, wear) {
        return Err(Refusal::Worn(block));
    }
    let seen = ahead::look_all(chip.view(), directory);
    if let Some(fault) = seen.fault {
        return Err(fault.into());
    }
    Ok(clean_all(chip, directory, pspace, bspace, seen.mends, ops))
}

// Cleans the blocks that are due one after the other, none of which is worn or faulty, and counts rewrites and merge reads. The merges have
// these mends together: where there are none, no page has to be looked at again. At most ops operations of the chip are done. No `for`:
// which block is due next is known only once the one before is cleaned.
#[tactic(auto, using(policy::proofs::Asks::all_due))]
fn clean_all(
    chip: &mut Chip<'_>,
    directory: &mut Directory,
    pspace: &[u8],
    bspace: &mut [u8],
    mends: u32,
    ops: u32,
) -> Flush
    requires { Flushable (sizes_of chip.old.sizes) (directory_of directory.old) (buffers_of chip.old pspace.now bspace.old) mends }
    ensures loan { IsSameLoan chip.old chip.new }
    ensures order { directory.new.recency ≡ directory.old.recency }
    ensures carried { let u = buffers_of chip.old pspace.now bspace.old in
        let u' = buffers_of chip.new pspace.now bspace.new in
        FlushCarried (sizes_of chip.old.sizes) (directory_of directory.old) u ops (flush_of (Ok result)) (mends_of_flush (Ok result))
        (directory_of directory.new) u' }
{
    let z = chip.sizes;
    let mut done = Flush {
        rewrites: 0,
        merged: 0,
        mends,
    };
    let mut left = ops;
    while let Some(due) = policy::flush::due(z, directory) {
        let mend = mend_due(chip.view(), directory, due, mends);
        let rewrote = clean::clean_block(
            chip, directory, pspace, bspace, due.block, due.frame, mend, left,
        );
        done.rewrites += 1;
        done.merged += rewrote.reads;
        if left <= z.pages_per_block {
            return done;
        }
        left = rewrote.left;
    }
    done
}

// The pages of the block that is due that want mending when it is cleaned: none where a flush has no mends at all.
#[tactic(auto, using(crate::proofs::Flushing::nothing_to_mend))]
fn mend_due(view: View<'_>, directory: &Directory, due: Due, mends: u32) -> u64
    requires { let sz = sizes_of view.sizes in
        let d = directory_of directory.now in
        Lookable sz d due.block.0 due.frame × (mends ≡ 0
        → mends_met sz (mends_on sz view.flash.now view.codes.now view.marks.now) (merges_page sz d due.block.0 due.frame) ≡ 0) }
    ensures { let sz = sizes_of view.entry.sizes in
        result ≡ mend_set sz view.entry.flash.now view.entry.codes.now due.block.0
        (valid_at (joined sz (directory_of directory.now) due.block.0 due.frame) due.frame) }
{
    if mends == 0 {
        return 0;
    }
    clean::look(view, directory, due.block, due.frame).mend
}

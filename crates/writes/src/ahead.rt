// The look before a write: what it would do, and what its reads meet in flash. Nothing is changed.
ghost use Rattle.std.specs.Prelude.{◌≡◌, IfErr, IfOk, cond, ◌+◌, ◌/◌, ◌<◌, ◌^◌, eqb};
ghost use Rattle.model.specs.Sizes.{InLimits};
ghost use Rattle.model.specs.Policy.{policy_choice, plan};
ghost use Rattle.cache.specs.View.{sizes_of, directory_of};
ghost use Rattle.policy.specs.Views.{plan_of};
ghost use Rattle.writes.specs.Ahead.{Looks, Foreseen, TurnedDown, erased_frame};

use address::{BlockNo, PageNo};
use answer::Refusal;
use cache::{Directory, Sizes};
use chip::Seen;
use chip::lent::Chip;
use policy::decision::{Plan, Room};

// What a write that goes on does: its plan, the chunks that its reads mend, each page counting once, and the set of the pages that want
// mending in the block that it rewrites.
#[derive(Clone, Copy, PartialEq, Eq, Debug)]
pub struct Outlook {
    pub plan: Plan,
    pub mends: u32,
    pub mend: u64,
}

// The outlook of a write of page n. Refused where the block that it erases is worn, or else where its merge reads, or what was read
// besides, met a fault.
pub fn look(
    chip: &Chip<'_>,
    directory: &Directory,
    n: PageNo,
    beside: Seen,
) -> Result<Outlook, Refusal>
    requires { Looks (sizes_of chip.now.sizes) (directory_of directory.now) n.0 beside }
    ensures foreseen { let sz = sizes_of chip.now.sizes in
        let d = directory_of directory.now in
        IfOk result (Foreseen sz d chip.now.flash.now chip.now.codes.now chip.now.marks.now chip.now.wear.now n.0
        (plan policy_choice sz d chip.now.wear.now n.0) beside) }
    ensures refused { let sz = sizes_of chip.now.sizes in
        let d = directory_of directory.now in
        IfErr result (TurnedDown sz d chip.now.flash.now chip.now.codes.now chip.now.marks.now chip.now.wear.now n.0
        (plan policy_choice sz d chip.now.wear.now n.0) beside) }
{
    let z = chip.sizes;
    let plan = policy::plan::plan(z, directory, n, chip.wear);
    let Some(f) = erased_frame(plan) else {
        if let Some(fault) = beside.fault {
            return Err(fault.into());
        }
        return Ok(Outlook {
            plan,
            mends: beside.mends,
            mend: 0,
        });
    };
    let block = directory.frames[f];
    if policy::flush::is_worn(z, chip.wear, block) {
        return Err(Refusal::Worn(block));
    }
    let seen = clean::look(chip.view(), directory, block, f);
    if let Some(fault) = chip::worse(seen.fault, beside.fault) {
        return Err(fault.into());
    }
    let mends = mends_once(z, block, seen.mends, n, beside.mends);
    Ok(Outlook {
        plan,
        mends,
        mend: seen.mend,
    })
}

// The frame whose block the plan erases: of way 7 alone.
fn erased_frame(plan: Plan) -> Option<usize>
    ensures { result ≡ erased_frame (plan_of plan) }
{
    match plan {
        Plan::MakeRoom(Room::Evict(_, f)) => Some(f),
        _ => None,
    }
}

// The mends of a write that reads page n besides: in the block that is rewritten it is among the merge reads, and counts once.
fn mends_once(z: Sizes, block: BlockNo, merges: u32, n: PageNo, besides: u32) -> u32
    requires { InLimits (sizes_of z) × (merges + besides < 2 ^ 32) }
    ensures { result ≡ cond (eqb (n.0 / z.pages_per_block) block.0) merges (merges + besides) }
{
    if besides == 0 || address::block_of(n, z.pages_per_block) == block {
        return merges;
    }
    merges + besides
}

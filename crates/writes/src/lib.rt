// Writing a page, for a sound record and rightly sized buffers: first a look at what the write would do and meet, which changes nothing,
// and then the policy's plan is carried out.
#![tactic(auto)]

mod ahead; // ahead.rt: the look
mod evict; // evict.rt: way 7
mod put; // put.rt: the page buffer goes over a slot or a page of a frame, or enters a vacant slot

ghost use Rattle.std.specs.Prelude.{◌≡◌};
ghost use Rattle.model.specs.Policy.{policy_choice, plan};
ghost use Rattle.cache.specs.View.{sizes_of, directory_of};
ghost use Rattle.chip.specs.Loan.{IsSameLoan, buffers_of};
ghost use Rattle.answer.specs.Numbers.{write_of, mends_of_write};
ghost use Rattle.policy.specs.Views.{plan_of};
ghost use Rattle.writes.specs.Writes.{Writable, Wrote, Carries, CarriedOut};

use address::PageNo;
use ahead::Outlook;
use answer::{Refusal, Write, WriteWay};
use cache::Directory;
use chip::Seen;
use chip::lent::Chip;
use moves::{exchange, join, numbers};
use policy::decision::{Plan, Room};

// Writes the page buffer as page n, with at most ops operations of the chip. Beside is what a read of page n, as no use, met in flash that
// the write is to answer for with its own merge reads; a write that reads nothing besides hands no fault and no mends. A write that is
// refused, for a worn block or for what its reads meet, changes nothing.
pub fn write(
    chip: &mut Chip<'_>,
    directory: &mut Directory,
    pspace: &mut [u8],
    bspace: &mut [u8],
    n: PageNo,
    page: &[u8],
    beside: Seen,
    ops: u32,
) -> Result<Write, Refusal>
    requires { let u = buffers_of chip.old pspace.old bspace.old in
        Writable (sizes_of chip.old.sizes) (directory_of directory.old) u n.0 page.now beside }
    ensures loan { IsSameLoan chip.old chip.new }
    ensures wrote { let sz = sizes_of chip.old.sizes in
        let d = directory_of directory.old in
        let u = buffers_of chip.old pspace.old bspace.old in
        let u' = buffers_of chip.new pspace.new bspace.new in
        Wrote sz d u n.0 page.now (plan policy_choice sz d u.wear n.0) beside ops (write_of result) (mends_of_write result)
        (directory_of directory.new) u' }
{
    let outlook = ahead::look(chip, directory, n, beside)?;
    Ok(carry_out(chip, directory, pspace, bspace, outlook, n, page, ops))
}

// Carries the plan out: the look found no worn block and no fault. Ways 4 to 7 find every slot occupied: the victim's pages leave the
// slots, and the written page enters one.
fn carry_out(
    chip: &mut Chip<'_>,
    directory: &mut Directory,
    pspace: &mut [u8],
    bspace: &mut [u8],
    outlook: Outlook,
    n: PageNo,
    page: &[u8],
    ops: u32,
) -> Write
    requires { let u = buffers_of chip.old pspace.old bspace.old in
        Carries (sizes_of chip.old.sizes) (directory_of directory.old) u page.now (plan_of outlook.plan) outlook.mend }
    ensures loan { IsSameLoan chip.old chip.new }
    ensures carried { let u = buffers_of chip.old pspace.old bspace.old in
        let u' = buffers_of chip.new pspace.new bspace.new in
        CarriedOut (sizes_of chip.old.sizes) (directory_of directory.old) u n.0 page.now (plan_of outlook.plan) outlook.mends ops
        (write_of (Ok result)) (mends_of_write (Ok result)) (directory_of directory.new) u' }
{
    let z = chip.sizes;
    let mends = outlook.mends;
    match outlook.plan {
        Plan::SlotHit(i) => {
            put::over_slot(z, pspace, i, page);
            done(WriteWay::SlotHit, mends)
        }
        Plan::FrameHit(f) => {
            put::over_frame_page(z, bspace, f, n, page);
            numbers::used(z, directory, f, false);
            done(WriteWay::FrameHit, mends)
        }
        Plan::FreeSlot(i) => {
            put::over_slot(z, pspace, i, page);
            directory.slots[i] = n;
            done(WriteWay::FreeSlot, mends)
        }
        Plan::MakeRoom(Room::Join(v, f)) => {
            join::join(z, directory, pspace, bspace, v, f);
            put::enter(z, directory, pspace, f, false, n, page);
            done(WriteWay::Join, mends)
        }
        Plan::MakeRoom(Room::Fill(v, f)) => {
            join::join(z, directory, pspace, bspace, v, f);
            put::enter(z, directory, pspace, f, true, n, page);
            done(WriteWay::Fill, mends)
        }
        Plan::MakeRoom(Room::Exchange(v, f)) => {
            exchange::exchange(z, directory, pspace, bspace, v, f);
            put::enter(z, directory, pspace, f, true, n, page);
            done(WriteWay::Exchange, mends)
        }
        Plan::MakeRoom(Room::Evict(v, f)) => evict::evict(
            chip, directory, pspace, bspace, v, f, outlook, n, page, ops,
        ),
    }
}

// What a write answers that erases no block.
fn done(way: WriteWay, mends: u32) -> Write
    ensures { result ≡ Write.Done way mends }
{
    Write::Done { way, mends }
}

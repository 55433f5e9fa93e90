// What a write does.
ghost use Rattle.std.specs.Prelude.{◌≡◌};
ghost use Rattle.model.specs.Policy.{policy_choice, victim, eviction_plan, plan};
ghost use Rattle.cache.specs.View.{sizes_of, directory_of};
ghost use Rattle.policy.specs.Views.{plan_of, room_of, WithWear};

use crate::decision::{Plan, Room};
use crate::{lookup, victim};
use address::PageNo;
use cache::{Directory, Sizes};

// The plan of a write of page n. The wear is for the choice of way 7.
#[tactic(auto, unfolding(model::specs::Policy::plan, model::specs::Policy::in_slots))]
pub fn plan(z: Sizes, directory: &Directory, n: PageNo, wear: &[u32]) -> Plan
    requires { WithWear (sizes_of z) (directory_of directory.now) wear.now }
    ensures { plan_of result ≡ plan policy_choice (sizes_of z) (directory_of directory.now) wear.now n.0 }
{
    if let Some(i) = lookup::slot_of(z, directory, n) {
        return Plan::SlotHit(i);
    }
    if let Some(f) = lookup::frame_with(z, directory, n) {
        return Plan::FrameHit(f);
    }
    match lookup::free_slot(z, directory) {
        Some(i) => Plan::FreeSlot(i),
        None => Plan::MakeRoom(eviction_plan(z, directory, wear)),
    }
}

// Ways 4 to 7, for the victim.
#[tactic(auto, unfolding(model::specs::Policy::eviction_plan, crate::specs::Views::victim_of))]
pub fn eviction_plan(z: Sizes, directory: &Directory, wear: &[u32]) -> Room
    requires { WithWear (sizes_of z) (directory_of directory.now) wear.now }
    ensures { let d = directory_of directory.now in
        room_of result ≡ eviction_plan policy_choice (sizes_of z) d wear.now (victim (sizes_of z) d) }
{
    let v = victim::victim(z, directory);
    if let Some(own) = lookup::frame_of(z, directory, v.block) {
        return Room::Join(v.block, own);
    }
    if let Some(free) = lookup::free_frame(z, directory) {
        return Room::Fill(v.block, free);
    }
    let fewest = victim::fewest_valid(z, directory);
    if fewest < v.pages {
        let f = victim::exchange_frame(z, directory, fewest);
        return Room::Exchange(v.block, f);
    }
    let f = victim::evict_frame(z, directory, wear);
    Room::Evict(v.block, f)
}

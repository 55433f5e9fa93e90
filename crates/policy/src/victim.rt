// What leaves to make room: a block leaves the slots, a frame's pages leave the frame.
ghost use Rattle.std.specs.Prelude.{◌≡◌, eqb};
ghost use Rattle.model.specs.Policy.{valid_count, policy_choice, fewest_valid, evict_frame};
ghost use Rattle.cache.specs.View.{sizes_of, directory_of};
ghost use Rattle.policy.specs.Views.{victim_of, rank_of, SlotsOf, Cleared, ValidOf, UsesValid, UsesOccupied};

use crate::choice;
use crate::decision::Victim;
use address::BlockNo;
use cache::{Directory, Sizes, VACANT};

// The block with the most pages in slots, the lowest among equals; no pages where all slots are vacant.
pub fn victim(z: Sizes, directory: &Directory) -> Victim
    requires { SlotsOf (sizes_of z) (directory_of directory.now).slots }
    ensures { result ≡ victim_of (sizes_of z) (directory_of directory.now) }
{
    let lead = highest_rank(z, directory);
    let pages = (lead + 4095) >> 12;
    let block = pages * 4096 - lead;
    Victim {
        block: BlockNo(block),
        pages,
    }
}

// The victim's rank: a count times 4,096 less the block. A short table where it will do, since it is cleared for each eviction.
fn highest_rank(z: Sizes, directory: &Directory) -> u32
    requires { SlotsOf (sizes_of z) (directory_of directory.now).slots }
    ensures { result ≡ rank_of (victim_of (sizes_of z) (directory_of directory.now)) }
{
    if z.blocks <= 256 {
        let mut counts = [0u8; 256];
        return highest_counted(z, directory, &mut counts);
    }
    let mut counts = [0u8; 4096];
    highest_counted(z, directory, &mut counts)
}

// The same, where the pages of each block are counted in a table. A rank is one number, so that one comparison finds the leader.
#[tactic(auto, using(crate::proofs::Held::pages))]
fn highest_counted(z: Sizes, directory: &Directory, counts: &mut [u8]) -> u32
    requires { SlotsOf (sizes_of z) (directory_of directory.now).slots × Cleared (sizes_of z) counts.old }
    ensures { result ≡ rank_of (victim_of (sizes_of z) (directory_of directory.now)) }
{
    let m = address::range::reciprocal(z.pages_per_block);
    let mut lead: u32 = 0;
    for &n in &directory.slots[..z.slots as usize] {
        if n.0 < VACANT {
            let b = address::range::block_by(n, z.pages_per_block, m);
            let at = b.0 as usize;
            let pages = counts[at] + 1;
            counts[at] = pages;
            lead = lead.max(pages as u32 * 4096 - b.0);
        }
    }
    lead
}

// The fewest valid pages that a frame has.
#[tactic(auto, using(crate::proofs::Lowest::leasts, crate::proofs::Held::valids), unfolding(model::specs::Policy::fewest_valid))]
pub fn fewest_valid(z: Sizes, directory: &Directory) -> u32
    requires { ValidOf (sizes_of z) (directory_of directory.now).valid }
    ensures { result ≡ fewest_valid (sizes_of z) (directory_of directory.now) }
{
    let mut fewest = z.pages_per_block + 1;
    for &pages in &directory.valid[..z.frames as usize] {
        fewest = fewest.min(bitmap::count(pages));
    }
    fewest
}

// The frame that way 6 takes of those with v valid pages, of which there is one, by the record's policy.
#[tactic(auto, using(crate::proofs::Uses::choices))]
pub fn exchange_frame(z: Sizes, directory: &Directory, v: u32) -> usize
    requires { let d = directory_of directory.now in UsesValid (sizes_of z) d.valid d.recency d.uses v }
    ensures { let d = directory_of directory.now in
        result ≡ policy_choice (sizes_of z) d (λ f. eqb (valid_count (sizes_of z) d f) v) }
{
    choice::chosen(z, directory, choice::with_pages(z, directory, v))
}

// The frame that way 7 takes, by the record's policy: one whose block has wear below W; where every frame holds a worn block, one of all.
#[tactic(auto, using(crate::proofs::Uses::choices), unfolding(model::specs::Policy::evict_frame, model::specs::Policy::any_evictable))]
pub fn evict_frame(z: Sizes, directory: &Directory, wear: &[u32]) -> usize
    requires { let d = directory_of directory.now in UsesOccupied (sizes_of z) d.frames d.recency d.uses wear.now }
    ensures { result ≡ evict_frame policy_choice (sizes_of z) (directory_of directory.now) wear.now }
{
    let among = choice::unworn(z, directory, wear);
    if 0 < among {
        return choice::chosen(z, directory, among);
    }
    choice::chosen(z, directory, bitmap::first(z.frames))
}

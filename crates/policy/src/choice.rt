// Which of several open frames is taken, by the record's policy (request A5). The frames that a rule leaves open are a set,
// frame f as bit f.
ghost use Rattle.std.specs.Prelude.{◌≡◌, ◌&&◌, ◌<◌, eqb, ltb};
ghost use Rattle.prelude.specs.Scan.{first};
ghost use Rattle.prelude.specs.Bits.{bit, mask};
ghost use Rattle.model.specs.Sizes.{InLimits};
ghost use Rattle.model.specs.Directory.{recency_at, uses_at};
ghost use Rattle.model.specs.Policy.{valid_count, evictable, occupied, least_recent, fewest_uses, policy_choice};
ghost use Rattle.cache.specs.View.{sizes_of, directory_of};
ghost use Rattle.policy.specs.Views.{policy_number, ValidOf, UsesOccupied, OpenOf};

use cache::{Directory, Sizes, VACANT};

// The block policies.
#[derive(Clone, Copy, PartialEq, Eq, Debug)]
pub enum Policy {
    // The least recently used.
    Lru,
    // The least recently filled.
    Fifo,
    // The one with the fewest uses, among equals the least recent.
    Lfu,
}

impl Policy {
    // The policy of a record. Not `TryFrom`: by the limits there is no other number, and so no error to answer.
    pub fn of(z: Sizes) -> Policy
        requires { InLimits (sizes_of z) }
        ensures { policy_number result ≡ z.policy }
    {
        match z.policy {
            0 => Policy::Lru,
            1 => Policy::Fifo,
            2 => Policy::Lfu,
            _ => unreachable!(),
        }
    }
}

// Of the open frames, of which there is one, the one that the record's policy takes.
pub(crate) fn chosen(z: Sizes, directory: &Directory, among: u64) -> usize
    requires { OpenOf (sizes_of z) (directory_of directory.now) among }
    ensures { result ≡ policy_choice (sizes_of z) (directory_of directory.now) (bit among) }
{
    match Policy::of(z) {
        Policy::Lru | Policy::Fifo => least_recent(z, directory, among),
        Policy::Lfu => least_used(z, directory, among),
    }
}

// Of the open frames the least recent.
#[tactic(auto, unfolding(cache::specs::View::directory_of, model::specs::Policy::least_recent))]
fn least_recent(z: Sizes, directory: &Directory, among: u64) -> usize
    requires { OpenOf (sizes_of z) (directory_of directory.now) among }
    ensures { result ≡ least_recent (sizes_of z) (directory_of directory.now) (bit among) }
{
    let first = first_open(z, directory, among);
    directory.recency[first] as usize
}

// Of the open frames the one with the fewest uses, among equals the least recent. By index: it stands for a place in the order, and the
// uses for frames.
#[tactic(auto, unfolding(cache::specs::View::directory_of))]
fn least_used(z: Sizes, directory: &Directory, among: u64) -> usize
    requires { OpenOf (sizes_of z) (directory_of directory.now) among }
    ensures { let d = directory_of directory.now in
        result ≡ least_recent (sizes_of z) d (fewest_uses (sizes_of z) d (bit among)) }
{
    let mut best = first_open(z, directory, among);
    for i in best + 1..z.frames as usize {
        if fewer(directory, among, i, best) {
            best = i;
        }
    }
    directory.recency[best] as usize
}

// The first place in the order of use whose frame is open; there is one.
#[tactic(auto, unfolding(cache::specs::View::directory_of))]
fn first_open(z: Sizes, directory: &Directory, among: u64) -> usize
    requires { OpenOf (sizes_of z) (directory_of directory.now) among }
    ensures found { result ≡ first z.frames (λ i. bit among (recency_at (directory_of directory.now) i)) }
    ensures within { result < z.frames }
{
    for i in 0..z.frames as usize {
        if bitmap::has(among, directory.recency[i] as u32) {
            return i;
        }
    }
    unreachable!()
}

// Whether the frame at place i of the order is open and has fewer uses than the one at place best.
#[tactic(auto, unfolding(cache::specs::View::directory_of))]
fn fewer(directory: &Directory, among: u64, i: usize, best: usize) -> bool
    requires { let d = directory_of directory.now in
        (i < 8) × (best < 8) × (recency_at d i < 8) × (recency_at d best < 8) }
    ensures { let d = directory_of directory.now in
        let f = recency_at d i in
        let g = recency_at d best in
        result ≡ (bit among f && ltb (uses_at d f) (uses_at d g)) }
{
    let f = directory.recency[i] as usize;
    let g = directory.recency[best] as usize;
    bitmap::has(among, f as u32) & (directory.uses[f] < directory.uses[g])
}

// The frames with v valid pages. This loop and the next two are not one over a closure: no plainer, since each closure would need a
// contract that says what it answers.
#[tactic(auto, using(crate::proofs::Uses::sets), unfolding(cache::specs::View::directory_of))]
pub(crate) fn with_pages(z: Sizes, directory: &Directory, v: u32) -> u64
    requires { ValidOf (sizes_of z) (directory_of directory.now).valid }
    ensures { let d = directory_of directory.now in
        result ≡ mask z.frames (λ f. eqb (valid_count (sizes_of z) d f) v) }
{
    let mut among = 0;
    for f in 0..z.frames {
        if bitmap::count(directory.valid[f as usize]) == v {
            among = bitmap::with(among, f);
        }
    }
    among
}

// The frames whose block has wear below W.
#[tactic(auto, using(crate::proofs::Uses::sets), unfolding(model::specs::Policy::evictable, cache::specs::View::directory_of))]
pub(crate) fn unworn(z: Sizes, directory: &Directory, wear: &[u32]) -> u64
    requires { let d = directory_of directory.now in UsesOccupied (sizes_of z) d.frames d.recency d.uses wear.now }
    ensures { result ≡ mask z.frames (evictable (sizes_of z) (directory_of directory.now) wear.now) }
{
    let mut among = 0;
    for f in 0..z.frames {
        let b = directory.frames[f as usize].0;
        if wear[b as usize] < z.wear_limit {
            among = bitmap::with(among, f);
        }
    }
    among
}

// The occupied frames.
#[tactic(auto, using(crate::proofs::Uses::sets), unfolding(model::specs::Policy::occupied, cache::specs::View::directory_of))]
pub(crate) fn held(z: Sizes, directory: &Directory) -> u64
    requires { InLimits (sizes_of z) }
    ensures { result ≡ mask z.frames (occupied (directory_of directory.now)) }
{
    let mut among = 0;
    for f in 0..z.frames {
        if directory.frames[f as usize].0 < VACANT {
            among = bitmap::with(among, f);
        }
    }
    among
}

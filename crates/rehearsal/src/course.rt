// The turns of a class, one after the other.
ghost use Rattle.std.specs.Prelude.{◌≡◌, ◌≤◌, ◌<◌, length};
ghost use Rattle.cache.specs.View.{sizes_of};
ghost use Rattle.store.specs.View.{plain_lent, store_of};
ghost use Rattle.tally.specs.Count.{answer_of, May};
ghost use Rattle.rehearsal.specs.Class.{blank_class, seated_by, scene, scene_of, turned, rehearsed};
ghost use Rattle.rehearsal.specs.Ready.{Ready, Seated};

use crate::{Setting, serve};
use store::Cache;
use tally::{Answered, Tallies};

// The generator's state, each bench's last page, and the tallies.
#[derive(Clone, Copy, PartialEq, Eq, Debug)]
pub(crate) struct Class {
    pub state: u32,
    pub last: [u32; 16],
    pub tallies: Tallies,
}

// The class and the cache record after a turn.
#[derive(Clone, Copy, PartialEq, Eq, Debug)]
pub(crate) struct Seat {
    pub class: Class,
    pub cache: Cache,
}

// All turns of a rehearsal on an opened store.
pub(crate) fn run(
    z: Setting,
    k: Cache,
    flash: &mut [u8],
    wear: &mut [u32],
    pspace: &mut [u8],
    bspace: &mut [u8],
    page: &mut [u8],
) -> Seat
    requires { Ready z × ((sizes_of k.sizes).K ≤ 64) × (length page.old ≡ z.page_size) }
    ensures { let u = plain_lent flash.old wear.old pspace.old bspace.old in
        let u' = plain_lent flash.new wear.new pspace.new bspace.new in
        scene_of result u' ≡ rehearsed z z.turns (scene (blank_class z.state) (store_of k u)) }
{
    let mut class = blank(z.state);
    let mut cache = k;
    for t in 0..z.turns {
        cache = turn(z, &mut class, cache, flash, wear, pspace, bspace, page, t);
    }
    Seat { class, cache }
}

// Before the first turn.
#[tactic(auto, unfolding(crate::specs::Class::blank_class))]
fn blank(state: u32) -> Class
    ensures { result ≡ blank_class state }
{
    Class {
        state,
        last: [0; 16],
        tallies: tally::none(),
    }
}

// One turn: a call of bench t mod benches. The class is changed where it lies: handed back beside the record, it costs a copy more of both.
fn turn(
    z: Setting,
    class: &mut Class,
    cache: Cache,
    flash: &mut [u8],
    wear: &mut [u32],
    pspace: &mut [u8],
    bspace: &mut [u8],
    page: &mut [u8],
    t: u32,
) -> Cache
    requires { Ready z × Seated z class.old 1023 × ((sizes_of cache.sizes).K ≤ 64) × (length page.old ≡ z.page_size) }
    ensures { let u = plain_lent flash.old wear.old pspace.old bspace.old in
        let u' = plain_lent flash.new wear.new pspace.new bspace.new in
        scene class.new (store_of result u') ≡ turned z t (scene class.old (store_of cache u)) }
{
    let b = (t % z.benches) as usize;
    let u = turns::take(class.state, class.last[b], z.rates());
    let served = serve::serve(cache, flash, wear, pspace, bspace, page, u.call);
    *class = seated(*class, b, u.page, u.state, served.answered);
    served.cache
}

// The class after a turn: the page is bench b's last page, refused or not, and the answer is counted.
fn seated(c: Class, b: usize, page: u32, state: u32, a: Answered) -> Class
    requires { (b < 16) × May c.tallies (answer_of a) }
    ensures { result ≡ seated_by c b page state (answer_of a) }
{
    let mut next = c;
    next.state = state;
    next.last[b] = page;
    tally::bring_up_to_date(&mut next.tallies, a);
    next
}

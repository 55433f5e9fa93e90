// Rehearsing a class (request A13): benches served in turn by the plain LRU store, opened as the script program opens it. The store's
// buffers are lent one by one, as its calls take them.
#![tactic(auto)]

mod course; // course.rt: the turns of a class
mod serve; // serve.rt: a bench's call on the store

ghost use Rattle.std.specs.Prelude.{◌≡◌, true, ◌≤◌, length};
ghost use Rattle.cache.specs.View.{sizes_of};
ghost use Rattle.store.specs.View.{plain_lent};
ghost use Rattle.rehearsal.specs.Class.{store_sizes, rates_of, setting_ok, class_ok, begun, rehearsed, rehearsal_of};
ghost use Rattle.rehearsal.specs.Ready.{Ready, Roomy, Lengths};

use answer::{Opening, Refusal};
use cache::Sizes;
use perform::memory;
use store::Cache;
use tally::Tallies;
use turns::Rates;

// The settings of a rehearsal: the store's sizes and wear limit; 1 to 16 benches, 0 to 1,024 turns, the rates of writes and of runs, 0 to
// 256 each, and the generator's starting state.
#[repr(C)]
#[derive(Clone, Copy, PartialEq, Eq, Debug)]
pub struct Setting {
    pub page_size: u32,
    pub pages_per_block: u32,
    pub blocks: u32,
    pub slots: u32,
    pub frames: u32,
    pub wear_limit: u32,
    pub benches: u32,
    pub turns: u32,
    pub write_rate: u32,
    pub run_rate: u32,
    pub state: u32,
}

impl Setting {
    // The sizes of a plain store: LRU, and no option. Not `From`: a setting is more than its sizes.
    pub(crate) fn sizes(self) -> Sizes
        ensures { sizes_of result ≡ store_sizes self }
    {
        Sizes {
            page_size: self.page_size,
            pages_per_block: self.pages_per_block,
            blocks: self.blocks,
            slots: self.slots,
            frames: self.frames,
            wear_limit: self.wear_limit,
            policy: 0,
            coded: 0,
            shelf_pages: 0,
            marked: 0,
        }
    }

    // What a turn is made with.
    pub(crate) fn rates(self) -> Rates
        requires { Ready self }
        ensures { result ≡ rates_of self }
    {
        Rates {
            pages: self.blocks * self.pages_per_block,
            write: self.write_rate,
            run: self.run_rate,
        }
    }

    // Whether each setting is in its range, and no buffer needs more than 32,768 bytes.
    #[tactic(auto, unfolding(crate::specs::Class::setting_ok))]
    fn ok(self) -> bool
        ensures { result ≡ setting_ok self }
    {
        let sizes = self.sizes();
        sizes.ok() && script::buffers_fit(sizes) && self.class_ok()
    }

    // Whether the settings of the class are in their ranges.
    fn class_ok(self) -> bool
        ensures { result ≡ class_ok self }
    {
        (1 <= self.benches)
            & (self.benches <= 16)
            & (self.turns <= 1024)
            & (self.write_rate <= 256)
            & (self.run_rate <= 256)
    }
}

// What a rehearsal answers, and its tallies: all 0 where it is refused.
#[derive(Clone, Copy, PartialEq, Eq, Debug)]
pub struct Rehearsed {
    pub answer: Result<Opening, Refusal>,
    pub tallies: Tallies,
}

// Rehearses a class. A setting out of range is refused 1, and so are sizes with a buffer of over 32,768 bytes.
pub fn rehearse(z: Setting) -> Rehearsed
    ensures { result ≡ rehearsal_of z }
{
    if !z.ok() {
        return Rehearsed {
            answer: Err(Refusal::Size),
            tallies: tally::none(),
        };
    }
    let mut flash = [0u8; 32768];
    let mut wear = [0u32; 4096];
    let mut pspace = [0u8; 32768];
    let mut bspace = [0u8; 32768];
    let mut page = [0u8; 2048];
    let p = lengths(z);
    let tallies = held(
        z,
        &mut flash[..p.flash],
        &mut wear[..p.wear],
        &mut pspace[..p.pspace],
        &mut bspace[..p.bspace],
        &mut page[..p.page],
    );
    Rehearsed {
        answer: Ok(Opening { torn: 0 }),
        tallies,
    }
}

// The lengths of the store's buffers and of the page buffer. As interpret's: one for both would ask for bounds in a record of its own,
// which each would have to prove from what it has, and is no plainer.
#[derive(Clone, Copy, PartialEq, Eq, Debug)]
struct Parts {
    flash: usize,
    wear: usize,
    pspace: usize,
    bspace: usize,
    page: usize,
}

// The lengths that the sizes ask for, which are within the memory of a rehearsal.
fn lengths(z: Setting) -> Parts
    requires { Roomy (store_sizes z) }
    ensures within { (result.flash ≤ 32768) × (result.wear ≤ 4096) × (result.pspace ≤ 32768) × (result.bspace ≤ 32768)
        × (result.page ≤ 2048) }
    ensures asked { Lengths (store_sizes z) result.flash result.wear result.pspace result.bspace result.page }
{
    let s = z.page_size as usize;
    let k = z.pages_per_block as usize;
    let n = z.blocks as usize;
    let p = z.slots as usize;
    let b = z.frames as usize;
    Parts {
        flash: n * k * s,
        wear: n,
        pspace: p * s,
        bspace: b * k * s,
        page: s,
    }
}

// The tallies of a rehearsal on buffers of these lengths, which are filled as the script program fills them.
fn held(
    z: Setting,
    flash: &mut [u8],
    wear: &mut [u32],
    pspace: &mut [u8],
    bspace: &mut [u8],
    page: &mut [u8],
) -> Tallies
    requires accepted { setting_ok z ≡ true }
    requires lengths { Lengths (store_sizes z) (length flash.old) (length wear.old)
        (length pspace.old) (length bspace.old) (length page.old) }
    ensures { result ≡ (rehearsed z z.turns (begun z)).class.tallies }
{
    memory::fill(flash, 255);
    memory::fill(wear, 0);
    memory::fill(pspace, 0);
    memory::fill(bspace, 0);
    let opened = Cache::open(z.sizes(), flash, &[], &[], wear, pspace, bspace, &[]);
    course::run(z, opened.cache, flash, wear, pspace, bspace, page)
        .class
        .tallies
}

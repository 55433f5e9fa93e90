// The shelf of request A8: 8 entries, page numbers or VACANT, oldest first, and a page for each that is in use. Whether they fit, what a
// write puts there, and what taking back leaves.
#![tactic(auto)]

ghost use Rattle.std.specs.Prelude.{◌≡◌, true, not, cond, ◌*◌, ◌<◌, ltb, eqb, length, get_or, set};
ghost use Rattle.std.specs.Result.{is_ok};
ghost use Rattle.prelude.specs.Scan.{all};
ghost use Rattle.model.specs.Sizes.{vacant};
ghost use Rattle.model.specs.Shelf.{all_vacant, shelved, shelf_ok, shelf_fits};
ghost use Rattle.cache.specs.View.{sizes_of};
ghost use Rattle.shelf.specs.Shelf.{Room, Lowered, Shelved, Kept};

use address::PageNo;
use answer::Refusal;
use cache::{Sizes, VACANT};

// How many entries are in use: the first vacant one's index.
pub fn used(entries: &[u32; 8]) -> usize
    ensures { result ≡ shelved entries.now }
{
    for (i, e) in entries.iter().enumerate() {
        if *e == VACANT {
            return i;
        }
    }
    8
}

// Entries and a shelf of so many bytes are as the sizes ask, whatever those are.
pub fn fitting(z: Sizes, entries: &[u32; 8], long: usize) -> bool
    ensures { result ≡ shelf_fits (sizes_of z) z.shelf_pages entries.now long }
{
    let s = z.page_size as usize;
    let h = z.shelf_pages as usize;
    sound(z, entries) & (long == h * s)
}

// No more entries are in use than there are shelf pages, each has a page of the chip, and the rest are vacant.
pub fn sound(z: Sizes, entries: &[u32; 8]) -> bool
    ensures { result ≡ shelf_ok (sizes_of z) z.shelf_pages entries.now }
{
    if z.shelf_pages == 0 {
        return none_used(entries);
    }
    let k = used(entries);
    let each = run_ok(z, entries, k);
    (k <= z.shelf_pages as usize) & each
}

// No entry is in use. A `for` with no exit: `all` of 8 entries takes 1.6 times as long.
#[tactic(auto, using(prelude::proofs::Scan::all_none, prelude::proofs::Scan::all_more, prelude::proofs::Scan::all_end))]
fn none_used(entries: &[u32; 8]) -> bool
    ensures { result ≡ all_vacant entries.now }
{
    let mut ok = true;
    for e in entries {
        ok = ok & (*e == VACANT);
    }
    ok
}

// The first k entries have pages of the chip, the others are vacant.
#[tactic(auto, using(prelude::proofs::Scan::all_none, prelude::proofs::Scan::all_more, prelude::proofs::Scan::all_end))]
fn run_ok(z: Sizes, entries: &[u32; 8], k: usize) -> bool
    ensures { result ≡ all 8 (λ i. cond (ltb i k) (ltb (get_or entries.now i 0) (z.blocks * z.pages_per_block))
        (eqb (get_or entries.now i 0) vacant)) }
{
    let pages = u64::from(z.blocks) * u64::from(z.pages_per_block);
    let mut ok = true;
    for (i, e) in entries.iter().enumerate() {
        let one = entry_ok(*e, i < k, pages);
        ok = ok & one;
    }
    ok
}

// An entry in use has a page of the chip, any other is vacant.
fn entry_ok(e: u32, used: bool, pages: u64) -> bool
    ensures { result ≡ cond used (ltb e pages) (eqb e vacant) }
{
    if used {
        return u64::from(e) < pages;
    }
    e == VACANT
}

// After a write of page n: where it was accepted, whatever it answers, the page's earlier contents, the first of `earlier`, are shelved.
pub fn keep<T: Copy>(
    z: Sizes,
    entries: &mut [u32; 8],
    shelf: &mut [u8],
    answer: Result<T, Refusal>,
    n: PageNo,
    earlier: &[u8],
)
    requires { is_ok answer ≡ true → Room (sizes_of z) entries.old shelf.old earlier.now }
    ensures { Kept (sizes_of z) (not (is_ok answer)) entries.old shelf.old n.0 earlier.now
        entries.new shelf.new }
{
    if answer.is_ok() {
        put(z, entries, shelf, n, earlier);
    }
}

// After taking back: where it was accepted, whatever it answers, the latest entry is vacant.
pub fn drop_latest<T: Copy>(entries: &mut [u32; 8], latest: usize, answer: Result<T, Refusal>)
    requires { latest < 8 }
    ensures { entries.new ≡ cond (not (is_ok answer)) entries.old (set entries.old latest vacant) }
{
    if answer.is_ok() {
        entries[latest] = VACANT;
    }
}

// Page n joins the shelf: after the entries in use or, where all are, at the end, the oldest leaving: the others go down by one, and so do
// their pages.
fn put(z: Sizes, entries: &mut [u32; 8], shelf: &mut [u8], n: PageNo, earlier: &[u8])
    requires { Room (sizes_of z) entries.old shelf.old earlier.now }
    ensures { Shelved (sizes_of z) entries.old shelf.old n.0 earlier.now entries.new
        shelf.new }
{
    let s = z.page_size as usize;
    let h = z.shelf_pages as usize;
    let k = used(entries);
    if k < h {
        entries[k] = n.0;
        page::copy_page(shelf, k, earlier, 0, s);
        return;
    }
    let last = h - 1;
    entries.copy_within(1..h, 0);
    lower_pages(shelf, h, s);
    entries[last] = n.0;
    page::copy_page(shelf, last, earlier, 0, s);
}

// Each of the h pages but the first goes down by one. A copy a page: with `rotate_left` a write takes up to 1.3 times as long, and
// `copy_within` goes byte by byte.
fn lower_pages(shelf: &mut [u8], h: usize, s: usize)
    requires { length shelf.old ≡ h * s }
    ensures { Lowered s h shelf.old shelf.new }
{
    for i in 1..h {
        let (low, high) = shelf.split_at_mut(i * s);
        page::copy_page(low, i - 1, high, 0, s);
    }
}

// Which pages runs have, as whole numbers without wrap-around.
ghost use Rattle.std.specs.Prelude.{◌≡◌, ◌+◌, ◌<◌, true, length};
ghost use Rattle.runs.specs.Ranges as runs;
ghost use Rattle.sheets.specs.View.{fields_of, sheets_of};

use crate::{Sheet, table};

// Whether the n pages from a on and the m pages from b on have a page in common.
#[tactic(auto, unfolding(runs::specs::Ranges::overlaps, prelude::specs::Tests::every))]
fn overlaps(a: u32, n: u32, b: u32, m: u32) -> bool
    ensures { result ≡ runs.overlaps a n b m }
{
    let past_a = u64::from(a) + u64::from(n);
    let past_b = u64::from(b) + u64::from(m);
    (0 < n) & (0 < m) & (u64::from(a) < past_b) & (u64::from(b) < past_a)
}

// Whether the run on sheet i, if it counts, has one of the n pages from f on.
#[tactic(auto, unfolding(runs::specs::Ranges::claims))]
fn claims(t: &[Sheet], f: u32, n: u32, i: usize) -> bool
    requires { i < length t.now }
    ensures { result ≡ runs.claims (sheets_of t.now) f n i }
{
    let s = t[i];
    overlaps(f, n, s.first, s.count) && table::counts(t, i)
}

// Whether a run has one of the n pages from f on. By index: whether a sheet counts depends on those before it.
#[tactic(auto, unfolding(runs::specs::Ranges::taken))]
fn taken(t: &[Sheet], f: u32, n: u32) -> bool
    ensures { result ≡ runs.taken (length t.now) (sheets_of t.now) f n }
{
    for i in 0..t.len() {
        if claims(t, f, n, i) {
            return true;
        }
    }
    false
}

// Whether a run to be added may have the n pages from f on.
#[tactic(auto, unfolding(runs::specs::Ranges::range_ok, prelude::specs::Tests::every))]
pub fn range_ok(t: &[Sheet], pages: u32, f: u32, n: u32) -> bool
    ensures { result ≡ runs.range_ok (length t.now) (sheets_of t.now) pages f n }
{
    let low = t.len() as u64;
    let end = u64::from(f) + u64::from(n);
    (0 < n) & (low <= u64::from(f)) & (end <= u64::from(pages)) & !taken(t, f, n)
}

// Whether page x of the run on a sheet may be read, in a catalogue of c sheets: it is one of so many pages then.
#[tactic(auto, unfolding(runs::specs::Ranges::index_ok, prelude::specs::Tests::every))]
pub fn index_ok(c: usize, pages: u32, s: Sheet, x: u32) -> bool
    ensures is { result ≡ runs.index_ok c pages (fields_of s) x }
    ensures within { result ≡ true → s.first + x < pages }
{
    let n = u64::from(s.first) + u64::from(x);
    (x < s.count) & (c as u64 <= n) & (n < u64::from(pages))
}

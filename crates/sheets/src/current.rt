// What replaces a run, and the current run.
ghost use Rattle.std.specs.Prelude.{◌≡◌, ◌<◌, length};
ghost use Rattle.runs.specs.Current as runs;
ghost use Rattle.sheets.specs.View.{sheets_of};

use crate::{Sheet, table};

// Whether sheet i replaces a run: it names it, the run is below its own, and the sheet counts. The test that nearly every sheet fails is
// made first: it is all that a walk over the sheets costs then.
#[tactic(auto, unfolding(runs::specs::Current::replaces, prelude::specs::Tests::every))]
fn replaces(t: &[Sheet], run: u32, i: usize) -> bool
    requires { i < length t.now }
    ensures { result ≡ runs.replaces (sheets_of t.now) run i }
{
    let s = t[i];
    s.replaces == run && 0 < run && run < s.run && table::counts(t, i)
}

// The highest run that replaces a run. 0 where none does, as a sheet's own field says that it replaces none. By index: whether a sheet
// counts depends on those before it.
#[tactic(auto, using(crate::proofs::Reading::run_is), unfolding(runs::specs::Current::replacer, prelude::specs::Scan::greatest))]
pub fn replacer(t: &[Sheet], run: u32) -> u32
    ensures { result ≡ runs.replacer (length t.now) (sheets_of t.now) run }
{
    let mut best = 0;
    for i in 0..t.len() {
        if replaces(t, run, i) {
            best = t[i].run.max(best);
        }
    }
    best
}

// Whether a run is replaced.
pub(crate) fn is_replaced(t: &[Sheet], run: u32) -> bool
    ensures { result ≡ runs.replaced (length t.now) (sheets_of t.now) run }
{
    0 < replacer(t, run)
}

// The current run of a run: upward by at most one replacement fewer than there are sheets.
pub fn current(t: &[Sheet], run: u32) -> u32
    ensures { result ≡ runs.current (length t.now) (sheets_of t.now) run }
{
    let mut at = run;
    for _step in 1..t.len() {
        let next = replacer(t, at);
        if next == 0 {
            return at;
        }
        at = next;
    }
    at
}

// The sheets of a catalogue, searched.
ghost use Rattle.std.specs.Prelude.{◌≡◌, ◌<◌, length, IfSome};
ghost use Rattle.std.specs.Option.{unwrap_or};
ghost use Rattle.runs.specs.Runs as runs;
ghost use Rattle.sheets.specs.View.{sheets_of};

use crate::Sheet;

// Whether sheet i counts: it is not empty, and no sheet before it has its run number.
#[tactic(auto, using(crate::proofs::Reading::reading))]
pub fn counts(t: &[Sheet], i: usize) -> bool
    requires { i < length t.now }
    ensures { result ≡ runs.counts (sheets_of t.now) i }
{
    let s = t[i];
    if s.is_empty() {
        return false;
    }
    for before in &t[..i] {
        if before.run == s.run {
            return false;
        }
    }
    true
}

// The sheet of a run: of equal run numbers the first.
#[tactic(auto, using(crate::proofs::Reading::reading), unfolding(runs::specs::Runs::find))]
pub fn find(t: &[Sheet], run: u32) -> Option<usize>
    ensures is { unwrap_or result (length t.now) ≡ runs.find (length t.now) (sheets_of t.now) run }
    ensures within { IfSome result (λ i. i < length t.now) }
{
    for (i, s) in t.iter().enumerate() {
        if !s.is_empty() & (s.run == run) {
            return Some(i);
        }
    }
    None
}

// The first empty sheet.
#[tactic(auto, using(crate::proofs::Reading::reading), unfolding(runs::specs::Runs::first_empty))]
pub fn first_empty(t: &[Sheet]) -> Option<usize>
    ensures is { unwrap_or result (length t.now) ≡ runs.first_empty (length t.now) (sheets_of t.now) }
    ensures within { IfSome result (λ i. i < length t.now) }
{
    for (i, s) in t.iter().enumerate() {
        if s.is_empty() {
            return Some(i);
        }
    }
    None
}

// The largest run number in use, 0 where there is none, as no sheet in use has it. A number is left after it.
#[tactic(auto, using(crate::proofs::Reading::reading), unfolding(runs::specs::Runs::largest, prelude::specs::Scan::greatest))]
pub fn largest(t: &[Sheet]) -> u32
    ensures { (result ≡ runs.largest (length t.now) (sheets_of t.now)) × (result < 4294967295) }
{
    let mut best = 0;
    for s in t {
        if !s.is_empty() {
            best = best.max(s.run);
        }
    }
    best
}

// The sheet at a position among those that count. By index: whether a sheet counts depends on those before it.
#[tactic(auto, using(crate::proofs::Reading::counting), unfolding(runs::specs::Runs::position, prelude::specs::Scan::nth))]
pub fn position(t: &[Sheet], n: u32) -> Option<usize>
    ensures is { unwrap_or result (length t.now) ≡ runs.position (length t.now) (sheets_of t.now) n }
    ensures within { IfSome result (λ i. i < length t.now) }
{
    let mut seen = 0;
    for i in 0..t.len() {
        if counts(t, i) {
            if seen == n as usize {
                return Some(i);
            }
            seen += 1;
        }
    }
    None
}

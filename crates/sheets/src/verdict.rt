// What a table of sheets decides of an operation, refusals in their order.
ghost use Rattle.std.specs.Prelude.{◌≡◌, ◌<◌, true, false, ltb, length, MatchResult};
ghost use Rattle.runs.specs.Runs.{full, find, first_empty};
ghost use Rattle.runs.specs.Verdict as runs;
ghost use Rattle.sheets.specs.View.{fields_of, sheets_of, caller_of, operation_of, verdict_of};

use crate::roles::{Caller, NewRun, Operation};
use crate::{Sheet, UNMARKED, current, ranges, roles, table};

// Why a catalogue turns a call down. 1 and 12 are found before a table is made.
#[derive(Clone, Copy, PartialEq, Eq, Debug)]
pub enum Cause {
    // 1: pages of fewer than 28 bytes, or a number of sheets out of its range
    Size,
    // 9: no empty sheet, or no number left
    Full,
    // 10: no such run
    Unknown,
    // 11: a count, range, overlap or index beyond the rule, a page out of range, or a mark above 100
    Pages,
    // 12: the grid says no
    Role,
    // 13: the run is already replaced
    Replaced,
}

// What becomes of an operation that the sheets let through.
#[derive(Clone, Copy, PartialEq, Eq, Debug)]
pub enum Verdict {
    // a look answers the sheet as the caller sees it, and the current run
    Show { sheet: Sheet, current: u32 },
    // a listing answers the run
    Tell(u32),
    // a read reads this page
    Fetch(u32),
    // add, replace and mark write this sheet on this page
    Put { at: usize, sheet: Sheet },
}

// The sheet of a run. Error: 10.
fn known(t: &[Sheet], run: u32) -> Result<usize, Cause>
    ensures { let i = find (length t.now) (sheets_of t.now) run in
        MatchResult result (λ at. (at ≡ i) × (at < length t.now)) (λ why. (why ≡ Cause.Unknown) × (i ≡ length t.now)) }
{
    table::find(t, run).ok_or(Cause::Unknown)
}

// The sheet that a run to be added goes on, where there is a number for it. Error: 9.
#[tactic(auto, unfolding(runs::specs::Runs::full))]
fn free(t: &[Sheet]) -> Result<usize, Cause>
    ensures { let s = sheets_of t.now in
        let b = full (length t.now) s in
        MatchResult result (λ at. (at ≡ first_empty (length t.now) s) × (b ≡ false)) (λ why. (why ≡ Cause.Full) × (b ≡ true)) }
{
    if 4294967294 <= table::largest(t) {
        return Err(Cause::Full);
    }
    table::first_empty(t).ok_or(Cause::Full)
}

// The sheet of a run to be added: the largest number in use plus 1, unmarked.
#[tactic(auto, unfolding(runs::specs::Verdict::new_sheet))]
fn new_sheet(t: &[Sheet], w: Caller, replaces: u32, new: NewRun) -> Sheet
    ensures { fields_of result
        ≡ runs.new_sheet (length t.now) (sheets_of t.now) (caller_of w) replaces new.sample new.first new.count }
{
    Sheet {
        run: table::largest(t) + 1,
        trainee: w.number,
        sample: new.sample,
        first: new.first,
        count: new.count,
        mark: UNMARKED,
        replaces,
    }
}

// 11 of the new sheet's pages, then it goes on the first empty sheet.
#[tactic(auto, unfolding(runs::specs::Verdict::placing, runs::specs::Verdict::unless))]
fn place(t: &[Sheet], pages: u32, at: usize, sheet: Sheet) -> Result<Verdict, Cause>
    requires { at ≡ first_empty (length t.now) (sheets_of t.now) }
    ensures { verdict_of result ≡ runs.placing (length t.now) (sheets_of t.now) pages (fields_of sheet) }
{
    if !ranges::range_ok(t, pages, sheet.first, sheet.count) {
        return Err(Cause::Pages);
    }
    Ok(Verdict::Put { at, sheet })
}

// Adding a run: 9, 11.
#[tactic(auto, unfolding(runs::specs::Verdict::adding, runs::specs::Verdict::unless))]
fn add(t: &[Sheet], pages: u32, w: Caller, new: NewRun) -> Result<Verdict, Cause>
    ensures { verdict_of result
        ≡ runs.adding (length t.now) (sheets_of t.now) pages (caller_of w) new.sample new.first new.count }
{
    let at = free(t)?;
    let sheet = new_sheet(t, w, 0, new);
    place(t, pages, at, sheet)
}

// Looking at a run's sheet: 10.
#[tactic(auto, using(crate::proofs::Reading::sheet_is), unfolding(runs::specs::Verdict::looking, runs::specs::Verdict::unless))]
fn look(t: &[Sheet], w: Caller, run: u32) -> Result<Verdict, Cause>
    ensures { verdict_of result ≡ runs.looking (length t.now) (sheets_of t.now) (caller_of w) run }
{
    let i = known(t, run)?;
    let sheet = roles::mask(w, t[i]);
    let current = current::current(t, run);
    Ok(Verdict::Show { sheet, current })
}

// The run at a position: 10 past the last.
#[tactic(auto, using(crate::proofs::Reading::run_is), unfolding(runs::specs::Verdict::listing, runs::specs::Verdict::unless))]
fn list(t: &[Sheet], n: u32) -> Result<Verdict, Cause>
    ensures { verdict_of result ≡ runs.listing (length t.now) (sheets_of t.now) n }
{
    let i = table::position(t, n).ok_or(Cause::Unknown)?;
    Ok(Verdict::Tell(t[i].run))
}

// Reading a page by its index in the run: 10, 11.
#[tactic(auto, using(crate::proofs::Reading::sheet_is), unfolding(runs::specs::Verdict::reading, runs::specs::Verdict::unless))]
fn read(t: &[Sheet], pages: u32, run: u32, index: u32) -> Result<Verdict, Cause>
    ensures { verdict_of result ≡ runs.reading (length t.now) (sheets_of t.now) pages run index }
{
    let i = known(t, run)?;
    let s = t[i];
    if !ranges::index_ok(t.len(), pages, s, index) {
        return Err(Cause::Pages);
    }
    Ok(Verdict::Fetch(s.first + index))
}

// Adding a run that replaces another: 9, 10, 13, 11.
#[tactic(auto, unfolding(runs::specs::Verdict::replacing, runs::specs::Verdict::unless))]
fn replace(t: &[Sheet], pages: u32, w: Caller, run: u32, new: NewRun) -> Result<Verdict, Cause>
    ensures { verdict_of result
        ≡ runs.replacing (length t.now) (sheets_of t.now) pages (caller_of w) run new.sample new.first new.count }
{
    let at = free(t)?;
    known(t, run)?;
    if current::is_replaced(t, run) {
        return Err(Cause::Replaced);
    }
    let sheet = new_sheet(t, w, run, new);
    place(t, pages, at, sheet)
}

// Marking a run: 10, 13, 11.
#[tactic(auto, using(crate::proofs::Reading::sheet_is), unfolding(runs::specs::Verdict::marking, runs::specs::Verdict::unless))]
fn mark(t: &[Sheet], run: u32, mark: u32) -> Result<Verdict, Cause>
    ensures { verdict_of result ≡ runs.marking (length t.now) (sheets_of t.now) run mark }
{
    let at = known(t, run)?;
    if current::is_replaced(t, run) {
        return Err(Cause::Replaced);
    }
    if 100 < mark {
        return Err(Cause::Pages);
    }
    let sheet = Sheet { mark, ..t[at] };
    Ok(Verdict::Put { at, sheet })
}

// What the sheets of a table, over so many pages, decide of an operation. Errors: 9, 10, 11, 13.
#[tactic(auto, unfolding(runs::specs::Verdict::verdict))]
pub fn decide(t: &[Sheet], pages: u32, w: Caller, op: Operation) -> Result<Verdict, Cause>
    ensures { verdict_of result
        ≡ runs.verdict (length t.now) pages (sheets_of t.now) (caller_of w) (operation_of op) }
{
    match op {
        Operation::Add(new) => add(t, pages, w, new),
        Operation::Look(run) => look(t, w, run),
        Operation::List(n) => list(t, n),
        Operation::Read { run, index } => read(t, pages, run, index),
        Operation::Replace { run, by } => replace(t, pages, w, run, by),
        Operation::Mark { run, mark } => self::mark(t, run, mark),
    }
}

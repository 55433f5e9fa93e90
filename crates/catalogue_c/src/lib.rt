// The catalogue of runs for C and Rust programs: the record and the answers cross by value, a slice as its pointer and its length. Each
// call is lent the buffers one by one, the role is a number, and the answer is in numbers, since include/clash_runs.h has them so.
#![tactic(auto)]

ghost use Rattle.std.specs.Prelude.{◌≡◌};
ghost use Rattle.model.specs.Sizes.{vacant};
ghost use Rattle.replies.specs.Numbers.{accepted};
ghost use Rattle.runs.specs.Roles as roles;
ghost use Rattle.sheets.specs.View.{cause_of};
ghost use Rattle.store.specs.View.{lent};
ghost use Rattle.callers.specs.Callers.{called_by};
ghost use Rattle.catalogue_c.specs.Numbers.{plain_run, reply_of, numbered};

use answer::{Read, Refusal};
use cache::VACANT;
use callers::caller;
use catalogue::{Shown, Told, Turned, Wrote, look, read, write};
use replies::Answer;
use sheets::Sheet;
use sheets::verdict::Cause;
use store::Cache;

// A sheet, as C has it.
#[repr(C)]
#[derive(Clone, Copy, PartialEq, Eq, Debug)]
pub struct RunSheet {
    pub run: u32,
    pub trainee: u32,
    pub sample: u32,
    pub first: u32,
    pub count: u32,
    pub mark: u32,
    pub replaces: u32,
}

// What a call answers: as the store's calls do, with refusals 9 to 13 too; the run that was listed, or that was to be written; of a look
// the sheet as the caller sees it, and the current run. What a call does not answer is 0.
#[repr(C)]
#[derive(Clone, Copy, PartialEq, Eq, Debug)]
pub struct RunAnswer {
    pub answer: Answer,
    pub run: u32,
    pub current: u32,
    pub sheet: RunSheet,
}

// The record after a call, and the call's answer.
#[repr(C)]
#[derive(Clone, Copy, PartialEq, Eq, Debug)]
pub struct RunReply {
    pub cache: Cache,
    pub answer: RunAnswer,
}

impl From<Sheet> for RunSheet {
    ghost use Rattle.std.specs.Prelude.{◌≡◌};
    ghost use Rattle.sheets.specs.View.{fields_of};
    ghost use Rattle.catalogue_c.specs.Numbers.{sheet_numbers};

    ghost from_gives = { λ s r. r ≡ sheet_numbers (fields_of s) };

    fn from(s: Sheet) -> RunSheet {
        RunSheet {
            run: s.run,
            trainee: s.trainee,
            sample: s.sample,
            first: s.first,
            count: s.count,
            mark: s.mark,
            replaces: s.replaces,
        }
    }
}

// An answer with a run, and nothing more.
fn plain(answer: Answer, run: u32) -> RunAnswer
    ensures { result ≡ plain_run answer run }
{
    RunAnswer {
        answer,
        run,
        current: 0,
        sheet: RunSheet {
            run: 0,
            trainee: 0,
            sample: 0,
            first: 0,
            count: 0,
            mark: 0,
            replaces: 0,
        },
    }
}

// The papers' number of a refusal of the catalogue. Not `From`, which would have to stand in sheets, below all that is C's.
fn number(why: Cause) -> u32
    ensures { result ≡ cause_of why }
{
    match why {
        Cause::Size => 1,
        Cause::Full => 9,
        Cause::Unknown => 10,
        Cause::Pages => 11,
        Cause::Role => 12,
        Cause::Replaced => 13,
    }
}

// An accepted call that is no call of the store.
fn done(mended: u32) -> Answer
    ensures { result ≡ accepted 0 vacant 0 0 mended 0 }
{
    Answer {
        refusal: 0,
        way: 0,
        block: VACANT,
        rewrites: 0,
        merged: 0,
        mended,
        torn: 0,
    }
}

impl From<Turned> for RunAnswer {
    ghost use Rattle.std.specs.Prelude.{◌≡◌};
    ghost use Rattle.over.specs.Catalogue.{down};
    ghost use Rattle.catalogue.specs.View.{turned_of};
    ghost use Rattle.catalogue_c.specs.Numbers.{run_numbers};

    ghost from_gives = { λ why r. r ≡ run_numbers (down (turned_of why)) 0 };

    fn from(why: Turned) -> RunAnswer {
        match why {
            Turned::Denied(cause) => plain(
                Answer {
                    refusal: number(cause),
                    ..done(0)
                },
                0,
            ),
            Turned::Stopped(refusal) => plain(Answer::from(refusal), 0),
        }
    }
}

impl From<Result<Shown, Turned>> for RunAnswer {
    ghost use Rattle.std.specs.Prelude.{◌≡◌};
    ghost use Rattle.catalogue.specs.View.{look_says, look_mends};
    ghost use Rattle.catalogue_c.specs.Numbers.{run_numbers};

    ghost from_gives = { λ a r. r ≡ run_numbers (look_says a) (look_mends a) };

    // Of a look.
    fn from(a: Result<Shown, Turned>) -> RunAnswer {
        match a {
            Ok(seen) => RunAnswer {
                answer: done(seen.mends),
                run: seen.sheet.run,
                current: seen.current,
                sheet: RunSheet::from(seen.sheet),
            },
            Err(why) => RunAnswer::from(why),
        }
    }
}

impl From<Result<Told, Turned>> for RunAnswer {
    ghost use Rattle.std.specs.Prelude.{◌≡◌};
    ghost use Rattle.catalogue.specs.View.{list_says, list_mends};
    ghost use Rattle.catalogue_c.specs.Numbers.{run_numbers};

    ghost from_gives = { λ a r. r ≡ run_numbers (list_says a) (list_mends a) };

    // Of a listing.
    fn from(a: Result<Told, Turned>) -> RunAnswer {
        match a {
            Ok(told) => plain(done(told.mends), told.run),
            Err(why) => RunAnswer::from(why),
        }
    }
}

impl From<Result<Result<Read, Refusal>, Turned>> for RunAnswer {
    ghost use Rattle.std.specs.Prelude.{◌≡◌};
    ghost use Rattle.catalogue.specs.View.{fetch_says, fetch_mends};
    ghost use Rattle.catalogue_c.specs.Numbers.{run_numbers};

    ghost from_gives = { λ a r. r ≡ run_numbers (fetch_says a) (fetch_mends a) };

    // Of a read.
    fn from(a: Result<Result<Read, Refusal>, Turned>) -> RunAnswer {
        match a {
            Ok(said) => plain(Answer::from(said), 0),
            Err(why) => RunAnswer::from(why),
        }
    }
}

impl From<Result<Wrote, Turned>> for RunAnswer {
    ghost use Rattle.std.specs.Prelude.{◌≡◌};
    ghost use Rattle.catalogue.specs.View.{write_says, write_mends};
    ghost use Rattle.catalogue_c.specs.Numbers.{run_numbers};

    ghost from_gives = { λ a r. r ≡ run_numbers (write_says a) (write_mends a) };

    // Of adding, replacing and marking.
    fn from(a: Result<Wrote, Turned>) -> RunAnswer {
        match a {
            Ok(wrote) => plain(Answer::from(wrote.answer), wrote.run),
            Err(why) => RunAnswer::from(why),
        }
    }
}

// The sheet of a run as the caller sees it, and the current run.
#[unsafe(no_mangle)]
pub extern "C" fn clash_run_look(
    c: Cache,
    flash: &[u8],
    codes: &[u8],
    marks: &[u8],
    wear: &[u32],
    pspace: &[u8],
    bspace: &[u8],
    shelf: &[u8],
    sheets: u32,
    role: u32,
    trainee: u32,
    run: u32,
    page: &mut [u8],
) -> RunReply
    ensures { let u = lent flash.now codes.now marks.now
        wear.now pspace.now bspace.now shelf.now in
        reply_of result u page.new ≡ numbered (called_by c u sheets role trainee (roles.look run) page.old) }
{
    if 2 < role {
        let answer = RunAnswer::from(Turned::Denied(Cause::Role));
        return RunReply { cache: c, answer };
    }
    let w = caller(role, trainee);
    let out = look::look(
        c, flash, codes, marks, wear, pspace, bspace, shelf, sheets, w, run, page,
    );
    let answer = RunAnswer::from(out);
    RunReply { cache: c, answer }
}

// The run at a position, from 0 in sheet order.
#[unsafe(no_mangle)]
pub extern "C" fn clash_run_list(
    c: Cache,
    flash: &[u8],
    codes: &[u8],
    marks: &[u8],
    wear: &[u32],
    pspace: &[u8],
    bspace: &[u8],
    shelf: &[u8],
    sheets: u32,
    role: u32,
    trainee: u32,
    position: u32,
    page: &mut [u8],
) -> RunReply
    ensures { let u = lent flash.now codes.now marks.now
        wear.now pspace.now bspace.now shelf.now in
        reply_of result u page.new ≡ numbered (called_by c u sheets role trainee (roles.list position) page.old) }
{
    if 2 < role {
        let answer = RunAnswer::from(Turned::Denied(Cause::Role));
        return RunReply { cache: c, answer };
    }
    let w = caller(role, trainee);
    let out = look::list(
        c, flash, codes, marks, wear, pspace, bspace, shelf, sheets, w, position, page,
    );
    let answer = RunAnswer::from(out);
    RunReply { cache: c, answer }
}

// Reads a page of a run, by its index.
#[unsafe(no_mangle)]
pub extern "C" fn clash_run_read(
    c: Cache,
    flash: &[u8],
    codes: &[u8],
    marks: &[u8],
    wear: &[u32],
    pspace: &[u8],
    bspace: &[u8],
    shelf: &[u8],
    sheets: u32,
    role: u32,
    trainee: u32,
    run: u32,
    index: u32,
    page: &mut [u8],
) -> RunReply
    ensures { let u = lent flash.now codes.now marks.now
        wear.now pspace.now bspace.now shelf.now in
        reply_of result u page.new ≡ numbered (called_by c u sheets role trainee (roles.read run index) page.old) }
{
    if 2 < role {
        let answer = RunAnswer::from(Turned::Denied(Cause::Role));
        return RunReply { cache: c, answer };
    }
    let w = caller(role, trainee);
    let out = read::read(
        c, flash, codes, marks, wear, pspace, bspace, shelf, sheets, w, run, index, page,
    );
    let answer = RunAnswer::from(out.answer);
    RunReply {
        cache: out.cache,
        answer,
    }
}

// Adds a run of `count` pages from page `first` on.
#[unsafe(no_mangle)]
pub extern "C" fn clash_run_add(
    c: Cache,
    flash: &mut [u8],
    codes: &mut [u8],
    marks: &mut [u8],
    wear: &mut [u32],
    pspace: &mut [u8],
    bspace: &mut [u8],
    shelf: &mut [u8],
    sheets: u32,
    role: u32,
    trainee: u32,
    sample: u32,
    first: u32,
    count: u32,
    page: &mut [u8],
) -> RunReply
    ensures { let u = lent flash.old codes.old marks.old
        wear.old pspace.old bspace.old shelf.old in
        let u' = lent flash.new codes.new marks.new
        wear.new pspace.new bspace.new shelf.new in
        reply_of result u' page.new ≡ numbered (called_by c u sheets role trainee (roles.add sample first count) page.old) }
{
    if 2 < role {
        let answer = RunAnswer::from(Turned::Denied(Cause::Role));
        return RunReply { cache: c, answer };
    }
    let w = caller(role, trainee);
    let out = write::add(
        c, flash, codes, marks, wear, pspace, bspace, shelf, sheets, w, sample, first, count, page,
    );
    let answer = RunAnswer::from(out.answer);
    RunReply {
        cache: out.cache,
        answer,
    }
}

// Adds a run that replaces another.
#[unsafe(no_mangle)]
pub extern "C" fn clash_run_replace(
    c: Cache,
    flash: &mut [u8],
    codes: &mut [u8],
    marks: &mut [u8],
    wear: &mut [u32],
    pspace: &mut [u8],
    bspace: &mut [u8],
    shelf: &mut [u8],
    sheets: u32,
    role: u32,
    trainee: u32,
    run: u32,
    sample: u32,
    first: u32,
    count: u32,
    page: &mut [u8],
) -> RunReply
    ensures { let u = lent flash.old codes.old marks.old
        wear.old pspace.old bspace.old shelf.old in
        let u' = lent flash.new codes.new marks.new
        wear.new pspace.new bspace.new shelf.new in
        reply_of result u' page.new ≡ numbered (called_by c u sheets role trainee (roles.replace run sample first count) page.old) }
{
    if 2 < role {
        let answer = RunAnswer::from(Turned::Denied(Cause::Role));
        return RunReply { cache: c, answer };
    }
    let w = caller(role, trainee);
    let out = write::replace(
        c, flash, codes, marks, wear, pspace, bspace, shelf, sheets, w, run, sample, first, count,
        page,
    );
    let answer = RunAnswer::from(out.answer);
    RunReply {
        cache: out.cache,
        answer,
    }
}

// Marks a run: 0 to 100.
#[unsafe(no_mangle)]
pub extern "C" fn clash_run_mark(
    c: Cache,
    flash: &mut [u8],
    codes: &mut [u8],
    marks: &mut [u8],
    wear: &mut [u32],
    pspace: &mut [u8],
    bspace: &mut [u8],
    shelf: &mut [u8],
    sheets: u32,
    role: u32,
    trainee: u32,
    run: u32,
    grade: u32,
    page: &mut [u8],
) -> RunReply
    ensures { let u = lent flash.old codes.old marks.old
        wear.old pspace.old bspace.old shelf.old in
        let u' = lent flash.new codes.new marks.new
        wear.new pspace.new bspace.new shelf.new in
        reply_of result u' page.new ≡ numbered (called_by c u sheets role trainee (roles.mark run grade) page.old) }
{
    if 2 < role {
        let answer = RunAnswer::from(Turned::Denied(Cause::Role));
        return RunReply { cache: c, answer };
    }
    let w = caller(role, trainee);
    let out = write::mark(
        c, flash, codes, marks, wear, pspace, bspace, shelf, sheets, w, run, grade, page,
    );
    let answer = RunAnswer::from(out.answer);
    RunReply {
        cache: out.cache,
        answer,
    }
}

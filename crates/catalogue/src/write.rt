// Adding, replacing and marking a run: each writes one sheet.
ghost use Rattle.std.specs.Prelude.{◌≡◌, cond, length};
ghost use Rattle.model.specs.Calls.{is_refused};
ghost use Rattle.runs.specs.Roles as roles;
ghost use Rattle.runs.specs.Verdict as verdicts;
ghost use Rattle.answer.specs.Numbers.{write_of};
ghost use Rattle.store.specs.View.{lent, store_of};
ghost use Rattle.cache.specs.View.{sizes_of};
ghost use Rattle.sheets.specs.View.{fields_of, operation_of};
ghost use Rattle.catalogue.specs.View.{write_says, write_mends, out_with, called, stepped, lent_to};
ghost use Rattle.lent.specs.Loan.{IsSameLent};
ghost use Rattle.catalogue.specs.Kinds.{PutKind, Putting, Settled, skipped};

use crate::{WriteOut, Wrote, judge, mends};
use address::PageNo;
use answer::{Refusal, Write};
use cache::{Sizes, VACANT};
use lent::Lent;
use sheets::roles::{Caller, NewRun, Operation};
use sheets::{Sheet, bytes};
use store::Cache;

// Adds a run of `count` pages from page `first` on.
pub fn add(
    cache: Cache,
    flash: &mut [u8],
    codes: &mut [u8],
    marks: &mut [u8],
    wear: &mut [u32],
    pspace: &mut [u8],
    bspace: &mut [u8],
    shelf: &mut [u8],
    sheets: u32,
    caller: Caller,
    sample: u32,
    first: u32,
    count: u32,
    page: &mut [u8],
) -> WriteOut
    ensures { let u = lent flash.old codes.old marks.old
        wear.old pspace.old bspace.old shelf.old in
        let u' = lent flash.new codes.new marks.new
        wear.new pspace.new bspace.new shelf.new in
        out_with (write_says result.answer) (write_mends result.answer) (store_of result.cache u') page.new
        ≡ called cache u sheets caller (roles.add sample first count) page.old }
{
    let mut lent = Lent {
        flash,
        codes,
        marks,
        wear,
        bspace,
    };
    let op = Operation::Add(NewRun {
        sample,
        first,
        count,
    });
    written(cache, &mut lent, pspace, shelf, sheets, caller, op, page)
}

// Adds a run that replaces another.
pub fn replace(
    cache: Cache,
    flash: &mut [u8],
    codes: &mut [u8],
    marks: &mut [u8],
    wear: &mut [u32],
    pspace: &mut [u8],
    bspace: &mut [u8],
    shelf: &mut [u8],
    sheets: u32,
    caller: Caller,
    run: u32,
    sample: u32,
    first: u32,
    count: u32,
    page: &mut [u8],
) -> WriteOut
    ensures { let u = lent flash.old codes.old marks.old
        wear.old pspace.old bspace.old shelf.old in
        let u' = lent flash.new codes.new marks.new
        wear.new pspace.new bspace.new shelf.new in
        out_with (write_says result.answer) (write_mends result.answer) (store_of result.cache u') page.new
        ≡ called cache u sheets caller (roles.replace run sample first count) page.old }
{
    let mut lent = Lent {
        flash,
        codes,
        marks,
        wear,
        bspace,
    };
    let op = Operation::Replace {
        run,
        by: NewRun {
            sample,
            first,
            count,
        },
    };
    written(cache, &mut lent, pspace, shelf, sheets, caller, op, page)
}

// Marks a run: 0 to 100.
pub fn mark(
    cache: Cache,
    flash: &mut [u8],
    codes: &mut [u8],
    marks: &mut [u8],
    wear: &mut [u32],
    pspace: &mut [u8],
    bspace: &mut [u8],
    shelf: &mut [u8],
    sheets: u32,
    caller: Caller,
    run: u32,
    grade: u32,
    page: &mut [u8],
) -> WriteOut
    ensures { let u = lent flash.old codes.old marks.old
        wear.old pspace.old bspace.old shelf.old in
        let u' = lent flash.new codes.new marks.new
        wear.new pspace.new bspace.new shelf.new in
        out_with (write_says result.answer) (write_mends result.answer) (store_of result.cache u') page.new
        ≡ called cache u sheets caller (roles.mark run grade) page.old }
{
    let mut lent = Lent {
        flash,
        codes,
        marks,
        wear,
        bspace,
    };
    let op = Operation::Mark { run, mark: grade };
    written(cache, &mut lent, pspace, shelf, sheets, caller, op, page)
}

// An operation that writes a sheet.
fn written(
    cache: Cache,
    lent: &mut Lent<'_>,
    pspace: &mut [u8],
    shelf: &mut [u8],
    sheets: u32,
    caller: Caller,
    op: Operation,
    page: &mut [u8],
) -> WriteOut
    requires { Putting (operation_of op) }
    ensures loan { IsSameLent lent.old lent.new }
    ensures called { let u = lent_to lent.old pspace.old shelf.old in
        let u' = lent_to lent.new pspace.new shelf.new in
        out_with (write_says result.answer) (write_mends result.answer) (store_of result.cache u') page.new
        ≡ called cache u sheets caller (operation_of op) page.old }
{
    let mut m = [0u32; 256];
    match judge::put(
        cache,
        lent.view(pspace),
        shelf,
        sheets,
        caller,
        op,
        page,
        &mut m,
    ) {
        Ok((n, sheet)) => put_apart(cache, lent, pspace, shelf, sheets, n, sheet, page, &m),
        Err(why) => WriteOut {
            cache,
            answer: Err(why),
        },
    }
}

// Lends the write a page of its own for the sheet, since a refused one leaves the page buffer alone.
fn put_apart(
    cache: Cache,
    lent: &mut Lent<'_>,
    pspace: &mut [u8],
    shelf: &mut [u8],
    sheets: u32,
    n: PageNo,
    sheet: Sheet,
    page: &mut [u8],
    m: &[u32; 256],
) -> WriteOut
    requires { let s = store_of cache (lent_to lent.old pspace.old shelf.old) in
        PutKind sheets (verdicts.put n.0 (fields_of sheet)) × Settled s sheets page.old m.now }
    ensures loan { IsSameLent lent.old lent.new }
    ensures stepped { let u = lent_to lent.old pspace.old shelf.old in
        let u' = lent_to lent.new pspace.new shelf.new in
        out_with (write_says result.answer) (write_mends result.answer) (store_of result.cache u') page.new
        ≡ stepped cache u sheets page.old (verdicts.put n.0 (fields_of sheet)) }
{
    let s = cache.sizes.page_size as usize;
    let mut whole = [0u8; 2048];
    put_sheet(
        cache,
        lent,
        pspace,
        shelf,
        sheets,
        n,
        sheet,
        page,
        m,
        &mut whole[..s],
    )
}

// Lays the sheet in `whole`, writes it, and hands it back.
fn put_sheet(
    cache: Cache,
    lent: &mut Lent<'_>,
    pspace: &mut [u8],
    shelf: &mut [u8],
    sheets: u32,
    n: PageNo,
    sheet: Sheet,
    page: &mut [u8],
    m: &[u32; 256],
    whole: &mut [u8],
) -> WriteOut
    requires { let s = store_of cache (lent_to lent.old pspace.old shelf.old) in
        PutKind sheets (verdicts.put n.0 (fields_of sheet)) × (Settled s sheets page.old m.now
        × (length whole.old ≡ (sizes_of cache.sizes).S)) }
    ensures loan { IsSameLent lent.old lent.new }
    ensures stepped { let u = lent_to lent.old pspace.old shelf.old in
        let u' = lent_to lent.new pspace.new shelf.new in
        out_with (write_says result.answer) (write_mends result.answer) (store_of result.cache u') page.new
        ≡ stepped cache u sheets page.old (verdicts.put n.0 (fields_of sheet)) }
{
    bytes::encode(whole, sheet);
    let z = cache.sizes;
    let out = cache.write(
        &mut *lent.flash,
        &mut *lent.codes,
        &mut *lent.marks,
        &mut *lent.wear,
        pspace,
        &mut *lent.bspace,
        shelf,
        n,
        whole,
    );
    deliver(out.answer, page, whole);
    let at = shelving(z, n);
    let answer = mends::with_write(out.answer, m, sheets, z.pages_per_block, at);
    WriteOut {
        cache: out.cache,
        answer: Ok(Wrote {
            run: sheet.run,
            answer,
        }),
    }
}

// The page that a write of page n shelves, which it reads then: VACANT in a store without shelf pages. A number, since `mends::left` takes
// it beside the numbers of pages.
#[tactic(auto, unfolding(crate::specs::Kinds::skipped))]
fn shelving(z: Sizes, n: PageNo) -> u32
    ensures { result ≡ skipped (sizes_of z) n.0 }
{
    if z.shelf_pages == 0 { VACANT } else { n.0 }
}

// The page buffer gets the page that was written, and stays as it is where the write was refused.
fn deliver(answer: Result<Write, Refusal>, page: &mut [u8], whole: &[u8])
    requires { length page.old ≡ length whole.now }
    ensures { page.new ≡ cond (is_refused (write_of answer)) page.old whole.now }
{
    if answer.is_ok() {
        page.copy_from_slice(whole);
    }
}

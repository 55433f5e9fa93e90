// Adding, replacing and marking a run, cut off after so many operations of the chip (request A12), for tests of what a power loss leaves:
// the same checks and the same sheets decide, and the write of the sheet is cut off. The record is lost, and the blank one comes back.
ghost use Rattle.std.specs.Prelude.{◌≡◌, ◌≤◌, length};
ghost use Rattle.model.specs.Calls.{write};
ghost use Rattle.model.specs.Shelf.{plainly};
ghost use Rattle.answer.specs.Carried.{buffers};
ghost use Rattle.runs.specs.Roles as roles;
ghost use Rattle.runs.specs.Sheet.{page_of};
ghost use Rattle.lent.specs.Loan.{IsSameLent, buffers_of};
ghost use Rattle.store.specs.View.{lent};
ghost use Rattle.store.specs.PowerLoss.{CutContract};
ghost use Rattle.sheets.specs.View.{fields_of, operation_of};
ghost use Rattle.catalogue.specs.View.{lent_to};
ghost use Rattle.catalogue.specs.Kinds.{Putting};
ghost use Rattle.catalogue.specs.PowerLoss.{CutEntry};

use crate::judge;
use address::PageNo;
use lent::Lent;
use sheets::roles::{Caller, NewRun, Operation};
use sheets::{Sheet, bytes};
use store::Cache;

// Adding a run.
pub fn cut_add(
    cache: Cache,
    flash: &mut [u8],
    codes: &mut [u8],
    marks: &mut [u8],
    wear: &mut [u32],
    pspace: &mut [u8],
    bspace: &mut [u8],
    shelf: &mut [u8],
    sheets: u32,
    caller: Caller,
    sample: u32,
    first: u32,
    count: u32,
    page: &mut [u8],
    ops: u32,
) -> Cache
    ensures { let u = lent flash.old codes.old marks.old
        wear.old pspace.old bspace.old shelf.old in
        let u' = buffers flash.new codes.new marks.new
        wear.new pspace.new bspace.new in
        CutEntry cache u sheets caller (roles.add sample first count) page.old ops result u' }
{
    let mut lent = Lent {
        flash,
        codes,
        marks,
        wear,
        bspace,
    };
    let op = Operation::Add(NewRun {
        sample,
        first,
        count,
    });
    put_off(
        cache, &mut lent, pspace, shelf, sheets, caller, op, page, ops,
    )
}

// Adding a run that replaces another.
pub fn cut_replace(
    cache: Cache,
    flash: &mut [u8],
    codes: &mut [u8],
    marks: &mut [u8],
    wear: &mut [u32],
    pspace: &mut [u8],
    bspace: &mut [u8],
    shelf: &mut [u8],
    sheets: u32,
    caller: Caller,
    run: u32,
    sample: u32,
    first: u32,
    count: u32,
    page: &mut [u8],
    ops: u32,
) -> Cache
    ensures { let u = lent flash.old codes.old marks.old
        wear.old pspace.old bspace.old shelf.old in
        let u' = buffers flash.new codes.new marks.new
        wear.new pspace.new bspace.new in
        CutEntry cache u sheets caller (roles.replace run sample first count) page.old ops result u' }
{
    let mut lent = Lent {
        flash,
        codes,
        marks,
        wear,
        bspace,
    };
    let op = Operation::Replace {
        run,
        by: NewRun {
            sample,
            first,
            count,
        },
    };
    put_off(
        cache, &mut lent, pspace, shelf, sheets, caller, op, page, ops,
    )
}

// Marking a run.
pub fn cut_mark(
    cache: Cache,
    flash: &mut [u8],
    codes: &mut [u8],
    marks: &mut [u8],
    wear: &mut [u32],
    pspace: &mut [u8],
    bspace: &mut [u8],
    shelf: &mut [u8],
    sheets: u32,
    caller: Caller,
    run: u32,
    grade: u32,
    page: &mut [u8],
    ops: u32,
) -> Cache
    ensures { let u = lent flash.old codes.old marks.old
        wear.old pspace.old bspace.old shelf.old in
        let u' = buffers flash.new codes.new marks.new
        wear.new pspace.new bspace.new in
        CutEntry cache u sheets caller (roles.mark run grade) page.old ops result u' }
{
    let mut lent = Lent {
        flash,
        codes,
        marks,
        wear,
        bspace,
    };
    let op = Operation::Mark { run, mark: grade };
    put_off(
        cache, &mut lent, pspace, shelf, sheets, caller, op, page, ops,
    )
}

// An operation that writes a sheet.
fn put_off(
    cache: Cache,
    lent: &mut Lent<'_>,
    pspace: &mut [u8],
    shelf: &mut [u8],
    sheets: u32,
    caller: Caller,
    op: Operation,
    page: &mut [u8],
    ops: u32,
) -> Cache
    requires { Putting (operation_of op) }
    ensures loan { IsSameLent lent.old lent.new }
    ensures cut { CutEntry cache (lent_to lent.old pspace.old shelf.old) sheets caller (operation_of op) page.old ops result
        (buffers_of lent.new pspace.new) }
{
    let mut m = [0u32; 256];
    match judge::put(
        cache,
        lent.view(pspace),
        shelf,
        sheets,
        caller,
        op,
        page,
        &mut m,
    ) {
        Ok((n, sheet)) => put_apart(cache, lent, pspace, shelf, n, sheet, ops),
        Err(_) => Cache::blank(),
    }
}

// Lends the write a page of its own for the sheet.
fn put_apart(
    cache: Cache,
    lent: &mut Lent<'_>,
    pspace: &mut [u8],
    shelf: &mut [u8],
    n: PageNo,
    sheet: Sheet,
    ops: u32,
) -> Cache
    requires { cache.sizes.page_size ≤ 2048 }
    ensures loan { IsSameLent lent.old lent.new }
    ensures cut { CutContract cache (lent_to lent.old pspace.old shelf.old) ops
        (plainly (write n.0 (page_of cache.sizes.page_size (fields_of sheet)))) result (buffers_of lent.new pspace.new) }
{
    let s = cache.sizes.page_size as usize;
    let mut whole = [0u8; 2048];
    put_sheet(cache, lent, pspace, shelf, n, sheet, &mut whole[..s], ops)
}

// Lays the sheet in `whole`, and writes it.
fn put_sheet(
    cache: Cache,
    lent: &mut Lent<'_>,
    pspace: &mut [u8],
    shelf: &mut [u8],
    n: PageNo,
    sheet: Sheet,
    whole: &mut [u8],
    ops: u32,
) -> Cache
    requires { length whole.old ≡ cache.sizes.page_size }
    ensures loan { IsSameLent lent.old lent.new }
    ensures cut { CutContract cache (lent_to lent.old pspace.old shelf.old) ops
        (plainly (write n.0 (page_of cache.sizes.page_size (fields_of sheet)))) result (buffers_of lent.new pspace.new) }
{
    bytes::encode(whole, sheet);
    cache.cut_write(
        &mut *lent.flash,
        &mut *lent.codes,
        &mut *lent.marks,
        &mut *lent.wear,
        pspace,
        &mut *lent.bspace,
        shelf,
        n,
        whole,
        ops,
    )
}

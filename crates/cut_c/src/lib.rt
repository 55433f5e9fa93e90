// Calls that are cut off after so many operations of the chip (request A12), for C and Rust programs that test what a power loss leaves:
// those of the store, and those of a catalogue of runs. Each hands back the blank record. Each is lent the buffers one by one, as the call
// is that it cuts off, since include/clash_cut.h has them so.
#![tactic(auto)]

ghost use Rattle.model.specs.Calls as calls;
ghost use Rattle.model.specs.Shelf as model;
ghost use Rattle.model.specs.Shelf.{plainly};
ghost use Rattle.answer.specs.Carried.{buffers};
ghost use Rattle.runs.specs.Roles as roles;
ghost use Rattle.store.specs.View.{lent};
ghost use Rattle.store.specs.PowerLoss.{CutContract};
ghost use Rattle.catalogue.specs.PowerLoss.{CutAs};
ghost use Rattle.callers.specs.Callers.{called_by};

use address::PageNo;
use catalogue::cut;
use store::Cache;

// Writing a page.
#[unsafe(no_mangle)]
pub extern "C" fn clash_cut_write(
    c: Cache,
    flash: &mut [u8],
    codes: &mut [u8],
    marks: &mut [u8],
    wear: &mut [u32],
    pspace: &mut [u8],
    bspace: &mut [u8],
    shelf: &mut [u8],
    n: u32,
    page: &[u8],
    ops: u32,
) -> Cache
    ensures { let u = lent flash.old codes.old marks.old
        wear.old pspace.old bspace.old shelf.old in
        let u' = buffers flash.new codes.new marks.new
        wear.new pspace.new bspace.new in
        CutContract c u ops (plainly (calls.write n page.now)) result u' }
{
    c.cut_write(
        flash,
        codes,
        marks,
        wear,
        pspace,
        bspace,
        shelf,
        PageNo(n),
        page,
        ops,
    )
}

// Writing part of a page.
#[unsafe(no_mangle)]
pub extern "C" fn clash_cut_part(
    c: Cache,
    flash: &mut [u8],
    codes: &mut [u8],
    marks: &mut [u8],
    wear: &mut [u32],
    pspace: &mut [u8],
    bspace: &mut [u8],
    shelf: &mut [u8],
    n: u32,
    first: u32,
    bytes: &[u8],
    page: &mut [u8],
    ops: u32,
) -> Cache
    ensures { let u = lent flash.old codes.old marks.old
        wear.old pspace.old bspace.old shelf.old in
        let u' = buffers flash.new codes.new marks.new
        wear.new pspace.new bspace.new in
        CutContract c u ops (plainly (calls.part n first bytes.now page.old)) result u' }
{
    c.cut_part(
        flash,
        codes,
        marks,
        wear,
        pspace,
        bspace,
        shelf,
        PageNo(n),
        first,
        bytes,
        page,
        ops,
    )
}

// Taking a write back.
#[unsafe(no_mangle)]
pub extern "C" fn clash_cut_take_back(
    c: Cache,
    flash: &mut [u8],
    codes: &mut [u8],
    marks: &mut [u8],
    wear: &mut [u32],
    pspace: &mut [u8],
    bspace: &mut [u8],
    shelf: &[u8],
    ops: u32,
) -> Cache
    ensures { let u = lent flash.old codes.old marks.old
        wear.old pspace.old bspace.old shelf.now in
        let u' = buffers flash.new codes.new marks.new
        wear.new pspace.new bspace.new in
        CutContract c u ops model.back result u' }
{
    c.cut_take_back(flash, codes, marks, wear, pspace, bspace, shelf, ops)
}

// A flush step.
#[unsafe(no_mangle)]
pub extern "C" fn clash_cut_step(
    c: Cache,
    flash: &mut [u8],
    codes: &mut [u8],
    marks: &mut [u8],
    wear: &mut [u32],
    pspace: &[u8],
    bspace: &mut [u8],
    shelf: &[u8],
    ops: u32,
) -> Cache
    ensures { let u = lent flash.old codes.old marks.old
        wear.old pspace.now bspace.old shelf.now in
        let u' = buffers flash.new codes.new marks.new
        wear.new pspace.now bspace.new in
        CutContract c u ops (plainly calls.step) result u' }
{
    c.cut_step(flash, codes, marks, wear, pspace, bspace, shelf, ops)
}

// A flush.
#[unsafe(no_mangle)]
pub extern "C" fn clash_cut_flush(
    c: Cache,
    flash: &mut [u8],
    codes: &mut [u8],
    marks: &mut [u8],
    wear: &mut [u32],
    pspace: &[u8],
    bspace: &mut [u8],
    shelf: &[u8],
    ops: u32,
) -> Cache
    ensures { let u = lent flash.old codes.old marks.old
        wear.old pspace.now bspace.old shelf.now in
        let u' = buffers flash.new codes.new marks.new
        wear.new pspace.now bspace.new in
        CutContract c u ops (plainly calls.flush) result u' }
{
    c.cut_flush(flash, codes, marks, wear, pspace, bspace, shelf, ops)
}

// Adding a run.
#[unsafe(no_mangle)]
pub extern "C" fn clash_cut_run_add(
    c: Cache,
    flash: &mut [u8],
    codes: &mut [u8],
    marks: &mut [u8],
    wear: &mut [u32],
    pspace: &mut [u8],
    bspace: &mut [u8],
    shelf: &mut [u8],
    sheets: u32,
    role: u32,
    trainee: u32,
    sample: u32,
    first: u32,
    count: u32,
    page: &mut [u8],
    ops: u32,
) -> Cache
    ensures { let u = lent flash.old codes.old marks.old
        wear.old pspace.old bspace.old shelf.old in
        let u' = buffers flash.new codes.new marks.new
        wear.new pspace.new bspace.new in
        CutAs c u (called_by c u sheets role trainee (roles.add sample first count) page.old) ops result u' }
{
    if 2 < role {
        return Cache::blank();
    }
    let w = callers::caller(role, trainee);
    cut::cut_add(
        c, flash, codes, marks, wear, pspace, bspace, shelf, sheets, w, sample, first, count, page,
        ops,
    )
}

// Adding a run that replaces another.
#[unsafe(no_mangle)]
pub extern "C" fn clash_cut_run_replace(
    c: Cache,
    flash: &mut [u8],
    codes: &mut [u8],
    marks: &mut [u8],
    wear: &mut [u32],
    pspace: &mut [u8],
    bspace: &mut [u8],
    shelf: &mut [u8],
    sheets: u32,
    role: u32,
    trainee: u32,
    run: u32,
    sample: u32,
    first: u32,
    count: u32,
    page: &mut [u8],
    ops: u32,
) -> Cache
    ensures { let u = lent flash.old codes.old marks.old
        wear.old pspace.old bspace.old shelf.old in
        let u' = buffers flash.new codes.new marks.new
        wear.new pspace.new bspace.new in
        CutAs c u (called_by c u sheets role trainee (roles.replace run sample first count) page.old) ops result u' }
{
    if 2 < role {
        return Cache::blank();
    }
    let w = callers::caller(role, trainee);
    cut::cut_replace(
        c, flash, codes, marks, wear, pspace, bspace, shelf, sheets, w, run, sample, first, count,
        page, ops,
    )
}

// Marking a run.
#[unsafe(no_mangle)]
pub extern "C" fn clash_cut_run_mark(
    c: Cache,
    flash: &mut [u8],
    codes: &mut [u8],
    marks: &mut [u8],
    wear: &mut [u32],
    pspace: &mut [u8],
    bspace: &mut [u8],
    shelf: &mut [u8],
    sheets: u32,
    role: u32,
    trainee: u32,
    run: u32,
    grade: u32,
    page: &mut [u8],
    ops: u32,
) -> Cache
    ensures { let u = lent flash.old codes.old marks.old
        wear.old pspace.old bspace.old shelf.old in
        let u' = buffers flash.new codes.new marks.new
        wear.new pspace.new bspace.new in
        CutAs c u (called_by c u sheets role trainee (roles.mark run grade) page.old) ops result u' }
{
    if 2 < role {
        return Cache::blank();
    }
    let w = callers::caller(role, trainee);
    cut::cut_mark(
        c, flash, codes, marks, wear, pspace, bspace, shelf, sheets, w, run, grade, page, ops,
    )
}

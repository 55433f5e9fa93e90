// The store for C and Rust programs: the record and the answers cross by value, a slice as its pointer and its length. Each call is lent
// the buffers one by one, and its answer is in numbers, since include/clash.h has them so.
#![tactic(auto)]

mod figures; // figures.rt: the report of the wear

ghost use Rattle.std.specs.Prelude.{◌≡◌};
ghost use Rattle.answer.specs.Carried.{buffers};
ghost use Rattle.store.specs.View.{lent};
ghost use Rattle.clash_c.specs.Histories.{with_options, Contract, OpeningContract};
ghost use Rattle.clash_c.specs.Histories as made;

use address::PageNo;
use cache::Sizes;
use replies::Answer;
use store::Cache;

// The record after a call, and the call's answer.
#[repr(C)]
#[derive(Clone, Copy, PartialEq, Eq, Debug)]
pub struct Reply {
    pub cache: Cache,
    pub answer: Answer,
}

// The sizes and the wear limit of an opening.
#[repr(C)]
#[derive(Clone, Copy, PartialEq, Eq, Debug)]
pub struct PlainSizes {
    pub page_size: u32,
    pub pages_per_block: u32,
    pub blocks: u32,
    pub slots: u32,
    pub frames: u32,
    pub wear_limit: u32,
}

// The options of an opening: policy, codes, shelf pages, marks. Numbers and no enums, since C may hand any number in.
#[repr(C)]
#[derive(Clone, Copy, PartialEq, Eq, Debug)]
pub struct Options {
    pub policy: u32,
    pub coded: u32,
    pub shelf_pages: u32,
    pub marked: u32,
}

// Sizes and options, as a record keeps them. Not `From`, which takes one value: C hands the two in one by one.
fn with_options(s: PlainSizes, o: Options) -> Sizes
    ensures { result ≡ with_options s o }
{
    Sizes {
        page_size: s.page_size,
        pages_per_block: s.pages_per_block,
        blocks: s.blocks,
        slots: s.slots,
        frames: s.frames,
        wear_limit: s.wear_limit,
        policy: o.policy,
        coded: o.coded,
        shelf_pages: o.shelf_pages,
        marked: o.marked,
    }
}

// Opens a store.
#[unsafe(no_mangle)]
pub extern "C" fn clash_open(
    sizes: PlainSizes,
    options: Options,
    flash: &[u8],
    codes: &[u8],
    marks: &[u8],
    wear: &[u32],
    pspace: &[u8],
    bspace: &[u8],
    shelf: &[u8],
) -> Reply
    ensures { let u = lent flash.now codes.now marks.now
        wear.now pspace.now bspace.now shelf.now in
        OpeningContract (with_options sizes options) u result }
{
    let z = with_options(sizes, options);
    let o = Cache::open(z, flash, codes, marks, wear, pspace, bspace, shelf);
    Reply {
        cache: o.cache,
        answer: Answer::from(o.answer),
    }
}

// Reads page n.
#[unsafe(no_mangle)]
pub extern "C" fn clash_read(
    c: Cache,
    flash: &[u8],
    codes: &[u8],
    marks: &[u8],
    wear: &[u32],
    pspace: &[u8],
    bspace: &[u8],
    shelf: &[u8],
    n: u32,
    page: &mut [u8],
) -> Reply
    ensures { let u = lent flash.now codes.now marks.now
        wear.now pspace.now bspace.now shelf.now in
        Contract c u (made.read n page.old result page.new) }
{
    let o = c.read(
        flash,
        codes,
        marks,
        wear,
        pspace,
        bspace,
        shelf,
        PageNo(n),
        page,
    );
    Reply {
        cache: o.cache,
        answer: Answer::from(o.answer),
    }
}

// Writes page n.
#[unsafe(no_mangle)]
pub extern "C" fn clash_write(
    c: Cache,
    flash: &mut [u8],
    codes: &mut [u8],
    marks: &mut [u8],
    wear: &mut [u32],
    pspace: &mut [u8],
    bspace: &mut [u8],
    shelf: &mut [u8],
    n: u32,
    page: &[u8],
) -> Reply
    ensures { let u = lent flash.old codes.old marks.old
        wear.old pspace.old bspace.old shelf.old in
        let u' = lent flash.new codes.new marks.new
        wear.new pspace.new bspace.new shelf.new in
        Contract c u (made.write n page.now result u') }
{
    let o = c.write(
        flash,
        codes,
        marks,
        wear,
        pspace,
        bspace,
        shelf,
        PageNo(n),
        page,
    );
    Reply {
        cache: o.cache,
        answer: Answer::from(o.answer),
    }
}

// Writes page n with the bytes laid in from byte `first` on.
#[unsafe(no_mangle)]
pub extern "C" fn clash_part(
    c: Cache,
    flash: &mut [u8],
    codes: &mut [u8],
    marks: &mut [u8],
    wear: &mut [u32],
    pspace: &mut [u8],
    bspace: &mut [u8],
    shelf: &mut [u8],
    n: u32,
    first: u32,
    bytes: &[u8],
    page: &mut [u8],
) -> Reply
    ensures { let u = lent flash.old codes.old marks.old
        wear.old pspace.old bspace.old shelf.old in
        let u' = lent flash.new codes.new marks.new
        wear.new pspace.new bspace.new shelf.new in
        Contract c u (made.part n first bytes.now page.old result u' page.new) }
{
    let o = c.write_part(
        flash,
        codes,
        marks,
        wear,
        pspace,
        bspace,
        shelf,
        PageNo(n),
        first,
        bytes,
        page,
    );
    Reply {
        cache: o.cache,
        answer: Answer::from(o.answer),
    }
}

// Takes the latest write back that is on the shelf.
#[unsafe(no_mangle)]
pub extern "C" fn clash_take_back(
    c: Cache,
    flash: &mut [u8],
    codes: &mut [u8],
    marks: &mut [u8],
    wear: &mut [u32],
    pspace: &mut [u8],
    bspace: &mut [u8],
    shelf: &[u8],
) -> Reply
    ensures { let u = lent flash.old codes.old marks.old
        wear.old pspace.old bspace.old shelf.now in
        Contract c u (made.back result (buffers flash.new codes.new marks.new wear.new
        pspace.new bspace.new)) }
{
    let o = c.take_back(flash, codes, marks, wear, pspace, bspace, shelf);
    Reply {
        cache: o.cache,
        answer: Answer::from(o.answer),
    }
}

// Rewrites one block that has pages cached.
#[unsafe(no_mangle)]
pub extern "C" fn clash_step(
    c: Cache,
    flash: &mut [u8],
    codes: &mut [u8],
    marks: &mut [u8],
    wear: &mut [u32],
    pspace: &[u8],
    bspace: &mut [u8],
    shelf: &[u8],
) -> Reply
    ensures { let u = lent flash.old codes.old marks.old
        wear.old pspace.now bspace.old shelf.now in
        Contract c u (made.step result
        flash.new codes.new marks.new wear.new bspace.new) }
{
    let o = c.flush_step(flash, codes, marks, wear, pspace, bspace, shelf);
    Reply {
        cache: o.cache,
        answer: Answer::from(o.answer),
    }
}

// Rewrites every block that has pages cached.
#[unsafe(no_mangle)]
pub extern "C" fn clash_flush(
    c: Cache,
    flash: &mut [u8],
    codes: &mut [u8],
    marks: &mut [u8],
    wear: &mut [u32],
    pspace: &[u8],
    bspace: &mut [u8],
    shelf: &[u8],
) -> Reply
    ensures { let u = lent flash.old codes.old marks.old
        wear.old pspace.now bspace.old shelf.now in
        Contract c u (made.flush result
        flash.new codes.new marks.new wear.new bspace.new) }
{
    let o = c.flush(flash, codes, marks, wear, pspace, bspace, shelf);
    Reply {
        cache: o.cache,
        answer: Answer::from(o.answer),
    }
}

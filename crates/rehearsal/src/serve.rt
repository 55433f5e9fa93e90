// A bench's call on the store's buffers, which a store without options has: no codes, no marks, no shelf.
ghost use Rattle.std.specs.Prelude.{◌≡◌, length};
ghost use Rattle.store.specs.View.{plain_lent, store_of};
ghost use Rattle.turns.specs.declared.Call.TheVariants as asks;
ghost use Rattle.rehearsal.specs.Class.{served, gave_of};

use address::PageNo;
use perform::memory;
use store::Cache;
use tally::Answered;
use turns::Call;

// The record after a bench's call, and what the call was answered.
#[derive(Clone, Copy, PartialEq, Eq, Debug)]
pub(crate) struct Served {
    pub cache: Cache,
    pub answered: Answered,
}

// A bench's call.
pub(crate) fn serve(
    c: Cache,
    flash: &mut [u8],
    wear: &mut [u32],
    pspace: &mut [u8],
    bspace: &mut [u8],
    page: &mut [u8],
    call: Call,
) -> Served
    ensures { let u = plain_lent flash.old wear.old pspace.old bspace.old in
        let u' = plain_lent flash.new wear.new pspace.new bspace.new in
        gave_of result u' ≡ served (length page.old) (store_of c u) call }
{
    match call {
        Call::Read(n) => serve_read(c, flash, wear, pspace, bspace, page, n),
        Call::Write { page: n, byte } => {
            serve_write(c, flash, wear, pspace, bspace, page, n, byte)
        }
    }
}

// A read is lent a page of zeros.
fn serve_read(
    c: Cache,
    flash: &[u8],
    wear: &[u32],
    pspace: &[u8],
    bspace: &[u8],
    page: &mut [u8],
    n: PageNo,
) -> Served
    ensures { let u = plain_lent flash.now wear.now pspace.now bspace.now in
        gave_of result u ≡ served (length page.old) (store_of c u) (asks.Read n) }
{
    memory::fill(page, 0);
    let r = c.read(flash, &[], &[], wear, pspace, bspace, &[], n, page);
    Served {
        cache: r.cache,
        answered: Answered::Read(r.answer),
    }
}

// A write is lent a page of its byte.
fn serve_write(
    c: Cache,
    flash: &mut [u8],
    wear: &mut [u32],
    pspace: &mut [u8],
    bspace: &mut [u8],
    page: &mut [u8],
    n: PageNo,
    byte: u8,
) -> Served
    ensures { let u = plain_lent flash.old wear.old pspace.old bspace.old in
        let u' = plain_lent flash.new wear.new pspace.new bspace.new in
        gave_of result u' ≡ served (length page.old) (store_of c u) (asks.Write n byte) }
{
    memory::fill(page, byte);
    let r = c.write(
        flash,
        &mut [],
        &mut [],
        wear,
        pspace,
        bspace,
        &mut [],
        n,
        page,
    );
    Served {
        cache: r.cache,
        answered: Answered::Write(r.answer),
    }
}

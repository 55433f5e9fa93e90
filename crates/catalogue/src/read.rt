// Reading a page of a run.
ghost use Rattle.std.specs.Prelude.{◌≡◌};
ghost use Rattle.runs.specs.Roles as roles;
ghost use Rattle.runs.specs.Verdict as verdicts;
ghost use Rattle.store.specs.View.{lent, store_of};
ghost use Rattle.catalogue.specs.View.{fetch_says, fetch_mends, out_with, called, stepped, lent_seen};
ghost use Rattle.catalogue.specs.Kinds.{FetchKind, Settled};

use crate::{ReadOut, judge, mends};
use address::{BlockNo, PageNo};
use cache::VACANT;
use lent::LentView;
use sheets::roles::{Caller, Operation};
use sheets::verdict::Verdict;
use store::Cache;

// Reads a page, by its index in the run, into the page buffer.
pub fn read(
    cache: Cache,
    flash: &[u8],
    codes: &[u8],
    marks: &[u8],
    wear: &[u32],
    pspace: &[u8],
    bspace: &[u8],
    shelf: &[u8],
    sheets: u32,
    caller: Caller,
    run: u32,
    index: u32,
    page: &mut [u8],
) -> ReadOut
    ensures { let u = lent flash.now codes.now marks.now
        wear.now pspace.now bspace.now shelf.now in
        out_with (fetch_says result.answer) (fetch_mends result.answer) (store_of result.cache u) page.new
        ≡ called cache u sheets caller (roles.read run index) page.old }
{
    let lent = LentView {
        flash,
        codes,
        marks,
        wear,
        pspace,
        bspace,
    };
    let op = Operation::Read { run, index };
    let mut m = [0u32; 256];
    match judge::judge(cache, lent, shelf, sheets, caller, op, page, &mut m) {
        Ok(Verdict::Fetch(n)) => fetch_page(cache, lent, shelf, sheets, PageNo(n), page, &m),
        Ok(_) => unreachable!(),
        Err(why) => ReadOut {
            cache,
            answer: Err(why),
        },
    }
}

// The store's read, with the mends of the sheets, none of which it reads.
fn fetch_page(
    cache: Cache,
    lent: LentView<'_>,
    shelf: &[u8],
    sheets: u32,
    n: PageNo,
    page: &mut [u8],
    m: &[u32; 256],
) -> ReadOut
    requires { let s = store_of cache (lent_seen lent shelf.now) in
        FetchKind s sheets (verdicts.fetch n.0) × Settled s sheets page.old m.now }
    ensures { let u = lent_seen lent.entry shelf.now in
        out_with (fetch_says result.answer) (fetch_mends result.answer) (store_of result.cache u) page.new
        ≡ stepped cache u sheets page.old (verdicts.fetch n.0) }
{
    let k = cache.sizes.pages_per_block;
    let more = mends::left(m, sheets, k, BlockNo(VACANT), VACANT);
    let out = cache.read(
        lent.flash,
        lent.codes,
        lent.marks,
        lent.wear,
        lent.pspace,
        lent.bspace,
        shelf,
        n,
        page,
    );
    ReadOut {
        cache: out.cache,
        answer: Ok(mends::with_read(out.answer, more)),
    }
}

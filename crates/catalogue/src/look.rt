// A look at a run's sheet, and a listing. Neither changes anything.
ghost use Rattle.std.specs.Prelude.{◌≡◌};
ghost use Rattle.runs.specs.Roles as roles;
ghost use Rattle.store.specs.View.{lent, store_of};
ghost use Rattle.catalogue.specs.View.{look_says, look_mends, list_says, list_mends, out_with, called};

use crate::{Listed, Looked, Shown, Told, judge, mends};
use address::BlockNo;
use cache::VACANT;
use lent::LentView;
use sheets::roles::{Caller, Operation};
use sheets::verdict::Verdict;
use store::Cache;

// The sheet of a run as the caller sees it, and the current run.
pub fn look(
    cache: Cache,
    flash: &[u8],
    codes: &[u8],
    marks: &[u8],
    wear: &[u32],
    pspace: &[u8],
    bspace: &[u8],
    shelf: &[u8],
    sheets: u32,
    caller: Caller,
    run: u32,
    page: &mut [u8],
) -> Looked
    ensures { let u = lent flash.now codes.now marks.now
        wear.now pspace.now bspace.now shelf.now in
        out_with (look_says result) (look_mends result) (store_of cache u) page.new
        ≡ called cache u sheets caller (roles.look run) page.old }
{
    let lent = LentView {
        flash,
        codes,
        marks,
        wear,
        pspace,
        bspace,
    };
    let op = Operation::Look(run);
    let mut m = [0u32; 256];
    let k = cache.sizes.pages_per_block;
    match judge::judge(cache, lent, shelf, sheets, caller, op, page, &mut m)? {
        Verdict::Show { sheet, current } => Ok(Shown {
            sheet,
            current,
            mends: mends::left(&m, sheets, k, BlockNo(VACANT), VACANT),
        }),
        _ => unreachable!(),
    }
}

// The run at a position, from 0 in sheet order.
pub fn list(
    cache: Cache,
    flash: &[u8],
    codes: &[u8],
    marks: &[u8],
    wear: &[u32],
    pspace: &[u8],
    bspace: &[u8],
    shelf: &[u8],
    sheets: u32,
    caller: Caller,
    position: u32,
    page: &mut [u8],
) -> Listed
    ensures { let u = lent flash.now codes.now marks.now
        wear.now pspace.now bspace.now shelf.now in
        out_with (list_says result) (list_mends result) (store_of cache u) page.new
        ≡ called cache u sheets caller (roles.list position) page.old }
{
    let lent = LentView {
        flash,
        codes,
        marks,
        wear,
        pspace,
        bspace,
    };
    let op = Operation::List(position);
    let mut m = [0u32; 256];
    let k = cache.sizes.pages_per_block;
    match judge::judge(cache, lent, shelf, sheets, caller, op, page, &mut m)? {
        Verdict::Tell(run) => Ok(Told {
            run,
            mends: mends::left(&m, sheets, k, BlockNo(VACANT), VACANT),
        }),
        _ => unreachable!(),
    }
}

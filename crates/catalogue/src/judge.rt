// All sheets read, as no use, and what they decide of a call.
ghost use Rattle.std.specs.Prelude.{◌≡◌};
ghost use Rattle.sheets.specs.View.{operation_of};
ghost use Rattle.store.specs.View.{store_of};
ghost use Rattle.catalogue.specs.View.{lent_seen};
ghost use Rattle.catalogue.specs.Kinds.{Ready, Judges, Decides, Putting, Orders};

use crate::{Turned, gate};
use address::PageNo;
use chip::lent::View;
use lent::LentView;
use sheets::roles::{Caller, Operation};
use sheets::verdict::{Cause, Verdict};
use sheets::{BLANK, Sheet, roles, verdict};
use store::Cache;

// The role; the checks; then all sheets are read, and decide. The mends of each sheet go into a table of 256.
pub(crate) fn judge(
    cache: Cache,
    lent: LentView<'_>,
    shelf: &[u8],
    sheets: u32,
    caller: Caller,
    op: Operation,
    page: &mut [u8],
    mends: &mut [u32; 256],
) -> Result<Verdict, Turned>
    ensures { Judges cache (lent_seen lent.entry shelf.now) sheets caller (operation_of op) page.old result mends.new
        × (page.new ≡ page.old) }
{
    if !roles::allows(caller.role, op) {
        return Err(Turned::Denied(Cause::Role));
    }
    gate::passes(cache, lent, shelf, sheets, page)?;
    decide(cache, lent, shelf, sheets, caller, op, mends)
}

// The sheets into a table, through a page of its own, and what the table decides.
fn decide(
    cache: Cache,
    lent: LentView<'_>,
    shelf: &[u8],
    sheets: u32,
    caller: Caller,
    op: Operation,
    mends: &mut [u32; 256],
) -> Result<Verdict, Turned>
    requires { Ready (store_of cache (lent_seen lent shelf.now)) sheets }
    ensures { Decides (store_of cache (lent_seen lent.entry shelf.now)) sheets caller (operation_of op) result mends.new }
{
    let z = cache.sizes;
    let s = z.page_size as usize;
    let view = View {
        sizes: z,
        flash: lent.flash,
        codes: lent.codes,
        marks: lent.marks,
    };
    let mut whole = [0u8; 2048];
    let mut t = [BLANK; 256];
    gather::gather(
        view,
        &cache.directory,
        lent.pspace,
        lent.bspace,
        &mut whole[..s],
        sheets,
        &mut t,
        mends,
    )?;
    let n = sheets as usize;
    let pages = z.blocks * z.pages_per_block;
    let v = verdict::decide(&t[..n], pages, caller, op)?;
    Ok(v)
}

// What a call that writes a sheet comes to: the sheet, and its page.
pub(crate) fn put(
    cache: Cache,
    lent: LentView<'_>,
    shelf: &[u8],
    sheets: u32,
    caller: Caller,
    op: Operation,
    page: &mut [u8],
    mends: &mut [u32; 256],
) -> Result<(PageNo, Sheet), Turned>
    requires { Putting (operation_of op) }
    ensures { Orders cache (lent_seen lent.entry shelf.now) sheets caller (operation_of op) page.old result mends.new
        × (page.new ≡ page.old) }
{
    match judge(cache, lent, shelf, sheets, caller, op, page, mends)? {
        Verdict::Put { at, sheet } => Ok((PageNo(at as u32), sheet)),
        _ => unreachable!(),
    }
}

// The checks before the sheets are read: 4, 2, 1.
ghost use Rattle.std.specs.Prelude.{◌≡◌};
ghost use Rattle.model.specs.Sizes.{InLimits};
ghost use Rattle.runs.specs.Verdict.{passed};
ghost use Rattle.over.specs.Catalogue.{sizes_fit, asking, entering};
ghost use Rattle.cache.specs.View.{sizes_of};
ghost use Rattle.store.specs.View.{store_of};
ghost use Rattle.answer.specs.Numbers.{refusal_of};
ghost use Rattle.catalogue.specs.View.{lent_seen, gate_of, past_entry};

use crate::Turned;
use address::PageNo;
use answer::Refusal;
use cache::{Sizes, VACANT};
use lent::LentView;
use sheets::verdict::Cause;
use store::Cache;

// What a read of no page was refused for: its number, where nothing else was in the way.
fn past_entry(why: Refusal) -> Result<(), Turned>
    ensures { gate_of result ≡ past_entry (refusal_of why) }
{
    match why {
        Refusal::Page => Ok(()),
        _ => Err(Turned::Stopped(why)),
    }
}

// 4 and 2 are the store's own: it is asked to read a page that no store has, which changes nothing and is refused 5 where they pass.
fn entry(cache: Cache, lent: LentView<'_>, shelf: &[u8], page: &mut [u8]) -> Result<(), Turned>
    ensures { (gate_of result ≡ entering (store_of cache (lent_seen lent.entry shelf.now)) page.old passed) × (page.new ≡ page.old) }
{
    let out = cache.read(
        lent.flash,
        lent.codes,
        lent.marks,
        lent.wear,
        lent.pspace,
        lent.bspace,
        shelf,
        PageNo(VACANT),
        page,
    );
    match out.answer {
        Ok(_) => unreachable!(),
        Err(why) => past_entry(why),
    }
}

// 1: pages of at least 28 bytes, and 1 to 256 sheets, fewer than pages.
#[tactic(auto, unfolding(over::specs::Catalogue::sizes_fit, prelude::specs::Tests::every))]
fn sizes_fit(z: Sizes, sheets: u32) -> bool
    requires { InLimits (sizes_of z) }
    ensures { result ≡ sizes_fit (sizes_of z) sheets }
{
    let pages = z.blocks * z.pages_per_block;
    (28 <= z.page_size) & (1 <= sheets) & (sheets <= 256) & (sheets < pages)
}

// The record is sound; the buffers and the page buffer are in their sizes; and the sizes fit a catalogue. Errors: 4, 2, 1.
pub fn passes(
    cache: Cache,
    lent: LentView<'_>,
    shelf: &[u8],
    sheets: u32,
    page: &mut [u8],
) -> Result<(), Turned>
    ensures { (gate_of result ≡ entering (store_of cache (lent_seen lent.entry shelf.now)) page.old
        (asking (sizes_fit (sizes_of cache.sizes) sheets) 1 passed)) × (page.new ≡ page.old) }
{
    entry(cache, lent, shelf, page)?;
    if !sizes_fit(cache.sizes, sheets) {
        return Err(Turned::Denied(Cause::Size));
    }
    Ok(())
}

// The report of a store's wear in whole figures (request A14).
ghost use Rattle.std.specs.Prelude.{◌≡◌};
ghost use Rattle.wear.specs.Report.{reported};
ghost use Rattle.report.specs.Contract.{reported_of};
ghost use Rattle.store.specs.View.{lent, store_of};
ghost use Rattle.clash_c.specs.Figures.{wear_reply};

use answer::Refusal;
use store::Cache;
use wear::Figures;

// The record, as it was taken, and the figures. `refusal` is document 01's number, and 0 where the report is accepted; the figures of a
// refused report are 0. Numbers and no `Result`, since C is handed them.
#[repr(C)]
#[derive(Clone, Copy, PartialEq, Eq, Debug)]
pub struct WearReport {
    pub cache: Cache,
    pub refusal: u32,
    // the wear of the block that is worn most
    pub largest: u32,
    pub total: u64,
    // N times the sum of squares, minus the total squared
    pub spread: u64,
}

// Reports the wear. It changes no lent buffer.
#[unsafe(no_mangle)]
pub extern "C" fn clash_report(
    cache: Cache,
    flash: &[u8],
    codes: &[u8],
    marks: &[u8],
    wear: &[u32],
    pspace: &[u8],
    bspace: &[u8],
    shelf: &[u8],
) -> WearReport
    ensures { let u = lent flash.now codes.now marks.now
        wear.now pspace.now bspace.now shelf.now in
        result ≡ wear_reply cache (reported (store_of cache u)) }
{
    let o = report::wear_report(cache, flash, codes, marks, wear, pspace, bspace, shelf);
    numbered(o.cache, o.answer)
}

// A report in numbers, as C has it. Not `From`, which takes one value: the record stands beside the answer.
#[tactic(auto, using(crate::proofs::Refusing::refused_reply))]
fn numbered(cache: Cache, answer: Result<Figures, Refusal>) -> WearReport
    ensures { result ≡ wear_reply cache (reported_of answer) }
{
    match answer {
        Ok(figures) => WearReport {
            cache,
            refusal: 0,
            largest: figures.largest,
            total: figures.total,
            spread: figures.spread,
        },
        Err(why) => WearReport {
            cache,
            refusal: replies::number(why),
            largest: 0,
            total: 0,
            spread: 0,
        },
    }
}

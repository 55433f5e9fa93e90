// The report of a store's wear (request A14): a call on the cache record that changes nothing.
#![tactic(auto)]

ghost use Rattle.std.specs.Prelude.{◌≡◌};
ghost use Rattle.wear.specs.Report.{reported};
ghost use Rattle.lent.specs.Loan.{buffers_seen};
ghost use Rattle.store.specs.View.{lent, store_of};
ghost use Rattle.report.specs.Contract.{reported_of, ReportContract};

use answer::Refusal;
use lent::LentView;
use store::{Cache, Out};
use wear::Figures;

// The record handed back, as it was taken, and the answer: the total, the largest and the spread of the wear.
pub type ReportOut = Out<Result<Figures, Refusal>>;

// Reports the wear in whole figures. All of the store's buffers are lent; none is changed. They are lent one by one, as the calls of the
// store take them, since C hands them on so.
pub fn wear_report(
    c: Cache,
    flash: &[u8],
    codes: &[u8],
    marks: &[u8],
    wear: &[u32],
    pspace: &[u8],
    bspace: &[u8],
    shelf: &[u8],
) -> ReportOut
    ensures { let u = lent flash.now codes.now marks.now
        wear.now pspace.now bspace.now shelf.now in
        ReportContract c u result }
{
    let lent = LentView {
        flash,
        codes,
        marks,
        wear,
        pspace,
        bspace,
    };
    let answer = judge(&c, lent, shelf);
    ReportOut { cache: c, answer }
}

// The checks in their order, 4, 2 and 3, and the figures.
fn judge(c: &Cache, lent: LentView<'_>, shelf: &[u8]) -> Result<Figures, Refusal>
    ensures { reported_of result ≡ reported (store_of c.now (record { below = buffers_seen lent.entry; shelf = shelf.now })) }
{
    let z = c.sizes;
    if !sound::directory_sound(z, &c.directory) || !shelf::sound(z, &c.entries) {
        return Err(Refusal::Record);
    }
    if !lent.fits(z) || !shelf::fitting(z, &c.entries, shelf.len()) {
        return Err(Refusal::Buffer);
    }
    wear::measure(lent.wear, z.wear_limit).ok_or(Refusal::Overworn)
}

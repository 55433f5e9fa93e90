// A flush step, and a flush.
ghost use Rattle.store.specs.View.{lent};
ghost use Rattle.store.specs.Histories.{Contract};
ghost use Rattle.store.specs.Histories as made;

use crate::{Cache, FlushOut, StepOut};
use lent::Lent;

impl Cache {
    // Rewrites one block that has pages cached, the one that is due.
    pub fn flush_step(
        self,
        flash: &mut [u8],
        codes: &mut [u8],
        marks: &mut [u8],
        wear: &mut [u32],
        pspace: &[u8],
        bspace: &mut [u8],
        shelf: &[u8],
    ) -> StepOut
        ensures { let u = lent flash.old codes.old marks.old
            wear.old pspace.now bspace.old shelf.now in
            Contract self u (made.step result flash.new codes.new marks.new wear.new bspace.new) }
    {
        let mut cache = self;
        let mut lent = Lent {
            flash,
            codes,
            marks,
            wear,
            bspace,
        };
        let answer = shelving::step(
            cache.sizes,
            &cache.entries,
            &mut cache.directory,
            &mut lent,
            pspace,
            shelf,
            checked::UNCUT,
        );
        StepOut { cache, answer }
    }

    // Rewrites every block that has pages cached, or none where one of them is worn.
    pub fn flush(
        self,
        flash: &mut [u8],
        codes: &mut [u8],
        marks: &mut [u8],
        wear: &mut [u32],
        pspace: &[u8],
        bspace: &mut [u8],
        shelf: &[u8],
    ) -> FlushOut
        ensures { let u = lent flash.old codes.old marks.old
            wear.old pspace.now bspace.old shelf.now in
            Contract self u (made.flush result flash.new codes.new marks.new wear.new bspace.new) }
    {
        let mut cache = self;
        let mut lent = Lent {
            flash,
            codes,
            marks,
            wear,
            bspace,
        };
        let answer = shelving::flush(
            cache.sizes,
            &cache.entries,
            &mut cache.directory,
            &mut lent,
            pspace,
            shelf,
            checked::UNCUT,
        );
        FlushOut { cache, answer }
    }
}

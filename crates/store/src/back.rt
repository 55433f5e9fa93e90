// Taking a write back (request A8): the latest shelved page is written as page buffers are, and its entry dropped.
ghost use Rattle.answer.specs.Carried.{buffers};
ghost use Rattle.store.specs.View.{lent};
ghost use Rattle.store.specs.Histories.{Contract};
ghost use Rattle.store.specs.Histories as made;

use crate::{Cache, WriteOut};
use lent::Lent;

impl Cache {
    // Takes the latest accepted write back that is on the shelf: writes the page as it was before, by document 01's ways 1 to 7.
    pub fn take_back(
        self,
        flash: &mut [u8],
        codes: &mut [u8],
        marks: &mut [u8],
        wear: &mut [u32],
        pspace: &mut [u8],
        bspace: &mut [u8],
        shelf: &[u8],
    ) -> WriteOut
        ensures { let u = lent flash.old codes.old marks.old
            wear.old pspace.old bspace.old shelf.now in
            Contract self u (made.back result (buffers flash.new codes.new marks.new wear.new
            pspace.new bspace.new)) }
    {
        let sizes = self.sizes;
        let mut entries = self.entries;
        let mut directory = self.directory;
        let mut lent = Lent {
            flash,
            codes,
            marks,
            wear,
            bspace,
        };
        let answer = shelving::back::back(
            sizes,
            &mut entries,
            &mut directory,
            &mut lent,
            pspace,
            shelf,
            checked::UNCUT,
        );
        WriteOut {
            cache: Cache {
                sizes,
                entries,
                directory,
            },
            answer,
        }
    }
}

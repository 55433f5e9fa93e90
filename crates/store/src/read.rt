// Reading a page.
ghost use Rattle.store.specs.View.{lent};
ghost use Rattle.store.specs.Histories.{Contract};
ghost use Rattle.store.specs.Histories as made;

use crate::{Cache, ReadOut};
use address::PageNo;
use lent::LentView;

impl Cache {
    // Reads page n into the page buffer. Nothing but the page buffer changes, and, where the page is in a frame, the order of
    // use.
    pub fn read(
        self,
        flash: &[u8],
        codes: &[u8],
        marks: &[u8],
        wear: &[u32],
        pspace: &[u8],
        bspace: &[u8],
        shelf: &[u8],
        n: PageNo,
        page: &mut [u8],
    ) -> ReadOut
        ensures { let u = lent flash.now codes.now marks.now
            wear.now pspace.now bspace.now shelf.now in
            Contract self u (made.read n page.old result page.new) }
    {
        let sizes = self.sizes;
        let entries = self.entries;
        let mut directory = self.directory;
        let lent = LentView {
            flash,
            codes,
            marks,
            wear,
            pspace,
            bspace,
        };
        let answer = shelving::read(sizes, &entries, &mut directory, lent, shelf, n, page);
        ReadOut {
            cache: Cache {
                sizes,
                entries,
                directory,
            },
            answer,
        }
    }
}

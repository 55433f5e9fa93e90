// Writing a page.
ghost use Rattle.store.specs.View.{lent};
ghost use Rattle.store.specs.Histories.{Contract};
ghost use Rattle.store.specs.Histories as made;

use crate::{Cache, WriteOut};
use address::PageNo;
use lent::Lent;

impl Cache {
    // Writes the page buffer as page n, by document 01's ways 1 to 7.
    pub fn write(
        self,
        flash: &mut [u8],
        codes: &mut [u8],
        marks: &mut [u8],
        wear: &mut [u32],
        pspace: &mut [u8],
        bspace: &mut [u8],
        shelf: &mut [u8],
        n: PageNo,
        page: &[u8],
    ) -> WriteOut
        ensures { let u = lent flash.old codes.old marks.old
            wear.old pspace.old bspace.old shelf.old in
            let u' = lent flash.new codes.new marks.new
            wear.new pspace.new bspace.new shelf.new in
            Contract self u (made.write n page.now result u') }
    {
        let sizes = self.sizes;
        let mut entries = self.entries;
        let mut directory = self.directory;
        let mut lent = Lent {
            flash,
            codes,
            marks,
            wear,
            bspace,
        };
        let answer = shelving::write(
            sizes,
            &mut entries,
            &mut directory,
            &mut lent,
            pspace,
            shelf,
            n,
            page,
            checked::UNCUT,
        );
        WriteOut {
            cache: Cache {
                sizes,
                entries,
                directory,
            },
            answer,
        }
    }
}

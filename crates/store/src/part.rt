// Writing part of a page.
ghost use Rattle.store.specs.View.{lent};
ghost use Rattle.store.specs.Histories.{Contract};
ghost use Rattle.store.specs.Histories as made;

use crate::{Cache, WriteOut};
use address::PageNo;
use lent::Lent;

impl Cache {
    // Writes page n with the bytes laid in from byte `first` on, and leaves the page so combined in the page buffer. Without bytes
    // nothing is read or changed.
    pub fn write_part(
        self,
        flash: &mut [u8],
        codes: &mut [u8],
        marks: &mut [u8],
        wear: &mut [u32],
        pspace: &mut [u8],
        bspace: &mut [u8],
        shelf: &mut [u8],
        n: PageNo,
        first: u32,
        bytes: &[u8],
        page: &mut [u8],
    ) -> WriteOut
        ensures { let u = lent flash.old codes.old marks.old
            wear.old pspace.old bspace.old shelf.old in
            let u' = lent flash.new codes.new marks.new
            wear.new pspace.new bspace.new shelf.new in
            Contract self u (made.part n first bytes.now page.old result u' page.new) }
    {
        let sizes = self.sizes;
        let mut entries = self.entries;
        let mut directory = self.directory;
        let mut lent = Lent {
            flash,
            codes,
            marks,
            wear,
            bspace,
        };
        let answer = shelving::part(
            sizes,
            &mut entries,
            &mut directory,
            &mut lent,
            pspace,
            shelf,
            n,
            first,
            bytes,
            page,
            checked::UNCUT,
        );
        WriteOut {
            cache: Cache {
                sizes,
                entries,
                directory,
            },
            answer,
        }
    }
}

// Pages of flash are looked at, and read.
ghost use Rattle.std.specs.Prelude.{◌≡◌, ◌+◌, ◌*◌, ◌≤◌, ◌<◌, length};
ghost use Rattle.prelude.specs.Pages.{put_page, run_at, laid};
ghost use Rattle.cache.specs.View.{sizes_of};
ghost use Rattle.page.specs.Page.{HasPage};
ghost use Rattle.chip.specs.Formats.{read_at};
ghost use Rattle.chip.specs.Chip.{Looked, ReadOut, CodeLooked, torn_at, Legible, BlockLooked};

use crate::lent::View;
use crate::{BlockSeen, Seen, has_codes, has_marks};
use address::{BlockNo, PageNo};
use answer::Fault;
use ecc::Unreadable;

impl View<'_> {
    // What the code of page n says of it.
    #[tactic(auto, using(crate::proofs::Leaves::coding))]
    fn look_code(self, at: usize) -> Seen
        requires { at < self.sizes.blocks * self.sizes.pages_per_block }
        ensures { CodeLooked (sizes_of self.entry.sizes) self.entry.flash.now self.entry.codes.now at result }
    {
        if !has_codes(self.sizes) {
            return Seen {
                fault: None,
                mends: 0,
            };
        }
        let m = self.sizes.page_size as usize / 256;
        match ecc::check_page(self.flash, self.codes, at, m) {
            Err(Unreadable) => Seen {
                fault: Some(Fault::Unreadable),
                mends: 0,
            },
            Ok(k) => Seen {
                fault: None,
                mends: k as u32,
            },
        }
    }

    // Whether page n is torn.
    #[tactic(auto, using(crate::proofs::Leaves::marking))]
    fn is_torn(self, at: usize) -> bool
        requires { at < self.sizes.blocks * self.sizes.pages_per_block }
        ensures { result ≡ torn_at (sizes_of self.entry.sizes) self.entry.marks.now at }
    {
        if !has_marks(self.sizes) {
            return false;
        }
        self.marks[at] != 0
    }

    // Looks at page n of flash without copying it.
    pub fn look_page(self, n: PageNo) -> Seen
        requires { n.0 < self.sizes.blocks * self.sizes.pages_per_block }
        ensures { Looked (sizes_of self.entry.sizes) self.entry.flash.now self.entry.codes.now self.entry.marks.now n.0 result }
    {
        let at = n.0 as usize;
        let seen = self.look_code(at);
        if seen.fault.is_some() {
            return seen;
        }
        if self.is_torn(at) {
            return Seen {
                fault: Some(Fault::Torn),
                mends: seen.mends,
            };
        }
        seen
    }

    // The chip reads page n of flash: it goes to page di of dst, mended where its code says so. A page that cannot be read, or is torn,
    // leaves dst alone.
    #[tactic(auto, using(crate::proofs::Cells::reading))]
    pub fn read_page(self, n: PageNo, dst: &mut [u8], di: usize) -> Seen
        requires { (n.0 < self.sizes.blocks * self.sizes.pages_per_block) × HasPage self.sizes.page_size dst.old di }
        ensures { ReadOut (sizes_of self.entry.sizes) self.entry.flash.now self.entry.codes.now self.entry.marks.now n.0 dst.old di result
            dst.new }
    {
        let seen = self.look_page(n);
        if seen.fault.is_some() {
            return seen;
        }
        if seen.mends != 0 {
            self.mend_page(n, dst, di);
            return seen;
        }
        let s = self.sizes.page_size as usize;
        page::copy_page(dst, di, self.flash, n.0 as usize, s);
        seen
    }

    // Page n, which can be read, goes to page di of dst with its chunks mended.
    pub fn mend_page(self, n: PageNo, dst: &mut [u8], di: usize)
        requires { Legible (sizes_of self.sizes) self.flash.now self.codes.now n.0 × HasPage self.sizes.page_size dst.old di }
        ensures { dst.new ≡ put_page self.entry.sizes.page_size dst.old di
            (read_at (sizes_of self.entry.sizes) self.entry.flash.now self.entry.codes.now n.0) }
    {
        crate::mend_page(self.sizes, self.flash, self.codes, n, dst, di);
    }

    // The chip reads so many pages of flash from page n on, as they are: they go to dst, from page di on.
    pub(crate) fn read_pages(self, n: PageNo, dst: &mut [u8], di: usize, pages: usize)
        requires { (n.0 * self.sizes.page_size + pages * self.sizes.page_size ≤ length self.flash.now)
            × (di * self.sizes.page_size + pages * self.sizes.page_size ≤ length dst.old) }
        ensures { let s = self.entry.sizes.page_size in dst.new ≡ laid (di * s) (run_at s self.entry.flash.now n.0 pages) dst.old }
    {
        let s = self.sizes.page_size as usize;
        page::copy_pages(dst, di, self.flash, n.0 as usize, pages, s);
    }

    // The check beforehand: what a merge meets that reads each offset of block b that is not in the valid set v.
    pub fn look_block(self, b: BlockNo, v: u64) -> BlockSeen
        requires { b.0 < self.sizes.blocks }
        ensures { BlockLooked (sizes_of self.entry.sizes) self.entry.flash.now self.entry.codes.now self.entry.marks.now b.0 v result }
    {
        let mut seen = BlockSeen {
            fault: None,
            mends: 0,
            mend: 0,
        };
        if !has_codes(self.sizes) && !has_marks(self.sizes) {
            return seen;
        }
        for o in 0..self.sizes.pages_per_block {
            if !bitmap::has(v, o) {
                let page = self.look_page(address::page_of(b, o, self.sizes.pages_per_block));
                seen.fault = crate::worse(seen.fault, page.fault);
                seen.mends += page.mends;
                if page.mends != 0 {
                    seen.mend = bitmap::with(seen.mend, o);
                }
            }
        }
        seen
    }
}

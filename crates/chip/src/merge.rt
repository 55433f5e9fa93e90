// The merge reads of a rewrite.
ghost use Rattle.std.specs.Prelude.{◌≡◌};
ghost use Rattle.cache.specs.View.{sizes_of};
ghost use Rattle.chip.specs.Chip.{Facing, CodesFacing, stretch_pages, merged_pages, raw_merged, mended_pages, Mendable, Settled};

use crate::lent::View;
use address::BlockNo;

impl View<'_> {
    // Each offset that is not in the valid set v is read from block b into a frame's stretch; w has those that want mending. No page
    // that is read is unreadable.
    pub(crate) fn merge(self, b: BlockNo, stretch: &mut [u8], v: u64, w: u64)
        requires { CodesFacing (sizes_of self.sizes) b.0 self.flash.now self.codes.now stretch.old
            × Settled (sizes_of self.sizes) self.flash.now self.codes.now b.0 v w }
        ensures { stretch_pages (sizes_of self.entry.sizes) stretch.new ≡ merged_pages (sizes_of self.entry.sizes) self.entry.flash.now
            self.entry.codes.now b.0 stretch.old v }
    {
        self.merge_raw(b, stretch, v);
        if w != 0 {
            self.mend_pages(b, stretch, w);
        }
    }

    // The same as the bytes stand in flash. Offsets that follow one another are read by one move, which takes less time than a move for
    // each: a `for` over the offsets cannot pass a run at once.
    fn merge_raw(self, b: BlockNo, stretch: &mut [u8], v: u64)
        requires { Facing (sizes_of self.sizes) b.0 self.flash.now stretch.old }
        ensures { stretch_pages (sizes_of self.entry.sizes) stretch.new ≡ raw_merged (sizes_of self.entry.sizes) self.entry.flash.now b.0
            stretch.old v }
    {
        let k = self.sizes.pages_per_block;
        let mut o: u32 = 0;
        while o < k {
            let e = bitmap::next(v, 0, o, k);
            let n = address::page_of(b, o, k);
            self.read_pages(n, stretch, o as usize, (e - o) as usize);
            o = e + 1;
        }
    }

    // The pages of block b in the set w are read with their chunks mended.
    fn mend_pages(self, b: BlockNo, stretch: &mut [u8], w: u64)
        requires { CodesFacing (sizes_of self.sizes) b.0 self.flash.now self.codes.now stretch.old
            × Mendable (sizes_of self.sizes) self.flash.now self.codes.now b.0 w }
        ensures { stretch_pages (sizes_of self.entry.sizes) stretch.new ≡ mended_pages (sizes_of self.entry.sizes) self.entry.flash.now
            self.entry.codes.now b.0 stretch.old w }
    {
        for o in 0..self.sizes.pages_per_block {
            if bitmap::has(w, o) {
                let n = address::page_of(b, o, self.sizes.pages_per_block);
                self.mend_page(n, stretch, o as usize);
            }
        }
    }
}

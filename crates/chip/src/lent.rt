// The chip as it is lent, and its operations.
ghost use Rattle.std.specs.Prelude.{◌≡◌, cond, [], ◌∷◌, ◌*◌, ◌≤◌, ◌<◌, length, get_or};
ghost use Rattle.prelude.specs.Pages.{page_at, put_page};
ghost use Rattle.model.specs.Sizes.{is_coded, is_marked};
ghost use Rattle.cache.specs.View.{sizes_of};
ghost use Rattle.page.specs.Page.{HasPage};
ghost use Rattle.model.specs.Formats.{code_long, mark_long, code_for};
ghost use Rattle.chip.specs.Chip.{Lent, Erased, PagesProgrammed, Programmed, BlockProgrammed, Rewritable, Rewritten};

use crate::{Rewrote, block_size, code_size, has_codes, has_marks, mark_size};
use address::{BlockNo, PageNo};
use cache::Sizes;

// Flash with its codes and marks, and wear, of lengths that fit the sizes.
#[derive(Drop)]
pub struct Chip<'a> {
    pub sizes: Sizes,
    pub flash: &'a mut [u8],
    pub codes: &'a mut [u8],
    pub marks: &'a mut [u8],
    pub wear: &'a mut [u32],

    ghost lent: { Lent (sizes_of sizes) flash.now codes.now marks.now },
    ghost wear_length: { length wear.now ≡ sizes.blocks },
}

impl Chip<'_> {
    ghost use Rattle.chip.specs.Loan.{IsSameLoan};

    // The chip, to read from.
    pub fn view(&self) -> View<'_>
        ensures sizes { result.sizes ≡ self.now.sizes }
        ensures flash { result.flash.now ≡ self.now.flash.now }
        ensures codes { result.codes.now ≡ self.now.codes.now }
        ensures marks { result.marks.now ≡ self.now.marks.now }
    {
        View {
            sizes: self.sizes,
            flash: self.flash,
            codes: self.codes,
            marks: self.marks,
        }
    }

    // The chip erases block b: bytes, codes and marks are 255, and its wear is 1 more. The marks go first, so that flash that is memory,
    // as a mapped file, has no page marked 0 with other bytes in the middle of an erasure either.
    fn erase(&mut self, b: BlockNo)
        requires { (b.0 < self.old.sizes.blocks) × (get_or self.old.wear.now b.0 0 < self.old.sizes.wear_limit) }
        ensures loan { IsSameLoan self.old self.new }
        ensures erased { Erased (sizes_of self.old.sizes) b.0 self.old.flash.now self.old.codes.now self.old.marks.now self.old.wear.now
            self.new.flash.now self.new.codes.now self.new.marks.now self.new.wear.now }
    {
        let z = self.sizes;
        let k = z.pages_per_block as usize;
        let at = b.0 as usize;
        let code = k * code_size(z);
        let mark = k * mark_size(z);
        page::fill_page(self.marks, at, mark, 255);
        page::fill_page(self.flash, at, block_size(z), 255);
        page::fill_page(self.codes, at, code, 255);
        self.wear[at] += 1;
    }

    // The code of page n goes to its place among the codes.
    #[tactic(auto, using(crate::proofs::Leaves::coding))]
    fn write_code(&mut self, at: usize)
        requires { at < self.old.sizes.blocks * self.old.sizes.pages_per_block }
        ensures loan { IsSameLoan self.old self.new }
        ensures flash { self.new.flash.now ≡ self.old.flash.now }
        ensures marks { self.new.marks.now ≡ self.old.marks.now }
        ensures wear { self.new.wear.now ≡ self.old.wear.now }
        ensures codes { let sz = sizes_of self.old.sizes in self.new.codes.now ≡ put_page (code_long sz) self.old.codes.now at
            ((code_for (is_coded sz)).code_of sz (page_at sz.S self.old.flash.now at)) }
    {
        if has_codes(self.sizes) {
            let m = self.sizes.page_size as usize / 256;
            let flash = &mut *self.flash;
            let codes = &mut *self.codes;
            ecc::encode_page(codes, flash, at, m);
        }
    }

    // The mark of page n becomes 0.
    #[tactic(auto, using(crate::proofs::Leaves::marking))]
    fn write_mark(&mut self, at: usize)
        requires { at < self.old.sizes.blocks * self.old.sizes.pages_per_block }
        ensures loan { IsSameLoan self.old self.new }
        ensures flash { self.new.flash.now ≡ self.old.flash.now }
        ensures codes { self.new.codes.now ≡ self.old.codes.now }
        ensures wear { self.new.wear.now ≡ self.old.wear.now }
        ensures marks { let sz = sizes_of self.old.sizes in
            self.new.marks.now ≡ put_page (mark_long sz) self.old.marks.now at (cond (is_marked sz) (0 ∷ []) []) }
    {
        if has_marks(self.sizes) {
            self.marks[at] = 0;
        }
    }

    // The chip programs page n of flash with page si of src: bytes, code and mark.
    fn program_page(&mut self, n: PageNo, src: &[u8], si: usize)
        requires { (n.0 < self.old.sizes.blocks * self.old.sizes.pages_per_block) × HasPage self.old.sizes.page_size src.now si }
        ensures loan { IsSameLoan self.old self.new }
        ensures wear { self.new.wear.now ≡ self.old.wear.now }
        ensures programmed { Programmed (sizes_of self.old.sizes) self.old.flash.now self.old.codes.now self.old.marks.now n.0
            (page_at self.old.sizes.page_size src.now si) self.new.flash.now self.new.codes.now self.new.marks.now }
    {
        let s = self.sizes.page_size as usize;
        let at = n.0 as usize;
        page::copy_page(self.flash, at, src, si, s);
        self.write_code(at);
        self.write_mark(at);
    }

    // The first pages of block b, which is erased, are programmed, offsets upward, from a frame's stretch.
    fn program_pages(&mut self, b: BlockNo, stretch: &[u8], many: u32)
        requires { (b.0 < self.old.sizes.blocks) × (length stretch.now ≡ self.old.sizes.pages_per_block * self.old.sizes.page_size)
            × (many ≤ self.old.sizes.pages_per_block) }
        ensures loan { IsSameLoan self.old self.new }
        ensures wear { self.new.wear.now ≡ self.old.wear.now }
        ensures programmed { PagesProgrammed (sizes_of self.old.sizes) b.0 self.old.flash.now self.old.codes.now self.old.marks.now
            stretch.now many self.new.flash.now self.new.codes.now self.new.marks.now }
    {
        let k = self.sizes.pages_per_block;
        for o in 0..many {
            let n = address::page_of(b, o, k);
            self.program_page(n, stretch, o as usize);
        }
    }

    // Block b is erased and its pages are programmed from a frame's stretch: K + 1 operations of the chip, or the first of them where
    // fewer may be done. Answers how many may still be done.
    fn program_block(&mut self, b: BlockNo, stretch: &[u8], ops: u32) -> u32
        requires { (b.0 < self.old.sizes.blocks) × (get_or self.old.wear.now b.0 0 < self.old.sizes.wear_limit)
            × (length stretch.now ≡ self.old.sizes.pages_per_block * self.old.sizes.page_size) }
        ensures loan { IsSameLoan self.old self.new }
        ensures programmed { BlockProgrammed (sizes_of self.old.sizes) b.0 self.old.flash.now self.old.codes.now self.old.marks.now
            self.old.wear.now stretch.now ops result self.new.flash.now self.new.codes.now self.new.marks.now self.new.wear.now }
    {
        if ops == 0 {
            return 0;
        }
        let many = (ops - 1).min(self.sizes.pages_per_block);
        self.erase(b);
        self.program_pages(b, stretch, many);
        ops - 1 - many
    }

    // Block b is rewritten from frame f, whose valid set is v: merge reads into the frame's own stretch of b-space, erasure, all pages
    // programmed; w has the pages that want mending. Of the K + 1 operations of the chip at most ops are done.
    pub fn rewrite(
        &mut self,
        v: u64,
        w: u64,
        bspace: &mut [u8],
        b: BlockNo,
        f: usize,
        ops: u32,
    ) -> Rewrote
        requires { Rewritable (sizes_of self.old.sizes) v w b.0 f self.old.flash.now self.old.codes.now self.old.marks.now
            self.old.wear.now bspace.old }
        ensures loan { IsSameLoan self.old self.new }
        ensures rewritten { Rewritten (sizes_of self.old.sizes) v b.0 f ops self.old.flash.now self.old.codes.now self.old.marks.now
            self.old.wear.now bspace.old result self.new.flash.now self.new.codes.now self.new.marks.now self.new.wear.now bspace.new }
    {
        let merged = self.sizes.pages_per_block - bitmap::count(v);
        let size = block_size(self.sizes);
        let a = f * size;
        let e = a + size;
        self.view().merge(b, &mut bspace[a..e], v, w);
        let left = self.program_block(b, &bspace[a..e], ops);
        Rewrote {
            reads: merged,
            left,
        }
    }
}

// The chip, to read from: reading.rt and merge.rt have what it can do. It is not compared or printed, so that it derives no more.
#[derive(Clone, Copy)]
pub struct View<'a> {
    pub sizes: Sizes,
    pub flash: &'a [u8],
    pub codes: &'a [u8],
    pub marks: &'a [u8],

    ghost lent: { Lent (sizes_of sizes) flash.now codes.now marks.now },
}

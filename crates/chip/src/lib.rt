// Flash with its codes and marks, and wear: one method for each operation of the chip, and the rewrite of a block that is made of
// them. A store without codes, or without marks, lends none. Every access to flash is made here, but that `gather` decodes
// a sheet where its page lies in flash.
#![tactic(auto)]

pub mod lent; // lent.rt: the chip as it is lent, and its operations
mod merge; // merge.rt: the merge reads of a rewrite
pub mod numbers; // numbers.rt: faults by their numbers
mod reading; // reading.rt: pages are looked at, and read
pub mod torn; // torn.rt: the torn blocks

ghost use Rattle.std.specs.Prelude.{◌≡◌, ◌*◌};
ghost use Rattle.model.specs.Sizes.{InLimits, is_coded, is_marked};
ghost use Rattle.prelude.specs.Pages.{put_page};
ghost use Rattle.page.specs.Page.{HasPage};
ghost use Rattle.cache.specs.View.{sizes_of};
ghost use Rattle.model.specs.Formats.{code_long, mark_long};
ghost use Rattle.answer.specs.Numbers.{fault_number};
ghost use Rattle.chip.specs.Formats.{read_at};
ghost use Rattle.chip.specs.Chip.{worse_of, Legible};

use address::PageNo;
use answer::Fault;
use cache::Sizes;

// What a flash page was found to be: what reading it meets, and how many of its chunks the code mends.
#[derive(Clone, Copy, PartialEq, Eq, Debug)]
pub struct Seen {
    pub fault: Option<Fault>,
    pub mends: u32,
}

// The same of the pages of a block that a merge would read, and the set of those that want mending.
#[derive(Clone, Copy, PartialEq, Eq, Debug)]
pub struct BlockSeen {
    pub fault: Option<Fault>,
    pub mends: u32,
    pub mend: u64,
}

// What a rewrite answers: its merge reads, and how many chip operations may still be done.
#[derive(Clone, Copy, PartialEq, Eq, Debug)]
pub struct Rewrote {
    pub reads: u32,
    pub left: u32,
}

// Whether pages have codes; the sizes hold it as a number, as C has it.
#[tactic(auto, unfolding(model::specs::Sizes::is_coded))]
pub fn has_codes(z: Sizes) -> bool
    ensures { result ≡ is_coded (sizes_of z) }
{
    z.coded == 1
}

// Whether pages have marks; a number in the sizes, too.
#[tactic(auto, unfolding(model::specs::Sizes::is_marked))]
pub fn has_marks(z: Sizes) -> bool
    ensures { result ≡ is_marked (sizes_of z) }
{
    z.marked == 1
}

// The bytes of a page's code.
#[tactic(auto, unfolding(model::specs::Formats::page_code))]
pub fn code_size(z: Sizes) -> usize
    requires { InLimits (sizes_of z) }
    ensures { result ≡ code_long (sizes_of z) }
{
    if has_codes(z) {
        z.page_size as usize / 256 * 3
    } else {
        0
    }
}

// The bytes of a page's mark.
pub fn mark_size(z: Sizes) -> usize
    ensures { result ≡ mark_long (sizes_of z) }
{
    if has_marks(z) { 1 } else { 0 }
}

// The bytes of a block.
fn block_size(z: Sizes) -> usize
    requires { InLimits (sizes_of z) }
    ensures { result ≡ z.pages_per_block * z.page_size }
{
    z.pages_per_block as usize * z.page_size as usize
}

// Page n of flash, which its code lets read, goes to page di of dst with its chunks mended. It needs no marks, so that it is no method of
// a view alone.
pub fn mend_page(z: Sizes, flash: &[u8], codes: &[u8], n: PageNo, dst: &mut [u8], di: usize)
    requires { Legible (sizes_of z) flash.now codes.now n.0 × HasPage z.page_size dst.old di }
    ensures { dst.new ≡ put_page z.page_size dst.old di (read_at (sizes_of z) flash.now codes.now n.0) }
{
    let m = z.page_size as usize / 256;
    let _ = ecc::decode_page(dst, di, flash, codes, n.0 as usize, m);
}

// Of what is met on two flash pages, what stands: unreadable goes before torn.
pub fn worse(a: Option<Fault>, b: Option<Fault>) -> Option<Fault>
    ensures { fault_number result ≡ worse_of (fault_number a) (fault_number b) }
{
    match b {
        Some(Fault::Unreadable) => b,
        _ => a.or(b),
    }
}

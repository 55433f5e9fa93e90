// The buffers of a store as they are lent: whether they have the lengths that the sizes ask for (refusal 2), and wear within its limit
// (refusal 3).
#![tactic(auto)]

ghost use Rattle.std.specs.Prelude.{◌≡◌, ◌+◌, leb, length, get_or};
ghost use Rattle.prelude.specs.Scan.{all};
ghost use Rattle.model.specs.Sizes.{InLimits};
ghost use Rattle.model.specs.Formats.{store_format};
ghost use Rattle.model.specs.Calls.{lent_ok};
ghost use Rattle.cache.specs.View.{sizes_of};
ghost use Rattle.lent.specs.Lengths.{lengths_ok};

use cache::Sizes;

// The buffers that a call may write: N*K*S bytes of flash, codes and marks of its N*K pages as the options have them, N wear entries and
// B*K*S bytes of b-space. P-space stands beside them, since a flush is lent it to read alone.
#[derive(Drop)]
pub struct Lent<'a> {
    pub flash: &'a mut [u8],
    pub codes: &'a mut [u8],
    pub marks: &'a mut [u8],
    pub wear: &'a mut [u32],
    pub bspace: &'a mut [u8],
}

impl Lent<'_> {
    ghost use Rattle.lent.specs.Loan.{buffers_of, buffers_seen};

    // The same buffers to read from, with p-space.
    pub fn view<'b>(&'b self, pspace: &'b [u8]) -> LentView<'b>
        ensures { buffers_seen result ≡ buffers_of self.now pspace.now }
    {
        LentView {
            flash: self.flash,
            codes: self.codes,
            marks: self.marks,
            wear: self.wear,
            pspace,
            bspace: self.bspace,
        }
    }
}

// All buffers of a store but the shelf, lent to be read: those of Lent, and P*S bytes of p-space. They are not compared or printed, so that
// it derives no more.
#[derive(Clone, Copy)]
pub struct LentView<'a> {
    pub flash: &'a [u8],
    pub codes: &'a [u8],
    pub marks: &'a [u8],
    pub wear: &'a [u32],
    pub pspace: &'a [u8],
    pub bspace: &'a [u8],
}

impl LentView<'_> {
    ghost use Rattle.lent.specs.Loan.{buffers_seen};

    // Each buffer has the length that the sizes and the options ask for.
    pub fn fits(self, z: Sizes) -> bool
        requires { InLimits (sizes_of z) }
        ensures lengths { let u = self.entry in result ≡ lengths_ok (sizes_of z) (length u.flash.now) (length u.codes.now)
            (length u.marks.now) (length u.wear.now) (length u.pspace.now) (length u.bspace.now) }
        ensures lent { result ≡ lent_ok store_format (sizes_of z) (buffers_seen self.entry) }
    {
        let s = z.page_size as usize;
        let k = z.pages_per_block as usize;
        let n = z.blocks as usize;
        let p = z.slots as usize;
        let b = z.frames as usize;
        let code = chip::code_size(z);
        let mark = chip::mark_size(z);
        let pages = n * k;
        (self.flash.len() == pages * s)
            & ((self.codes.len() == pages * code)
                & ((self.marks.len() == pages * mark)
                    & ((self.wear.len() == n)
                        & ((self.pspace.len() == p * s) & (self.bspace.len() == b * k * s)))))
    }
}

// So many bytes, from byte `first` of a page on, end within it.
pub fn reach_ok(z: Sizes, first: u32, many: usize) -> bool
    ensures { result ≡ leb (first + many) (sizes_of z).S }
{
    let s = z.page_size;
    if s < first {
        return false;
    }
    let left = s - first;
    many <= left as usize
}

// No wear entry is above the limit. A `for` with no exit: `all` of the entries takes three times as long on 4,096 of them.
#[tactic(auto, using(prelude::proofs::Scan::all_none, prelude::proofs::Scan::all_more, prelude::proofs::Scan::all_end))]
pub fn wear_ok(wear: &[u32], limit: u32) -> bool
    ensures { result ≡ all (length wear.now) (λ b. leb (get_or wear.now b 0) limit) }
{
    let mut ok = true;
    for w in wear {
        ok = ok & (*w <= limit);
    }
    ok
}

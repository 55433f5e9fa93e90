// A filter of page numbers: 4,096 bits in 64 words, one for each remainder of a number by 4,096. A number whose bit is clear
// was not put in; one whose bit is set may have been.
#![tactic(auto)]

ghost use Rattle.std.specs.Prelude.{◌≡◌, ◌*◌, ◌<◌, ◌≤◌, IfSome, unwrap_or};
ghost use Rattle.model.specs.Sizes.{InLimits};
ghost use Rattle.cache.specs.View.{sizes_of, directory_of};
ghost use Rattle.filter.specs.Filter.{or_at, laid_at};
ghost use Rattle.filter.specs.Passed.{FirstMet};

use address::PageNo;
use cache::{Directory, Sizes, VACANT};

// The pages from the first on that have a bit in v go in: v is shifted to its place, in one word and the next.
pub fn lay(seen: &mut [u64; 64], first: PageNo, v: u64)
    ensures { seen.new ≡ laid_at seen.old first.0 v }
{
    let w = (first.0 % 4096 / 64) as usize;
    let r = first.0 % 64;
    mark(seen, w, v << r);
    mark(seen, (w + 1) % 64, (v >> 1) >> (63 - r));
}

// Word w takes the bits of m as well.
fn mark(seen: &mut [u64; 64], w: usize, m: u64)
    requires { w < 64 }
    ensures { seen.new ≡ or_at seen.old w m }
{
    seen[w] |= m;
}

// The first slot from i on, below P, whose number is out of range or may be in the filter. The numbers passed go into the filter; one that
// changes no word of it may be there already. By index, since the place is what is answered.
pub fn first_met(
    sizes: Sizes,
    directory: &Directory,
    seen: &mut [u64; 64],
    i: usize,
) -> Option<usize>
    requires { InLimits (sizes_of sizes) × (i ≤ (sizes_of sizes).P) }
    ensures met { FirstMet ((sizes_of sizes).N * (sizes_of sizes).K) (sizes_of sizes).P (directory_of directory.now).slots i
        seen.old seen.new (unwrap_or result sizes.slots) }
    ensures below { IfSome result (λ j. j < sizes.slots) }
{
    let end = sizes.blocks * sizes.pages_per_block;
    for j in i..sizes.slots as usize {
        let y = directory.slots[j].0;
        if y < end {
            let w = (y % 4096 / 64) as usize;
            let next = bitmap::with(seen[w], y % 64);
            if next == seen[w] {
                return Some(j);
            }
            seen[w] = next;
        } else if y != VACANT {
            return Some(j);
        }
    }
    None
}

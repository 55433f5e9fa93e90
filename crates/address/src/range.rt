// The block of a page without a division: the page is compared with the first and the last page of a block that is near.
ghost use Rattle.std.specs.Prelude.{◌≡◌, ◌<◌, ◌≤◌, ◌+◌, ◌*◌, ◌^◌};
ghost use Rattle.address.specs.Address.{block_of};

use crate::{BlockNo, PageNo};

// 2^32 divided by each number of pages that a block can have, rounded up. No block has 0 pages or 1.
const RECIPROCALS: [u32; 65] = [
    0, 0, 2147483648, 1431655766, 1073741824, 858993460, 715827883, 613566757, 536870912,
    477218589, 429496730, 390451573, 357913942, 330382100, 306783379, 286331154, 268435456,
    252645136, 238609295, 226050911, 214748365, 204522253, 195225787, 186737709, 178956971,
    171798692, 165191050, 159072863, 153391690, 148102321, 143165577, 138547333, 134217728,
    130150525, 126322568, 122713352, 119304648, 116080198, 113025456, 110127367, 107374183,
    104755300, 102261127, 99882961, 97612894, 95443718, 93368855, 91382283, 89478486, 87652394,
    85899346, 84215046, 82595525, 81037119, 79536432, 78090315, 76695845, 75350304, 74051161,
    72796056, 71582789, 70409300, 69273667, 68174085, 67108864,
];

// The reciprocal of k: 2^32 divided by k, rounded up.
pub fn reciprocal(k: u32) -> u32
    requires { (2 ≤ k) × (k ≤ 64) }
    ensures { (2 ^ 32 ≤ result * k) × (result * k < 2 ^ 32 + k) }
{
    let at = k as usize;
    RECIPROCALS[at]
}

// The block of page n. A product with m, the reciprocal of k, says which block to look at; the comparisons decide, so that with another
// m the block is the same and takes longer to find.
pub fn block_by(n: PageNo, k: u32, m: u32) -> BlockNo
    requires { (0 < k) × (k ≤ 64) × (n.0 < 262144) }
    ensures { result ≡ block_of n k }
{
    let product = n.0 as u64 * m as u64;
    let b = BlockNo((product >> 32) as u32);
    let first = b.0 * k;
    let last = first + (k - 1);
    if n.0 < first {
        return block_before(n, k, b);
    }
    if last < n.0 {
        return block_after(n, k, b);
    }
    b
}

// The block of page n, which lies before block `start`. How many blocks before is not known, and a division is not allowed here (request
// A3), so that a `for` over the steps would be no plainer.
fn block_before(n: PageNo, k: u32, start: BlockNo) -> BlockNo
    requires { (0 < k) × (k ≤ 64) × (start.0 < 262144) × (n.0 < start.0 * k) }
    ensures { result ≡ block_of n k }
{
    let mut b = start.0;
    let mut first = start.0 * k;
    while n.0 < first {
        b -= 1;
        first -= k;
    }
    BlockNo(b)
}

// The block of page n, which lies after block `start`; a `while` for the same reason.
fn block_after(n: PageNo, k: u32, start: BlockNo) -> BlockNo
    requires { (0 < k) × (n.0 < 262144) × (start.0 * k + k ≤ n.0) }
    ensures { result ≡ block_of n k }
{
    let mut b = start.0;
    let mut last = start.0 * k + (k - 1);
    while last < n.0 {
        b += 1;
        last += k;
    }
    BlockNo(b)
}

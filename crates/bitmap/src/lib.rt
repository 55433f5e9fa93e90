// The valid pages of a frame: a set of offsets below 64 as one 64-bit number, bit i for offset i.
#![tactic(auto)]

ghost use Rattle.std.specs.Prelude.{◌≡◌, ◌<◌, ◌≤◌, ◌-◌, ◌^◌, ltb};
ghost use Rattle.prelude.specs.Scan.{first_from, count};
ghost use Rattle.prelude.specs.Bits.{bit, bit_without, with_bit, first_bits};

// Whether offset i is in the set.
pub fn has(v: u64, i: u32) -> bool
    requires { i < 64 }
    ensures { result ≡ bit v i }
{
    (v >> i) % 2 == 1
}

// The set with offset i.
pub fn with(v: u64, i: u32) -> u64
    requires { i < 64 }
    ensures { result ≡ with_bit v i }
{
    v | (1 << i)
}

// The first offset from at on, below k, that is in v and not in w; k where there is none, and no option: a run of pages ends there, and the
// next search begins there.
pub fn next(v: u64, w: u64, at: u32, k: u32) -> u32
    requires { (at ≤ k) × (k ≤ 64) }
    ensures { result ≡ first_from at (k - at) (bit_without v w) }
{
    if at == 64 {
        return 64;
    }
    let rest = (v & !w) >> at;
    let o = rest.trailing_zeros();
    if o < k - at { at + o } else { k }
}

// How many offsets are in the set.
pub fn count(v: u64) -> u32
    ensures { result ≡ count 64 (bit v) }
{
    u64::count_ones(v)
}

// The set of the offsets below k: the sets with no offset at k or above are those up to it.
pub fn first(k: u32) -> u64
    requires { k ≤ 64 }
    ensures { result ≡ first_bits k }
{
    if k == 64 {
        0xffff_ffff_ffff_ffff
    } else {
        (1 << k) - 1
    }
}

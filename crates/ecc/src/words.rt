// A chunk as words of 64 bits, and their sums by exclusive-or.
ghost use Rattle.std.specs.Prelude.{◌≡◌, ◌+◌, ◌*◌, ◌≤◌, length};
ghost use Rattle.ecc.specs.Words.{Word, Eights, Totals};

// The 8 bytes from index i on as one word, low byte first. A sum: with `u64::from_le_bytes` the codes of 2,048 bytes take 176 ns
// in place of 166.
#[tactic(auto, unfolding(crate::proofs::ByWords::word_from), using(crate::proofs::ByWords::word_is))]
fn word(s: &[u8], i: usize) -> u64
    requires { i + 8 ≤ length s.now }
    ensures { Word s.now i result }
{
    u64::from(s[i])
        + u64::from(s[i + 1]) * 0x100
        + u64::from(s[i + 2]) * 0x1_0000
        + u64::from(s[i + 3]) * 0x100_0000
        + u64::from(s[i + 4]) * 0x1_0000_0000
        + u64::from(s[i + 5]) * 0x100_0000_0000
        + u64::from(s[i + 6]) * 0x1_0000_0000_0000
        + u64::from(s[i + 7]) * 0x100_0000_0000_0000
}

// Sums, by exclusive-or, of 8 words: of all, and of those whose index has bit 0, 1, 2.
#[derive(Clone, Copy, PartialEq, Eq, Debug)]
pub struct Eight {
    pub all: u64,
    pub one: u64,
    pub two: u64,
    pub four: u64,
}

// Those of the 8 words from word i on.
fn eights(s: &[u8], i: usize) -> Eight
    requires { i * 8 + 64 ≤ length s.now }
    ensures { Eights s.now i result }
{
    let k = i * 8;
    let a = word(s, k);
    let b = word(s, k + 8);
    let c = word(s, k + 16);
    let d = word(s, k + 24);
    let e = word(s, k + 32);
    let f = word(s, k + 40);
    let g = word(s, k + 48);
    let h = word(s, k + 56);
    let cd = c ^ d;
    let gh = g ^ h;
    let high = (e ^ f) ^ gh;
    Eight {
        all: ((a ^ b) ^ cd) ^ high,
        one: (b ^ d) ^ (f ^ h),
        two: cd ^ gh,
        four: high,
    }
}

// Sums of a chunk's 32 words: of all, and of those whose index has bit 0 to 4.
#[derive(Clone, Copy, PartialEq, Eq, Debug)]
pub struct Sums {
    pub all: u64,
    pub one: u64,
    pub two: u64,
    pub four: u64,
    pub eight: u64,
    pub sixteen: u64,
}

pub fn totals(s: &[u8]) -> Sums
    requires { length s.now ≡ 256 }
    ensures { Totals s.now result }
{
    let a = eights(s, 0);
    let b = eights(s, 8);
    let c = eights(s, 16);
    let d = eights(s, 24);
    let high = c.all ^ d.all;
    Sums {
        all: (a.all ^ b.all) ^ high,
        one: (a.one ^ b.one) ^ (c.one ^ d.one),
        two: (a.two ^ b.two) ^ (c.two ^ d.two),
        four: (a.four ^ b.four) ^ (c.four ^ d.four),
        eight: b.all ^ d.all,
        sixteen: high,
    }
}

// Parities of a word's bits, by the table that is lent.
ghost use Rattle.std.specs.Prelude.{◌≡◌, ◌≤◌};
ghost use Rattle.prelude.specs.Bits.{bit};
ghost use Rattle.codes.specs.Code.{odd};
ghost use Rattle.codes.specs.Table.{entries};
ghost use Rattle.ecc.specs.Words.{num, Inners};

use crate::table;

// The parity of the low byte.
fn low(t: &[u8; 256], x: u64) -> u32
    requires { t.now ≡ entries }
    ensures { (result ≡ num (odd 8 (bit x))) × (result ≤ 1) }
{
    let b = (x % 256) as usize;
    table::entry(t, b) / 8
}

// The parity of a word.
pub fn parity(t: &[u8; 256], x: u64) -> u32
    requires { t.now ≡ entries }
    ensures { (result ≡ num (odd 64 (bit x))) × (result ≤ 1) }
{
    let y = x ^ (x >> 8);
    let z = y ^ (y >> 16);
    low(t, z ^ (z >> 32))
}

// A word's parity, and the parities of its set bits at positions that have bit i, i from 0 to 5, as digits of base 4.
#[derive(Clone, Copy, PartialEq, Eq, Debug)]
pub struct Inner {
    pub parity: u32,
    pub digits: u32,
}

pub fn within(t: &[u8; 256], x: u64) -> Inner
    requires { t.now ≡ entries }
    ensures { Inners x result }
{
    let y = x ^ (x >> 8);
    let z = y ^ (y >> 16);
    let b = ((z ^ (z >> 32)) % 256) as usize;
    let e = table::entry(t, b);
    let u = x >> 8;
    let v = u ^ (u >> 16);
    let three = low(t, v ^ (v >> 32));
    let four = low(t, (y >> 16) ^ (y >> 48));
    let five = low(t, z >> 32);
    Inner {
        parity: e / 8,
        digits: e % 2 + e / 2 % 2 * 4 + e / 4 % 2 * 16 + three * 64 + four * 256 + five * 1024,
    }
}

// One chunk: its code, how the code stored for it differs, and what that tells.
ghost use Rattle.std.specs.Prelude.{◌≡◌, ◌+◌, ◌*◌, ◌/◌, ◌≤◌, ◌<◌, length};
ghost use Rattle.prelude.specs.Bits.{bit};
ghost use Rattle.prelude.specs.Pages.{page_at};
ghost use Rattle.codes.specs.Code.{code_of};
ghost use Rattle.codes.specs.Table.{entries};
ghost use Rattle.codes.specs.Reading.{flipped, difference, leaves, pairs, addressed, code_at};

use crate::{parity, words};

// The code of a chunk, by the table that is lent. The words whose index has bit i hold the data bits whose address has bit i + 6.
pub fn code_of(t: &[u8; 256], s: &[u8]) -> u32
    requires { (t.now ≡ entries) × (length s.now ≡ 256) }
    ensures { result ≡ code_of s.now }
{
    let sums = words::totals(s);
    let w = parity::within(t, sums.all);
    let six = parity::parity(t, sums.one);
    let seven = parity::parity(t, sums.two);
    let eight = parity::parity(t, sums.four);
    let nine = parity::parity(t, sums.eight);
    let ten = parity::parity(t, sums.sixteen);
    let digits = w.digits
        + six * 0x1000
        + seven * 0x4000
        + eight * 0x1_0000
        + nine * 0x4_0000
        + ten * 0x10_0000;
    if w.parity == 1 {
        0xea_aaaa - digits
    } else {
        0xff_ffff - digits * 3
    }
}

// The code stored for chunk i.
#[tactic(auto, unfolding(codes::specs::Reading::code_at))]
fn code_at(codes: &[u8], i: usize) -> u32
    requires { i * 3 + 3 ≤ length codes.now }
    ensures { (result ≡ code_at codes.now i) × (result < 16777216) }
{
    let k = i * 3;
    u32::from_le_bytes([codes[k], codes[k + 1], codes[k + 2], 0])
}

// The set of the bits in which the code of chunk i, computed anew, and the code stored for it differ.
pub fn differing(t: &[u8; 256], page: &[u8], codes: &[u8], i: usize) -> u32
    requires { (t.now ≡ entries) × (i * 256 + 256 ≤ length page.now) × (i * 3 + 3 ≤ length codes.now) }
    ensures { (result ≡ difference (page_at 256 page.now i) (code_at codes.now i)) × (result < 16777216) }
{
    let a = i * 256;
    let e = a + 256;
    let c = code_of(t, &page[a..e]);
    let d = code_at(codes, i);
    c ^ d
}

// Whether bit i of x is 1.
#[tactic(auto, unfolding(prelude::specs::Bits::bit))]
fn has(x: u32, i: u32) -> bool
    requires { i < 24 }
    ensures { result ≡ bit x i }
{
    (x >> i) % 2 == 1
}

// Whether at most one bit differs.
#[tactic(auto, unfolding(codes::specs::Reading::leaves), using(crate::proofs::Marks::ones))]
pub fn few(x: u32) -> bool
    requires { x < 16777216 }
    ensures { result ≡ leaves x }
{
    u32::count_ones(x) <= 1
}

// Whether one bit of each pair differs, and none else.
#[tactic(auto, unfolding(codes::specs::Reading::pairs), using(crate::proofs::Marks::pairing))]
pub fn paired(x: u32) -> bool
    ensures { result ≡ pairs x }
{
    let mut ok = true;
    for i in 0..11 {
        let a = has(x, i * 2);
        let b = has(x, i * 2 + 1);
        ok = ok & (a != b);
    }
    let c = has(x, 22);
    let d = has(x, 23);
    (ok & !c) & !d
}

// The address that the pairs name.
pub fn named(x: u32) -> usize
    ensures { (result ≡ addressed x) × (result < 2048) }
{
    let mut a = 0usize;
    let mut p = 1usize;
    for i in 0..11 {
        if has(x, i * 2 + 1) {
            a += p;
        }
        p = p * 2;
    }
    a
}

// Flips the bit at address a.
#[tactic(auto, unfolding(codes::specs::Reading::flipped), using(crate::proofs::Marks::shl_byte))]
pub fn flip(chunk: &mut [u8], a: usize)
    requires { a / 8 < length chunk.old }
    ensures { chunk.new ≡ flipped chunk.old a }
{
    let k = a / 8;
    let b = a % 8;
    chunk[k] = chunk[k] ^ (1 << b);
}

// The calls on a record that is not sound: each answers refusal 4, and changes nothing.
#![tactic(auto)]

use address::PageNo;
use answer::Refusal;
use store::{Cache, Out};

// Whether every call refuses a record.
pub fn every_call(c: Cache) -> bool {
    each(c).iter().all(|refused| *refused)
}

// How many of the calls refuse a record.
pub fn calls(c: Cache) -> u64 {
    each(c).iter().filter(|refused| **refused).count() as u64
}

// Of each call whether it is refused 4 and changes nothing. A function for each below, since each is lent other things; what they judge by
// is one.
fn each(c: Cache) -> [bool; 6] {
    [
        reads(c),
        writes(c),
        parts(c),
        steps(c),
        flushes(c),
        backs(c),
    ]
}

// What is lent to a call; there are no codes, no marks and no shelf.
#[derive(Clone, Copy, PartialEq, Eq, Debug)]
struct Lent {
    flash: [u8; 32],
    wear: [u32; 8],
    pspace: [u8; 3],
    bspace: [u8; 8],
    page: [u8; 1],
}

const LENT: Lent = Lent {
    flash: [1; 32],
    wear: [2; 8],
    pspace: [3; 3],
    bspace: [4; 8],
    page: [5; 1],
};

// Whether the answer is refusal 4, and the record and what was lent are as they were.
fn refused<T: Copy>(c: Cache, lent: Lent, out: Out<Result<T, Refusal>>) -> bool {
    matches!(out.answer, Err(Refusal::Record)) && out.cache == c && lent == LENT
}

fn reads(c: Cache) -> bool {
    let mut lent = LENT;
    let u = &mut lent;
    let out = c.read(
        &u.flash,
        &[],
        &[],
        &u.wear,
        &u.pspace,
        &u.bspace,
        &[],
        PageNo(24),
        &mut u.page,
    );
    refused(c, lent, out)
}

fn writes(c: Cache) -> bool {
    let mut lent = LENT;
    let u = &mut lent;
    let out = c.write(
        &mut u.flash,
        &mut [],
        &mut [],
        &mut u.wear,
        &mut u.pspace,
        &mut u.bspace,
        &mut [],
        PageNo(30),
        &u.page,
    );
    refused(c, lent, out)
}

fn parts(c: Cache) -> bool {
    let mut lent = LENT;
    let u = &mut lent;
    let out = c.write_part(
        &mut u.flash,
        &mut [],
        &mut [],
        &mut u.wear,
        &mut u.pspace,
        &mut u.bspace,
        &mut [],
        PageNo(24),
        0,
        &[6],
        &mut u.page,
    );
    refused(c, lent, out)
}

fn steps(c: Cache) -> bool {
    let mut lent = LENT;
    let u = &mut lent;
    let out = c.flush_step(
        &mut u.flash,
        &mut [],
        &mut [],
        &mut u.wear,
        &u.pspace,
        &mut u.bspace,
        &[],
    );
    refused(c, lent, out)
}

fn flushes(c: Cache) -> bool {
    let mut lent = LENT;
    let u = &mut lent;
    let out = c.flush(
        &mut u.flash,
        &mut [],
        &mut [],
        &mut u.wear,
        &u.pspace,
        &mut u.bspace,
        &[],
    );
    refused(c, lent, out)
}

fn backs(c: Cache) -> bool {
    let mut lent = LENT;
    let u = &mut lent;
    let out = c.take_back(
        &mut u.flash,
        &mut [],
        &mut [],
        &mut u.wear,
        &mut u.pspace,
        &mut u.bspace,
        &[],
    );
    refused(c, lent, out)
}

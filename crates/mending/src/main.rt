// Runs histories of a coded store in which bits have flipped, and says what each call answers, what is in the page buffer then, and what
// stands in flash at the end. What must come out is worked out by another program from the words of requests A6 and A7 (tools/coded-rows).
#![tactic(auto)]

mod calls; // calls.rt: a store with its buffers, and one call with its line
mod report; // report.rt: the lines

use cache::Sizes;
use calls::Held;
use std::io;

fn main(rt: HostRuntime) -> io::Result<()> {
    history(&rt, "reads", 0, b"r0 r1 r2 r3 r4 r5 ")?;
    history(&rt, "way 7 mends", 0, b"w0 w5 w2 r1 ")?;
    history(&rt, "a page counts once", 0, b"w0 w5 p1 p3 ")?;
    history(&rt, "two pages count", 0, b"w0 w5 p3 ")?;
    history(
        &rt,
        "page 4 is unreadable",
        0,
        b"w5 s  w1 w0 f  p4 n4 w4 f  ",
    )?;
    history(&rt, "its block is worn", 9, b"w5 s  w0 w2 f  ")?;
    history(&rt, "a flush mends", 0, b"w0 w2 f  f  ")
}

// Opens a store whose last block has this wear, and makes the calls of a history: three bytes each, of which the first says what is
// called, and the second is the page number.
fn history(rt: &impl Print, name: &str, worn: u32, text: &[u8]) -> io::Result<()> {
    println!(rt; "{name}:")?;
    let mut codes = [255u8; 18];
    codes[3] = 166;
    codes[4] = 89;
    codes[5] = 218;
    codes[9] = 223;
    let mut held = Held::open(sizes(), flipped(), codes, [0, 0, worn]);
    for call in text.chunks_exact(3) {
        held.make(rt, calls::call_of(call[0], call[1]))?;
    }
    report::flash(rt, &held.flash)?;
    report::codes(rt, &held.codes)?;
    report::wear(rt, held.wear)
}

// Pages of one byte each, but for a bit of page 1. A data bit of page 1 is flipped, and two of page 4; the code of page 3 has one.
fn flipped() -> [u8; 1536] {
    let mut flash = [10u8; 1536];
    page::fill_page(&mut flash, 1, 256, 11);
    page::fill_page(&mut flash, 2, 256, 20);
    page::fill_page(&mut flash, 3, 256, 21);
    page::fill_page(&mut flash, 4, 256, 30);
    page::fill_page(&mut flash, 5, 256, 31);
    flash[410] = 15;
    flash[265] = 43;
    flash[1024] = 31;
    flash[1025] = 28;
    flash
}

fn sizes() -> Sizes {
    Sizes {
        page_size: 256,
        pages_per_block: 2,
        blocks: 3,
        slots: 1,
        frames: 1,
        wear_limit: 9,
        policy: 0,
        coded: 1,
        shelf_pages: 0,
        marked: 0,
    }
}

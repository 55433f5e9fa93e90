// Records that are not sound, each spoilt at one place, and how many of them every call refuses.
use crate::report;
use cache::{Directory, Sizes, VACANT};
use records::{Entry, filled, with};
use std::io;
use store::Cache;

// A sound record of S = 1, K = 4, N = 8, P = 3, B = 2, W = 9: pages 24 to 26 in its slots, all pages of blocks 0 and 1 in its
// frames, each with one use.
fn sound() -> Cache {
    let s = records::sizes(1, 4, 8, 3, 2, 9);
    Cache {
        sizes: s,
        entries: [VACANT; 8],
        directory: filled(s, 24, 1),
    }
}

// The calls on the sound record, and on it under the two other policies.
pub fn none(rt: &impl Print) -> io::Result<()> {
    report::tally(rt, "as it is", 0, refuses::calls(sound()))?;
    report::tally(rt, "under FIFO", 0, refuses::calls(under(1)))?;
    report::tally(rt, "under LFU", 0, refuses::calls(under(2)))
}

// The sound record under a policy.
fn under(policy: u32) -> Cache {
    let c = sound();
    Cache {
        sizes: records::with_options(c.sizes, policy, 0, 0, 0),
        ..c
    }
}

// Each entry of the sound record spoilt alone.
pub fn entries(rt: &impl Print) -> io::Result<()> {
    slots(rt)?;
    frames(rt)?;
    order(rt)?;
    uses(rt)?;
    past(rt)?;
    shelf(rt)
}

fn slots(rt: &impl Print) -> io::Result<()> {
    each(rt, "page 24, in slot 0, again", 1, 3, Entry::Slot(24), 2)?;
    each(rt, "page 0, valid in frame 0", 0, 3, Entry::Slot(0), 3)?;
    each(rt, "page N * K", 0, 3, Entry::Slot(32), 3)?;
    each(rt, "page vacant less 1", 0, 3, Entry::Slot(4294967294), 3)
}

fn frames(rt: &impl Print) -> io::Result<()> {
    each(rt, "block 0, in frame 0, again", 1, 2, Entry::Frame(0), 1)?;
    each(rt, "block 6, of pages in slots", 0, 2, Entry::Frame(6), 2)?;
    each(rt, "block N", 0, 2, Entry::Frame(8), 2)?;
    each(rt, "vacant with valid pages", 0, 2, Entry::Frame(VACANT), 2)?;
    each(rt, "no valid page", 0, 2, Entry::Valid(0), 2)?;
    each(rt, "valid bit at K", 0, 2, Entry::Valid(17), 2)?;
    each(
        rt,
        "valid bit at 63",
        0,
        2,
        Entry::Valid(9223372036854775809),
        2,
    )
}

fn order(rt: &impl Print) -> io::Result<()> {
    each(rt, "frame 0 again in the order", 1, 2, Entry::Order(0), 1)?;
    each(rt, "frame B in the order", 0, 2, Entry::Order(2), 2)?;
    each(rt, "frame 255 in the order", 0, 2, Entry::Order(255), 2)
}

fn uses(rt: &impl Print) -> io::Result<()> {
    each(rt, "an occupied frame with no use", 0, 2, Entry::Uses(0), 2)?;
    each(rt, "a use past B", 2, 8, Entry::Uses(1), 6)?;
    each(
        rt,
        "4294967295 uses past B",
        2,
        8,
        Entry::Uses(4294967295),
        6,
    )
}

fn past(rt: &impl Print) -> io::Result<()> {
    each(rt, "a page past P", 3, 128, Entry::Slot(30), 125)?;
    each(rt, "a block past B", 2, 8, Entry::Frame(5), 6)?;
    each(rt, "a valid page past B", 2, 8, Entry::Valid(1), 6)?;
    each(rt, "another frame past B", 2, 8, Entry::Order(0), 6)
}

// Each size short of its limit, and past it.
pub fn sizes(rt: &impl Print) -> io::Result<()> {
    sized(rt, "page of 0 bytes", 0, 4, 8, 3, 2, 9)?;
    sized(rt, "page of 2049 bytes", 2049, 4, 8, 3, 2, 9)?;
    sized(rt, "block of 1 page", 1, 1, 8, 3, 2, 9)?;
    sized(rt, "block of 65 pages", 1, 65, 8, 3, 2, 9)?;
    sized(rt, "0 blocks", 1, 4, 0, 3, 2, 9)?;
    sized(rt, "4097 blocks", 1, 4, 4097, 3, 2, 9)?;
    sized(rt, "0 slots", 1, 4, 8, 0, 2, 9)?;
    sized(rt, "129 slots", 1, 4, 8, 129, 2, 9)?;
    sized(rt, "0 frames", 1, 4, 8, 3, 0, 9)?;
    sized(rt, "9 frames", 1, 4, 8, 3, 9, 9)?;
    sized(rt, "wear limit 0", 1, 4, 8, 3, 2, 0)?;
    sized(rt, "wear limit 1000001", 1, 4, 8, 3, 2, 1000001)
}

// A vacant record of these sizes, which stand one by one so that a case is a line.
fn sized(
    rt: &impl Print,
    name: &str,
    s: u32,
    k: u32,
    n: u32,
    p: u32,
    b: u32,
    w: u32,
) -> io::Result<()> {
    vacant(rt, name, records::sizes(s, k, n, p, b, w))
}

// A number that is no policy, and each other option.
pub fn options(rt: &impl Print) -> io::Result<()> {
    opted(rt, "policy 3", 3, 0, 0, 0)?;
    opted(rt, "policy 4294967295", 4294967295, 0, 0, 0)?;
    opted(rt, "coded 1", 0, 1, 0, 0)?;
    opted(rt, "coded 2", 0, 2, 0, 0)?;
    opted(rt, "9 shelf pages", 0, 0, 9, 0)?;
    opted(rt, "4294967295 shelf pages", 0, 0, 4294967295, 0)?;
    opted(rt, "marked 2", 0, 0, 0, 2)?;
    opted(rt, "marked 4294967295", 0, 0, 0, 4294967295)
}

// A vacant record with these options.
fn opted(
    rt: &impl Print,
    name: &str,
    policy: u32,
    coded: u32,
    shelf_pages: u32,
    marked: u32,
) -> io::Result<()> {
    let s = records::sizes(1, 4, 8, 3, 2, 9);
    vacant(
        rt,
        name,
        records::with_options(s, policy, coded, shelf_pages, marked),
    )
}

// A vacant record of these sizes and options.
fn vacant(rt: &impl Print, name: &str, s: Sizes) -> io::Result<()> {
    let c = Cache {
        sizes: s,
        entries: [VACANT; 8],
        directory: Directory::vacant(),
    };
    report::tally(rt, name, 1, u64::from(refuses::every_call(c)))
}

// Each shelf entry alone in use, without shelf pages and with 2 of them, where the first may be; and the first ones in use, as many as
// there are shelf pages and more.
fn shelf(rt: &impl Print) -> io::Result<()> {
    report::tally(rt, "page 0 on the shelf", 8, shelved(0, 0))?;
    report::tally(
        rt,
        "page vacant less 1 on the shelf",
        8,
        shelved(0, 4294967294),
    )?;
    report::tally(rt, "page 0 behind a vacant entry", 7, shelved(2, 0))?;
    report::tally(rt, "page 32 on a shelf of 2 pages", 8, shelved(2, 32))?;
    report::tally(
        rt,
        "page vacant less 1 on a shelf of 2 pages",
        8,
        shelved(2, 4294967294),
    )?;
    report::tally(rt, "more entries than 2 shelf pages", 6, crowded(2))
}

// The sound record with so many shelf pages.
fn with_shelf(pages: u32) -> Cache {
    let c = sound();
    Cache {
        sizes: records::with_options(c.sizes, 0, 0, pages, 0),
        ..c
    }
}

// How many of the records with so many shelf pages, and page 0 in the first 1 to 8 entries, every call refuses. By index, since the record
// is handed on whole after each.
fn crowded(pages: u32) -> u64 {
    let mut record = with_shelf(pages);
    let mut count = 0;
    for i in 0..8 {
        record.entries[i] = 0;
        if refuses::every_call(record) {
            count += 1;
        }
    }
    count
}

// How many of the records with so many shelf pages, and one shelf entry n, every call refuses; by index, since each record is made anew.
fn shelved(pages: u32, n: u32) -> u64 {
    let mut count = 0;
    for i in 0..8 {
        let mut record = with_shelf(pages);
        record.entries[i] = n;
        if refuses::every_call(record) {
            count += 1;
        }
    }
    count
}

// The entries from one index to another, each alone replaced by x.
fn each(
    rt: &impl Print,
    name: &str,
    from: usize,
    to: usize,
    x: Entry,
    expected: u64,
) -> io::Result<()> {
    report::tally(rt, name, expected, spoilt(from, to, x))
}

// How many of these records every call refuses. By index, since the list that has the entry is another for each kind of entry.
fn spoilt(from: usize, to: usize, x: Entry) -> u64 {
    let c = sound();
    let mut count = 0;
    for i in from..to {
        let record = Cache {
            directory: with(c.directory, i, x),
            ..c
        };
        if refuses::every_call(record) {
            count += 1;
        }
    }
    count
}

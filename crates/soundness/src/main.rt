// Runs the soundness test on records whose answer document 01 settles: sizes at their limits and one past, sound records at
// the largest sizes and at others, and sound records with one entry spoilt, each entry in turn. A line for each case says what
// must come out and what came out.
#![tactic(auto)]

mod report;
mod runs;

ghost use Rattle.std.specs.Prelude.{◌≤◌};

use cache::{Directory, Sizes, VACANT};
use records::{Entry, crowded, filled, largest, middling, sizes, with_options};
use runs::entries;
use sound::directory_sound;
use std::io;

fn main(rt: HostRuntime) -> io::Result<()> {
    report::heading(&rt, "sizes, all vacant")?;
    sizes_within(&rt)?;
    sizes_short(&rt)?;
    sizes_long(&rt)?;
    options(&rt)?;
    report::heading(&rt, "the largest sizes")?;
    largest_records(&rt)?;
    report::heading(&rt, "100 slots, 5 frames, 16 pages in a block")?;
    middling_records(&rt)
}

// Each size at its limits, and the blank record.
fn sizes_within(rt: &impl Print) -> io::Result<()> {
    vacant(rt, "blank record", Sizes::blank(), false)?;
    vacant(rt, "least sizes", sizes(1, 2, 1, 1, 1, 1), true)?;
    vacant(rt, "largest sizes", largest(), true)
}

// One size short of its limit.
fn sizes_short(rt: &impl Print) -> io::Result<()> {
    vacant(rt, "page of 0 bytes", sizes(0, 2, 1, 1, 1, 1), false)?;
    vacant(rt, "block of 1 page", sizes(1, 1, 1, 1, 1, 1), false)?;
    vacant(rt, "0 blocks", sizes(1, 2, 0, 1, 1, 1), false)?;
    vacant(rt, "0 slots", sizes(1, 2, 1, 0, 1, 1), false)?;
    vacant(rt, "0 frames", sizes(1, 2, 1, 1, 0, 1), false)?;
    vacant(rt, "wear limit 0", sizes(1, 2, 1, 1, 1, 0), false)
}

// One size past its limit.
fn sizes_long(rt: &impl Print) -> io::Result<()> {
    vacant(
        rt,
        "page of 2049 bytes",
        sizes(2049, 64, 4096, 128, 8, 1000000),
        false,
    )?;
    vacant(
        rt,
        "block of 65 pages",
        sizes(2048, 65, 4096, 128, 8, 1000000),
        false,
    )?;
    vacant(
        rt,
        "4097 blocks",
        sizes(2048, 64, 4097, 128, 8, 1000000),
        false,
    )?;
    vacant(
        rt,
        "129 slots",
        sizes(2048, 64, 4096, 129, 8, 1000000),
        false,
    )?;
    vacant(
        rt,
        "9 frames",
        sizes(2048, 64, 4096, 128, 9, 1000000),
        false,
    )?;
    vacant(
        rt,
        "wear limit 1000001",
        sizes(2048, 64, 4096, 128, 8, 1000001),
        false,
    )
}

// The policies, and each other option, at the largest sizes.
fn options(rt: &impl Print) -> io::Result<()> {
    let s = largest();
    vacant(rt, "policy 1", with_options(s, 1, 0, 0, 0), true)?;
    vacant(rt, "policy 2", with_options(s, 2, 0, 0, 0), true)?;
    vacant(rt, "policy 3", with_options(s, 3, 0, 0, 0), false)?;
    vacant(
        rt,
        "policy 4294967295",
        with_options(s, 4294967295, 0, 0, 0),
        false,
    )?;
    vacant(rt, "coded 1", with_options(s, 0, 1, 0, 0), true)?;
    vacant(
        rt,
        "coded 1, page of 2040 bytes",
        with_options(sizes(2040, 64, 4096, 128, 8, 1000000), 0, 1, 0, 0),
        false,
    )?;
    vacant(rt, "coded 2", with_options(s, 0, 2, 0, 0), false)?;
    vacant(rt, "1 shelf page", with_options(s, 0, 0, 1, 0), true)?;
    vacant(rt, "8 shelf pages", with_options(s, 0, 0, 8, 0), true)?;
    vacant(rt, "9 shelf pages", with_options(s, 0, 0, 9, 0), false)?;
    vacant(rt, "marked 1", with_options(s, 0, 0, 0, 1), true)?;
    vacant(rt, "marked 2", with_options(s, 0, 0, 0, 2), false)
}

// Slots that hold the last pages, and every page of blocks 0 to 7 in the frames.
fn largest_records(rt: &impl Print) -> io::Result<()> {
    let s = largest();
    let d = filled(s, 262016, 1);
    whole(rt, "slots apart", s, d)?;
    crowded_records(rt, s)?;
    slots_in_turn(rt, s, d, 128, 262016, 262144)?;
    frames_in_turn(rt, s, d, 8, 4096)?;
    order_in_turn(rt, s, d, 8)?;
    uses_in_turn(rt, s, d, 8)
}

// Slots whose pages share remainders by 4096 with each other, or with pages in frames.
fn crowded_records(rt: &impl Print, s: Sizes) -> io::Result<()> {
    let alike = crowded(s, 512);
    whole(rt, "slots with equal remainders", s, alike)?;
    let again = entries(s, alike, 1, 128);
    again.each(rt, "page 4608, in slot 0, again", Entry::Slot(4608), 127)?;
    let met = crowded(s, 0);
    whole(rt, "slots with remainders of pages in frames", s, met)?;
    let all = entries(s, met, 0, 128);
    all.each(rt, "page 511, in frame 7, in a slot", Entry::Slot(511), 128)
}

// The same with entries past P and B, and bits past K.
fn middling_records(rt: &impl Print) -> io::Result<()> {
    let s = middling();
    let d = filled(s, 3900, 1);
    whole(rt, "slots apart", s, d)?;
    slots_in_turn(rt, s, d, 100, 3900, 4096)?;
    frames_in_turn(rt, s, d, 5, 256)?;
    order_in_turn(rt, s, d, 5)?;
    uses_in_turn(rt, s, d, 5)?;
    bits_at_k(rt, s, d)?;
    entries_past(rt, s, d)
}

// Each of the P slots in turn. Slot 0 holds page n, the others those after it, and end is N * K.
fn slots_in_turn(
    rt: &impl Print,
    s: Sizes,
    d: Directory,
    p: usize,
    n: u32,
    end: u32,
) -> io::Result<()>
    requires { 1 ≤ p }
{
    let all = p as u64;
    let slots = entries(s, d, 0, p);
    slots.each(rt, "slot vacated", Entry::Slot(VACANT), 0)?;
    slots.each(rt, "slot with the page of slot 0", Entry::Slot(n), all - 1)?;
    slots.each(
        rt,
        "slot with page 0, valid in frame 0",
        Entry::Slot(0),
        all,
    )?;
    slots.each(rt, "slot with page N * K", Entry::Slot(end), all)?;
    slots.each(rt, "slot with vacant less 1", Entry::Slot(4294967294), all)
}

// Each of the B frames in turn. Frame f holds block f, and n is N.
fn frames_in_turn(rt: &impl Print, s: Sizes, d: Directory, b: usize, n: u32) -> io::Result<()>
    requires { 1 ≤ b }
{
    let all = b as u64;
    let frames = entries(s, d, 0, b);
    frames.each(rt, "frame with block N", Entry::Frame(n), all)?;
    frames.each(rt, "frame with block 1 again", Entry::Frame(1), all - 1)?;
    frames.each(rt, "frame with no valid page", Entry::Valid(0), all)?;
    frames.each(rt, "frame with one valid page", Entry::Valid(1), 0)?;
    frames.each(
        rt,
        "frame vacant but for its bits",
        Entry::Frame(VACANT),
        all,
    )?;
    let free = entries(s, Directory::vacant(), 0, b);
    free.each(rt, "vacant frame with a valid page", Entry::Valid(1), all)
}

// Each of the first B entries of the order in turn. Entry i is i.
fn order_in_turn(rt: &impl Print, s: Sizes, d: Directory, b: u8) -> io::Result<()>
    requires { 1 ≤ b }
{
    let all = b as u64;
    let order = entries(s, d, 0, b as usize);
    order.each(rt, "order with frame 1 again", Entry::Order(1), all - 1)?;
    order.each(rt, "order with frame B", Entry::Order(b), all)?;
    order.each(rt, "order with frame 255", Entry::Order(255), all)
}

// The use counts of the B occupied frames in turn, then of all 8 frames in a vacant directory.
fn uses_in_turn(rt: &impl Print, s: Sizes, d: Directory, b: usize) -> io::Result<()> {
    let uses = entries(s, d, 0, b);
    uses.each(rt, "occupied frame with no use", Entry::Uses(0), b as u64)?;
    uses.each(rt, "occupied frame with 1 use", Entry::Uses(1), 0)?;
    uses.each(
        rt,
        "occupied frame with 4294967295 uses",
        Entry::Uses(4294967295),
        0,
    )?;
    let free = entries(s, Directory::vacant(), 0, 8);
    free.each(rt, "vacant frame with a use", Entry::Uses(1), 8)
}

// With 16 pages in a block: valid bits at 15, 16 and 63.
fn bits_at_k(rt: &impl Print, s: Sizes, d: Directory) -> io::Result<()> {
    let frames = entries(s, d, 0, 5);
    frames.each(rt, "valid bit at K - 1", Entry::Valid(32768), 0)?;
    frames.each(rt, "valid bit at K", Entry::Valid(65537), 5)?;
    frames.each(rt, "valid bit at 63", Entry::Valid(9223372036854775809), 5)
}

// With 100 slots and 5 frames: each entry past them in turn.
fn entries_past(rt: &impl Print, s: Sizes, d: Directory) -> io::Result<()> {
    let slots = entries(s, d, 100, 128);
    slots.each(rt, "slot past P with a page", Entry::Slot(200), 28)?;
    let frames = entries(s, d, 5, 8);
    frames.each(rt, "frame past B with a block", Entry::Frame(9), 3)?;
    frames.each(rt, "frame past B with a valid page", Entry::Valid(1), 3)?;
    frames.each(rt, "order past B with frame 0", Entry::Order(0), 3)?;
    frames.each(rt, "a use past B", Entry::Uses(1), 3)
}

// These sizes with nothing cached.
fn vacant(rt: &impl Print, name: &str, s: Sizes, expected: bool) -> io::Result<()> {
    report::verdict(rt, name, expected, directory_sound(s, &Directory::vacant()))
}

// A record that must be sound.
fn whole(rt: &impl Print, name: &str, s: Sizes, d: Directory) -> io::Result<()> {
    report::verdict(rt, name, true, directory_sound(s, &d))
}

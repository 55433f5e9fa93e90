// What is printed, one bracketed form a line, into a lent buffer from `at` on. Each function gives the place after it. No `Display`: the
// clause `Printed` says which bytes of the buffer are what, and which stay.
#![tactic(auto)]

ghost use Rattle.std.specs.Prelude.{◌≡◌, [], ◌∷◌, ◌++◌, map, ◌+◌, ◌*◌, ◌≤◌, length};
ghost use Rattle.model.specs.Sizes.{vacant};
ghost use Rattle.model.specs.Calls.{open_done, read_done, write_done, step_done, step_clean, flush_done, refused};
ghost use Rattle.print.specs.Text.{last_digit, decimal};
ghost use Rattle.print.specs.Print.{Printed, line_room, wear_room, spaced, open_line, write_line, read_line, step_line, flush_line};
ghost use Rattle.print.specs.Print.{wear_line, bad_line, refusal, erased};

use address::{BlockNo, PageNo};
use cache::VACANT;

// (bad n), for line n.
pub fn put_bad(out: &mut [u8], at: usize, n: u32) -> usize
    requires { at + line_room ≤ length out.old }
    ensures { Printed line_room (bad_line n) out.old at out.new result }
{
    let next = put_field(out, at, b"(bad ", n);
    put_bytes(out, next, b"\n")
}

// (open (done))
pub fn put_open(out: &mut [u8], at: usize) -> usize
    requires { at + line_room ≤ length out.old }
    ensures { Printed line_room (open_line open_done) out.old at out.new result }
{
    put_bytes(out, at, b"(open (done))\n")
}

// (write n (way w) (erased b) (merged m)). What is erased is an entry: a block number, or VACANT for none.
pub fn put_write(out: &mut [u8], at: usize, n: PageNo, way: u32, erased: u32, merged: u32) -> usize
    requires { at + line_room ≤ length out.old }
    ensures { Printed line_room (write_line n.0 (write_done way erased merged)) out.old at out.new result }
{
    let after_call = put_number(out, at, b"(write ", n.0);
    let after_way = put_field(out, after_call, b" (way ", way);
    let after_erased = put_erased(out, after_way, erased);
    let after_merged = put_field(out, after_erased, b" (merged ", merged);
    put_bytes(out, after_merged, b")\n")
}

// (read n (way w) (byte b))
pub fn put_read(out: &mut [u8], at: usize, n: PageNo, way: u32, byte: u8) -> usize
    requires { at + line_room ≤ length out.old }
    ensures { Printed line_room (read_line n.0 (read_done way) byte) out.old at out.new result }
{
    let after_call = put_number(out, at, b"(read ", n.0);
    let after_way = put_field(out, after_call, b" (way ", way);
    let after_byte = put_field(out, after_way, b" (byte ", byte as u32);
    put_bytes(out, after_byte, b")\n")
}

// (step (block b) (merged m))
pub fn put_step(out: &mut [u8], at: usize, block: BlockNo, merged: u32) -> usize
    requires { at + line_room ≤ length out.old }
    ensures { Printed line_room (step_line (step_done block.0 merged)) out.old at out.new result }
{
    let after_block = put_field(out, at, b"(step (block ", block.0);
    let after_merged = put_field(out, after_block, b" (merged ", merged);
    put_bytes(out, after_merged, b")\n")
}

// (step clean)
pub fn put_clean(out: &mut [u8], at: usize) -> usize
    requires { at + line_room ≤ length out.old }
    ensures { Printed line_room (step_line step_clean) out.old at out.new result }
{
    put_bytes(out, at, b"(step clean)\n")
}

// (flush (rewrites r) (merged m))
pub fn put_flush(out: &mut [u8], at: usize, rewrites: u32, merged: u32) -> usize
    requires { at + line_room ≤ length out.old }
    ensures { Printed line_room (flush_line (flush_done rewrites merged)) out.old at out.new result }
{
    let after_rewrites = put_field(out, at, b"(flush (rewrites ", rewrites);
    let after_merged = put_field(out, after_rewrites, b" (merged ", merged);
    put_bytes(out, after_merged, b")\n")
}

// (open (refused r))
pub fn put_open_refused(out: &mut [u8], at: usize, number: u32) -> usize
    requires { at + line_room ≤ length out.old }
    ensures { Printed line_room (open_line (refused number vacant)) out.old at out.new result }
{
    let next = put_bytes(out, at, b"(open");
    put_refused(out, next, number)
}

// (write n (refused r))
pub fn put_write_refused(out: &mut [u8], at: usize, n: PageNo, number: u32) -> usize
    requires { at + line_room ≤ length out.old }
    ensures { Printed line_room (write_line n.0 (refused number vacant)) out.old at out.new result }
{
    let next = put_number(out, at, b"(write ", n.0);
    put_refused(out, next, number)
}

// (read n (refused r))
pub fn put_read_refused(out: &mut [u8], at: usize, n: PageNo, number: u32) -> usize
    requires { at + line_room ≤ length out.old }
    ensures { Printed line_room (read_line n.0 (refused number vacant) 0) out.old at out.new result }
{
    let next = put_number(out, at, b"(read ", n.0);
    put_refused(out, next, number)
}

// (step (refused r))
pub fn put_step_refused(out: &mut [u8], at: usize, number: u32) -> usize
    requires { at + line_room ≤ length out.old }
    ensures { Printed line_room (step_line (refused number vacant)) out.old at out.new result }
{
    let next = put_bytes(out, at, b"(step");
    put_refused(out, next, number)
}

// (flush (refused r))
pub fn put_flush_refused(out: &mut [u8], at: usize, number: u32) -> usize
    requires { at + line_room ≤ length out.old }
    ensures { Printed line_room (flush_line (refused number vacant)) out.old at out.new result }
{
    let next = put_bytes(out, at, b"(flush");
    put_refused(out, next, number)
}

// (wear w0 w1 ..), a number for each block.
pub fn put_wear(out: &mut [u8], at: usize, wear: &[u32]) -> usize
    requires { at + wear_room (length wear.now) ≤ length out.old }
    ensures { Printed (wear_room (length wear.now)) (wear_line wear.now) out.old at out.new result }
{
    let next = put_bytes(out, at, b"(wear");
    let end = put_numbers(out, next, wear);
    put_bytes(out, end, b")\n")
}

// The bytes of lead, and n in decimal.
fn put_number(out: &mut [u8], at: usize, lead: &[u8], n: u32) -> usize
    requires { at + (length lead.now + 10) ≤ length out.old }
    ensures { Printed (length lead.now + 10) (lead.now ++ decimal n) out.old at out.new result }
{
    let next = put_bytes(out, at, lead);
    put_decimal(out, next, n)
}

// Each number in decimal, after a space.
pub fn put_numbers(out: &mut [u8], at: usize, numbers: &[u32]) -> usize
    requires { at + 11 * length numbers.now ≤ length out.old }
    ensures { let d = numbers.entry in
        Printed (11 * length d.now) (spaced (map decimal d.now)) out.old at out.new result }
{
    let mut next = at;
    for &n in numbers {
        out[next] = b' ';
        next = put_decimal(out, next + 1, n);
    }
    next
}

// The same and a closing bracket.
pub fn put_field(out: &mut [u8], at: usize, lead: &[u8], n: u32) -> usize
    requires { at + (length lead.now + 11) ≤ length out.old }
    ensures { Printed (length lead.now + 11) (lead.now ++ (decimal n ++ (41 ∷ []))) out.old at
        out.new result }
{
    let next = put_number(out, at, lead, n);
    out[next] = b')';
    next + 1
}

// The block erased, after a space, or none where the entry is VACANT.
fn put_erased(out: &mut [u8], at: usize, block: u32) -> usize
    requires { at + 20 ≤ length out.old }
    ensures { Printed 20 (32 ∷ erased block) out.old at out.new result }
{
    if block == VACANT {
        return put_bytes(out, at, b" (erased none)");
    }
    put_field(out, at, b" (erased ", block)
}

// The number of a refusal, after a space, and the end of the line.
pub fn put_refused(out: &mut [u8], at: usize, number: u32) -> usize
    requires { at + 23 ≤ length out.old }
    ensures { Printed 23 (32 ∷ (refusal number ++ (41 ∷ (10 ∷ [])))) out.old at out.new result }
{
    let next = put_field(out, at, b" (refused ", number);
    put_bytes(out, next, b")\n")
}

// The last digit of n.
fn digit(n: u32) -> u8
    ensures { result ≡ last_digit n }
{
    48 + (n % 10) as u8
}

// The bytes of src.
#[tactic(auto, unfolding(crate::specs::Print::put_at))]
pub fn put_bytes(out: &mut [u8], at: usize, src: &[u8]) -> usize
    requires { at + length src.now ≤ length out.old }
    ensures { Printed (length src.now) src.now out.old at out.new result }
{
    let end = at + src.len();
    out[at..end].copy_from_slice(src);
    end
}

// n in decimal.
pub fn put_decimal(out: &mut [u8], at: usize, n: u32) -> usize
    requires { at + length (decimal n) ≤ length out.old }
    ensures { Printed (length (decimal n)) (decimal n) out.old at out.new result }
{
    if n < 10 {
        out[at] = digit(n);
        return at + 1;
    }
    let next = put_decimal(out, at, n / 10);
    out[next] = digit(n);
    next + 1
}

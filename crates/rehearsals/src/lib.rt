// Lines that ask for rehearsals, and what is printed for them: into a lent buffer and with no `Display`, since the clause `Printed` says
// which bytes of it are what.
#![tactic(auto)]

mod parse; // parse.rt: what a line says

ghost use Rattle.std.specs.Prelude.{◌≡◌, ◌+◌, ◌≤◌, ◌<◌, length, take, drop};
ghost use Rattle.print.specs.Print.{Printed};
ghost use Rattle.script.specs.Parts.{up_to, end_of};
ghost use Rattle.rehearsals.specs.Lines.{room, tally_line, rehearse_line, line_of, printed_for};
ghost use Rattle.rehearsals.specs.Parts.{ways_put, sums_put, LineDone};

use rehearsal::Setting;
use tally::Tallies;

// The place of the next line, and how many bytes are printed.
#[derive(Clone, Copy, PartialEq, Eq, Debug)]
pub struct Done {
    pub next: usize,
    pub printed: usize,
}

// Carries out the line at a place of a script, which has this number, and prints it into out from the first byte on.
pub fn line_at(script: &[u8], at: usize, number: u32, out: &mut [u8]) -> Done
    requires { (at < length script.now) × (room ≤ length out.old) }
    ensures { LineDone script.now at number result out.new }
{
    let e = script::end_of(script, at, b'\n');
    let line = parse::line_of(&script[at..e]);
    let printed = put_line(out, line, number);
    Done {
        next: e + 1,
        printed,
    }
}

// The line that is printed for a line of this number, which asks for a rehearsal or is bad.
fn put_line(out: &mut [u8], line: Option<Setting>, number: u32) -> usize
    requires { room ≤ length out.old }
    ensures { Printed room (printed_for line number) out.old 0 out.new result }
{
    match line {
        Some(z) => put_rehearsal(out, z),
        None => print::put_bad(out, 0, number),
    }
}

// (rehearse (reads ..) (writes ..) (erased e) (merged m) (refused r)), or (rehearse (refused 1)).
fn put_rehearsal(out: &mut [u8], z: Setting) -> usize
    requires { room ≤ length out.old }
    ensures { Printed room (rehearse_line z) out.old 0 out.new result }
{
    let r = rehearsal::rehearse(z);
    let answer = r.answer;
    let tallies = r.tallies;
    match answer {
        Ok(_) => put_tallies(out, tallies),
        Err(_) => {
            let next = print::put_bytes(out, 0, b"(rehearse");
            print::put_refused(out, next, 1)
        }
    }
}

// The tallies: reads by ways 1 to 3, writes by ways 1 to 7, erasures, merge reads, refused calls.
fn put_tallies(out: &mut [u8], t: Tallies) -> usize
    requires { room ≤ length out.old }
    ensures { Printed room (tally_line t) out.old 0 out.new result }
{
    let reads = t.reads;
    let writes = t.writes;
    let next = put_ways(out, &reads[1..4], &writes[1..8]);
    put_sums(out, next, t.erased, t.merged, t.refused)
}

// The line up to the last number of the writes.
fn put_ways(out: &mut [u8], reads: &[u32], writes: &[u32]) -> usize
    requires { (room ≤ length out.old) × (length reads.now ≤ 3) × (length writes.now ≤ 7) }
    ensures { Printed 135 (ways_put reads.now writes.now) out.old 0 out.new result }
{
    let after_word = print::put_bytes(out, 0, b"(rehearse (reads");
    let after_reads = print::put_numbers(out, after_word, reads);
    let before_writes = print::put_bytes(out, after_reads, b") (writes");
    print::put_numbers(out, before_writes, writes)
}

// The line from there on.
fn put_sums(out: &mut [u8], at: usize, erased: u32, merged: u32, refused: u32) -> usize
    requires { at + 64 ≤ length out.old }
    ensures { Printed 64 (sums_put erased merged refused) out.old at out.new result }
{
    let after_erased = print::put_field(out, at, b") (erased ", erased);
    let after_merged = print::put_field(out, after_erased, b" (merged ", merged);
    let after_refused = print::put_field(out, after_merged, b" (refused ", refused);
    print::put_bytes(out, after_refused, b")\n")
}

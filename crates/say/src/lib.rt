// The line of a call's answer, printed from the buffer's first byte on. Each function gives the bytes printed. No `Display`: the clause
// `Printed` says which bytes of the buffer are what, and which stay.
#![tactic(auto)]

pub mod numbers; // numbers.rt: the lines of reads and writes whose answers are in numbers

ghost use Rattle.std.specs.Prelude.{◌≤◌, length};
ghost use Rattle.answer.specs.Numbers.{opening_of, read_of, write_of, step_of, flush_of};
ghost use Rattle.print.specs.Print.{Printed, line_room, open_line, write_line, read_line, step_line, flush_line};

use address::PageNo;
use answer::{Flush, Opening, Read, Refusal, Step, Write};
use replies::number;

// An opening's.
pub fn opening(out: &mut [u8], answer: Result<Opening, Refusal>) -> usize
    requires { line_room ≤ length out.old }
    ensures { Printed line_room (open_line (opening_of answer)) out.old 0 out.new result }
{
    match answer {
        Ok(_) => print::put_open(out, 0),
        Err(why) => print::put_open_refused(out, 0, number(why)),
    }
}

// A write's, of page n. Its way goes on as a number, since way 7 is printed beside the others.
pub fn write(out: &mut [u8], n: PageNo, answer: Result<Write, Refusal>) -> usize
    requires { line_room ≤ length out.old }
    ensures { Printed line_room (write_line n.0 (write_of answer)) out.old 0 out.new result }
{
    numbers::write(out, n, answer::numbers::of_write(answer))
}

// A read's, of page n, with the page's first byte.
pub fn read(out: &mut [u8], n: PageNo, answer: Result<Read, Refusal>, byte: u8) -> usize
    requires { line_room ≤ length out.old }
    ensures { Printed line_room (read_line n.0 (read_of answer) byte) out.old 0 out.new result }
{
    numbers::read(out, n, answer::numbers::of_read(answer), byte)
}

// A flush step's.
pub fn step(out: &mut [u8], answer: Result<Option<Step>, Refusal>) -> usize
    requires { line_room ≤ length out.old }
    ensures { Printed line_room (step_line (step_of answer)) out.old 0 out.new result }
{
    match answer {
        Ok(Some(done)) => print::put_step(out, 0, done.block, done.merged),
        Ok(None) => print::put_clean(out, 0),
        Err(why) => print::put_step_refused(out, 0, number(why)),
    }
}

// A flush's.
pub fn flush(out: &mut [u8], answer: Result<Flush, Refusal>) -> usize
    requires { line_room ≤ length out.old }
    ensures { Printed line_room (flush_line (flush_of answer)) out.old 0 out.new result }
{
    match answer {
        Ok(done) => print::put_flush(out, 0, done.rewrites, done.merged),
        Err(why) => print::put_flush_refused(out, 0, number(why)),
    }
}

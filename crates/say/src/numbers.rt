// The lines of reads and writes whose answers are in numbers: of any way.
ghost use Rattle.std.specs.Prelude.{◌≤◌, length};
ghost use Rattle.answer.specs.ByNumber.{numbered_read, numbered_write};
ghost use Rattle.print.specs.Print.{Printed, line_room, write_line, read_line};

use address::PageNo;
use answer::Refusal;
use answer::numbers::{Read, Write};
use replies::number;

// A write's, of page n.
pub fn write(out: &mut [u8], n: PageNo, answer: Result<Write, Refusal>) -> usize
    requires { line_room ≤ length out.old }
    ensures { Printed line_room (write_line n.0 (numbered_write answer)) out.old 0 out.new result }
{
    match answer {
        Ok(done) => print::put_write(out, 0, n, done.way, done.block.0, done.merged),
        Err(why) => print::put_write_refused(out, 0, n, number(why)),
    }
}

// A read's, of page n, with the page's first byte.
pub fn read(out: &mut [u8], n: PageNo, answer: Result<Read, Refusal>, byte: u8) -> usize
    requires { line_room ≤ length out.old }
    ensures { Printed line_room (read_line n.0 (numbered_read answer) byte) out.old 0 out.new result }
{
    match answer {
        Ok(done) => print::put_read(out, 0, n, done.way, byte),
        Err(why) => print::put_read_refused(out, 0, n, number(why)),
    }
}

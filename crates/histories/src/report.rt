// The lines that the program writes.
ghost use Rattle.std.specs.Prelude.{◌≤◌, length};

use crate::compare::{Line, alike, line_of};
use std::io;

// A line before the cases of one kind. soundness has the same: a crate for the two would be longer.
pub fn heading(rt: &impl Print, name: &str) -> io::Result<()> {
    println!(rt; "{name}:")
}

// A script whose files are not there.
pub fn missing(rt: &impl Print, name: &[u8], other: &[u8]) -> io::Result<()> {
    rt.write_all(name)?;
    print!(rt; ": cannot read it, or ")?;
    rt.write_all(other)?;
    println!(rt; "")
}

// A script, the file with what it must print, and what it printed.
pub fn compared(
    rt: &impl Print,
    name: &[u8],
    other: &[u8],
    expected: &[u8],
    got: &[u8],
) -> io::Result<()> {
    rt.write_all(name)?;
    let n = alike(expected, got);
    if n == expected.len() && n == got.len() {
        print!(rt; ": passed, {n} bytes as in ")?;
        rt.write_all(other)?;
        return println!(rt; "");
    }
    print!(rt; ": DIFFERS from ")?;
    rt.write_all(other)?;
    difference(rt, expected, got, n)
}

// Where two texts differ, and the line of each there.
fn difference(rt: &impl Print, expected: &[u8], got: &[u8], at: usize) -> io::Result<()>
    requires { (at ≤ length expected.now) × (at ≤ length got.now) }
{
    let Line { start, number } = line_of(expected, at);
    print!(rt; " after {at} bytes, in line {number}: expected ")?;
    line(rt, expected, start)?;
    print!(rt; ", got ")?;
    line(rt, got, start)?;
    println!(rt; "")
}

// The line that starts at a place.
fn line(rt: &impl Print, s: &[u8], at: usize) -> io::Result<()>
    requires { at ≤ length s.now }
{
    let e = script::end_of(s, at, b'\n');
    rt.write_all(&s[at..e])
}

// How many calls, or records, must be refused 4, with nothing changed, and how many were.
pub fn tally(rt: &impl Print, name: &str, expected: u64, got: u64) -> io::Result<()> {
    println!(rt; "{name}: expected {expected} refused, got {got}")
}

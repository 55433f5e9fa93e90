// Rehearses classes: reads lines (rehearse ..) from standard input, and prints the tallies of each.
#![tactic(auto)]

ghost use Rattle.std.specs.Prelude.{◌≡◌, length, take, drop, IfOk, OnOk, OnErr};
ghost use Rattle.std.specs.Io.KnownBytes.{Appends};
ghost use Rattle.rehearsals.specs.Lines.{output_of};
ghost use Rattle.streams.specs.Streams.{AppendsFirst};

use std::io;
use std::io::Write;

fn main(rt: HostRuntime) -> io::Result<()> {
    let mut input = [0u8; 65536];
    let n = streams::read_full(&mut rt.stdin(), &mut input)?;
    run(&mut rt.stdout(), &input[..n])?;
    Ok(())
}

// Writes the output of a script line by line, and gives how many bytes it wrote: all of it. Where a write fails, the output's first bytes
// are written.
fn run<W: Write>(to: &mut W, script: &[u8]) -> io::Result<usize>
    ensures count { IfOk result (λ n. n ≡ length (output_of script.now)) }
    ensures ok { OnOk result (Appends (W.contents to.old) (W.contents to.new) (output_of script.now)) }
    ensures err { OnErr result (AppendsFirst (W.contents to.old) (W.contents to.new) (output_of script.now)) }
{
    let mut out = [0u8; 256];
    if script.len() > 32768 {
        let n = print::put_bad(&mut out, 0, 0);
        put(to, script, 0, &out[..n])?;
        return Ok(n);
    }
    let mut at: usize = 0;
    let mut number: u32 = 1;
    let mut done: usize = 0;
    // No `for`: where the next line starts only the line before it tells.
    while at < script.len() {
        let r = rehearsals::line_at(script, at, number, &mut out);
        let printed = r.printed;
        put(to, script, done, &out[..printed])?;
        done += printed;
        at = r.next;
        number += 1;
    }
    Ok(done)
}

// Writes the bytes that the script's output has next after the first `done`. Script and place are lent for the contract alone, which speaks
// of this program's output, and that in clash of its own.
fn put<W: Write>(to: &mut W, script: &[u8], done: usize, bytes: &[u8]) -> io::Result<()>
    requires { bytes.now ≡ take (length bytes.now) (drop done (output_of script.now)) }
    ensures ok { OnOk result (Appends (W.contents to.old) (W.contents to.new) bytes.now) }
    ensures err { OnErr result (AppendsFirst (W.contents to.old) (W.contents to.new) bytes.now) }
{
    streams::write_full(to, bytes)
}

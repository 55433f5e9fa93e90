// The script program: reads a script from standard input and prints one bracketed form for each of its lines.
#![tactic(auto)]

ghost use Rattle.std.specs.Prelude.{◌≡◌, length, take, drop, IfOk, OnOk, OnErr};
ghost use Rattle.std.specs.Io.KnownBytes.{Appends};
ghost use Rattle.interpret.specs.Lines.{output_of};
ghost use Rattle.streams.specs.Streams.{AppendsFirst};

use std::io;
use std::io::Write;

fn main(rt: HostRuntime) -> io::Result<()> {
    let mut input = [0u8; 65536];
    let n = streams::read_full(&mut rt.stdin(), &mut input)?;
    run(&mut rt.stdout(), &input[..n])?;
    Ok(())
}

// Writes the output of a script part by part, and gives how many bytes it wrote: all of it. Where a write fails, the output's first bytes
// are written.
fn run<W: Write>(to: &mut W, script: &[u8]) -> io::Result<usize>
    ensures count { IfOk result (λ n. n ≡ length (output_of script.now)) }
    ensures ok { OnOk result (Appends (W.contents to.old) (W.contents to.new) (output_of script.now)) }
    ensures err { OnErr result (AppendsFirst (W.contents to.old) (W.contents to.new) (output_of script.now)) }
{
    let mut flash = [0u8; 32768];
    let mut wear = [0u32; 4096];
    let mut pspace = [0u8; 32768];
    let mut bspace = [0u8; 32768];
    let mut page = [0u8; 2048];
    let mut out = [0u8; 49152];
    let mut w = walk::start(script, &mut out);
    let mut done: usize = 0;
    // No `for`: how much a part prints, and whether it is the last, only the walk tells.
    loop {
        w = walk::run(
            script,
            w,
            &mut flash,
            &mut wear,
            &mut pspace,
            &mut bspace,
            &mut page,
            &mut out,
        );
        let printed = w.printed;
        put(to, script, done, &out[..printed])?;
        done += printed;
        if w.at >= script.len() {
            return Ok(done);
        }
        w.printed = 0;
    }
}

// Writes the bytes that the script's output has next after the first `done`. Script and place are lent for the contract alone, which speaks
// of this program's output, and that in rehearse of its own.
fn put<W: Write>(to: &mut W, script: &[u8], done: usize, bytes: &[u8]) -> io::Result<()>
    requires { bytes.now ≡ take (length bytes.now) (drop done (output_of script.now)) }
    ensures ok { OnOk result (Appends (W.contents to.old) (W.contents to.new) bytes.now) }
    ensures err { OnErr result (AppendsFirst (W.contents to.old) (W.contents to.new) bytes.now) }
{
    streams::write_full(to, bytes)
}

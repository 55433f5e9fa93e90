// Whole reads into a buffer of fixed size and whole writes of one, over any reader and writer. The contracts say what is read and written
// in full, and what an error leaves.
#![tactic(auto)]

ghost use Rattle.std.specs.Prelude.{◌≢◌, ◌≡◌, ◌↔◌, ◌<◌, ◌≤◌, length, take, IfOk, IfErr, IsTrue, OnOk, OnErr};
ghost use Rattle.std.specs.Io.{ReadsAtMost, WritesAtMost};
ghost use Rattle.std.specs.Io.KnownBytes.{Appends, Consumes, IsAtEnd, Keeps};
ghost use Rattle.std.specs.IoError.{error_kind};
ghost use Rattle.streams.specs.Streams.{AppendsFirst, ConsumesFirst};

use std::io;
use std::io::{ErrorKind, Read, Write};

// Whether a signal came before a byte was moved.
fn is_interrupted(e: &io::Error) -> bool
    ensures { IsTrue result ↔ (error_kind e.now ≡ ErrorKind.Interrupted) }
{
    e.kind() == ErrorKind::Interrupted
}

// One read, again where a signal interrupts it: up to 2^64 - 1 times, since each function must end.
fn read_again<R: Read>(from: &mut R, into: &mut [u8]) -> io::Result<usize>
    ensures within { ReadsAtMost result into.new }
    ensures bytes { IfOk result (λ n. Consumes (R.remaining from.old) (R.remaining from.new) (take n into.new)) }
    ensures end { IfOk result (λ n. n ≡ 0 → 0 < length into.old → IsAtEnd (R.remaining from.new)) }
    ensures err { OnErr result (Keeps (R.remaining from.old) (R.remaining from.new)) }
    ensures retried { IfErr result (λ e. error_kind e ≢ ErrorKind.Interrupted) }
{
    for _ in 0..u64::MAX {
        match from.read(into) {
            Ok(n) => return Ok(n),
            Err(e) => {
                if !is_interrupted(&e) {
                    return Err(e);
                }
            }
        }
    }
    Err(io::Error::from(ErrorKind::TimedOut))
}

// One write, again where a signal interrupts it, as often as a read.
fn write_again<W: Write>(to: &mut W, bytes: &[u8]) -> io::Result<usize>
    ensures within { WritesAtMost result bytes.now }
    ensures ok { IfOk result (λ n. Appends (W.contents to.old) (W.contents to.new) (take n bytes.now)) }
    ensures err { OnErr result (Keeps (W.contents to.old) (W.contents to.new)) }
    ensures retried { IfErr result (λ e. error_kind e ≢ ErrorKind.Interrupted) }
{
    for _ in 0..u64::MAX {
        match to.write(bytes) {
            Ok(n) => return Ok(n),
            Err(e) => {
                if !is_interrupted(&e) {
                    return Err(e);
                }
            }
        }
    }
    Err(io::Error::from(ErrorKind::TimedOut))
}

// Reads until `into` is full or the input ends, also past a signal that interrupts, and gives how many bytes stand at the start of `into`
// then. A turn goes on by as many bytes as were read, which a `for` cannot; std's `read_exact` says too little of an error.
pub fn read_full<R: Read>(from: &mut R, into: &mut [u8]) -> io::Result<usize>
    ensures within { ReadsAtMost result into.new }
    ensures bytes { IfOk result (λ n. Consumes (R.remaining from.old) (R.remaining from.new) (take n into.new)) }
    ensures end { IfOk result (λ n. n < length into.new → IsAtEnd (R.remaining from.new)) }
    ensures err { OnErr result (ConsumesFirst (R.remaining from.old) (R.remaining from.new)) }
    ensures retried { IfErr result (λ e. error_kind e ≢ ErrorKind.Interrupted) }
{
    let mut done = 0;
    while done < into.len() {
        let n = read_again(from, &mut into[done..])?;
        if n == 0 {
            return Ok(done);
        }
        done += n;
    }
    Ok(done)
}

// Writes all bytes, also past a signal that interrupts. A turn goes on by as many bytes as were written.
pub fn write_full<W: Write>(to: &mut W, bytes: &[u8]) -> io::Result<()>
    ensures ok { OnOk result (Appends (W.contents to.old) (W.contents to.new) bytes.now) }
    ensures err { OnErr result (AppendsFirst (W.contents to.old) (W.contents to.new) bytes.now) }
    ensures retried { IfErr result (λ e. error_kind e ≢ ErrorKind.Interrupted) }
{
    let mut done = 0;
    while done < bytes.len() {
        let n = write_again(to, &bytes[done..])?;
        if n == 0 {
            return Err(io::Error::from(ErrorKind::WriteZero));
        }
        done += n;
    }
    Ok(())
}

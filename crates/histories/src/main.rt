// Runs the histories of document 01 that are to be run, and says of each what was expected and what came out: scripts against
// what they must print, and the calls on records with one entry spoilt, each entry in turn.
#![tactic(auto)]

mod compare;
mod report;
mod spoilt;

ghost use Rattle.std.specs.Prelude.{◌≡◌, ◌≤◌, length, take, IfOk, OnErr, IfSome};

use std::env::FillError;
use std::rt::{Env, Files};
use std::{fs, io, str};

fn main(rt: HostRuntime) -> io::Result<()> {
    report::heading(&rt, "scripts")?;
    scripts(&rt)?;
    report::heading(&rt, "script A against a wrong expectation")?;
    check(&rt, b"script-a.in", b"wrong.out")?;
    report::heading(&rt, "calls on a sound record")?;
    spoilt::none(&rt)?;
    report::heading(&rt, "records with an entry spoilt, by every call")?;
    spoilt::entries(&rt)?;
    report::heading(&rt, "records with a size beyond its limits, by every call")?;
    spoilt::sizes(&rt)?;
    report::heading(&rt, "records with an option, by every call")?;
    spoilt::options(&rt)
}

// The arguments name a script and what it must print, in turn. Over their numbers, since nothing says how many there are; up to a number
// that none has, since each function must end.
fn scripts(rt: &(impl Env + Files + Print)) -> io::Result<()> {
    for i in 0..usize::MAX / 4 {
        if !pair(rt, 2 * i + 1, 2 * i + 2)? {
            return Ok(());
        }
    }
    Ok(())
}

// The script that argument a names, against what argument b names. False where there is no argument a.
fn pair(rt: &(impl Env + Files + Print), a: usize, b: usize) -> io::Result<bool> {
    let mut script = [0u8; 4096];
    let mut expected = [0u8; 4096];
    let Some(n) = argument(rt, a, &mut script) else {
        return Ok(false);
    };
    let m = argument(rt, b, &mut expected).unwrap_or(0);
    check(rt, &script[..n], &expected[..m])?;
    Ok(true)
}

// Puts an argument at the start of a buffer, where there is one. One that is longer than the buffer is taken as empty.
fn argument(rt: &impl Env, i: usize, into: &mut [u8]) -> Option<usize>
    ensures { IfSome result (λ n. (n ≤ length into.new) × (n ≡ length (take n into.new))) }
{
    match rt.arg(i, into) {
        Ok(n) => Some(n),
        Err(FillError::TooLong) => Some(0),
        Err(FillError::NotPresent) => None,
    }
}

// Runs a script through the script library and compares what it prints with a file.
fn check(rt: &(impl Files + Print), name: &[u8], other: &[u8]) -> io::Result<()> {
    let mut script = [0u8; 65536];
    let mut expected = [0u8; 131072];
    let mut got = [0u8; 131072];
    let n = load(rt, name, &mut script)?;
    let m = load(rt, other, &mut expected)?;
    let (Some(n), Some(m)) = (n, m) else {
        return report::missing(rt, name, other);
    };
    let k = walk::output(&script[..n], &mut got);
    report::compared(rt, name, other, &expected[..m], &got[..k])
}

// Reads a file into a buffer, where it can be opened: how many bytes stand there. The buffer keeps its length, and where reading fails,
// other bytes may stand in it.
fn load(rt: &impl Files, path: &[u8], into: &mut [u8]) -> io::Result<Option<usize>>
    ensures ok { IfOk result (λ r. IfSome r (λ n. (n ≤ length into.new) × (n ≡ length (take n into.new)))) }
    ensures err { OnErr result (length into.new ≡ length into.old) }
{
    let Some(mut file) = open(rt, path) else {
        return Ok(None);
    };
    let n = streams::read_full(&mut file, into)?;
    Ok(Some(n))
}

// Opens a file, where it can be. A name is UTF-8 text, as std takes it.
fn open<R: Files>(rt: &R, path: &[u8]) -> Option<R::File> {
    match str::from_utf8(path) {
        Ok(name) => fs::open(rt, name).ok(),
        Err(_) => None,
    }
}

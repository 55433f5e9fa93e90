// The lines that the program writes.
use std::io;

// A line before the cases of one kind, as histories has it.
pub fn heading(rt: &impl Print, name: &str) -> io::Result<()> {
    println!(rt; "{name}:")
}

// A case with one record: whether it must be sound, and whether it was found so.
pub fn verdict(rt: &impl Print, name: &str, expected: bool, got: bool) -> io::Result<()> {
    let must = word(expected);
    let is = word(got);
    println!(rt; "{name}: expected {must}, got {is}")
}

// A case with a record for each of some entries: how many must be unsound, and how many were found so.
pub fn tally(rt: &impl Print, name: &str, expected: u64, got: u64) -> io::Result<()> {
    println!(rt; "{name}: expected {expected} unsound, got {got}")
}

fn word(sound: bool) -> &'static str {
    if sound { "sound" } else { "unsound" }
}

// Two texts compared byte for byte.
ghost use Rattle.std.specs.Prelude.{◌≤◌, length};
ghost use Rattle.histories.specs.Alike.{Alike};

// How many bytes a and b begin with alike.
#[tactic(auto, using(crate::proofs::Comparing::one_more))]
pub fn alike(a: &[u8], b: &[u8]) -> usize
    ensures { Alike a.now b.now result }
{
    let shorter = a.len().min(b.len());
    // By index: two texts go in step, and the place where they part is the answer.
    for n in 0..shorter {
        if a[n] != b[n] {
            return n;
        }
    }
    shorter
}

// A line of a text: where it starts, and its number.
#[derive(Clone, Copy, PartialEq, Eq, Debug)]
pub struct Line {
    pub start: usize,
    pub number: u64,
}

// The line of a text that a place stands in.
pub fn line_of(text: &[u8], at: usize) -> Line
    requires { at ≤ length text.now }
    ensures { result.start ≤ at }
{
    let mut start = 0;
    let mut number = 1u64;
    for (i, byte) in text[..at].iter().enumerate() {
        if *byte == b'\n' {
            start = i + 1;
            number += 1;
        }
    }
    Line { start, number }
}

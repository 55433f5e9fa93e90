// A script is walked form by form with its line number.
ghost use Rattle.std.specs.Prelude.{◌≡◌};
ghost use Rattle.script.specs.Walk.{item_of, item_at};

use crate::{Form, end_of, parse};

// What stands at a place of a script: a line's form, the line's number and the place of the next line.
#[derive(Clone, Copy, PartialEq, Eq, Debug)]
pub struct Item {
    pub form: Form,
    pub line: u32,
    pub next: usize,
}

// The work: the line that starts at a place, which is line number `line`; none at the script's end.
pub fn item_at(src: &[u8], at: usize, line: u32) -> Option<Item>
    ensures { item_of result ≡ item_at src.now at line }
{
    if at < src.len() {
        let e = end_of(src, at, b'\n');
        let form = parse(&src[at..e]);
        let next = e + 1;
        return Some(Item { form, line, next });
    }
    None
}

// A script, the place of the next line in it and that line's number. It is not compared or printed, so that it derives no more.
#[derive(Clone, Copy)]
pub struct Reader<'a> {
    pub src: &'a [u8],
    pub at: usize,
    pub line: u32,
}

// A reader at a place of a script, whose line number is given: 0 and 1 to begin with.
pub fn new<'a>(src: &'a [u8], at: usize, line: u32) -> Reader<'a>
    ensures { (result.src ≡ src.entry) × (result.at ≡ at) × (result.line ≡ line) }
{
    Reader { src, at, line }
}

// What stands at the reader's place.
pub fn next<'a>(r: Reader<'a>) -> Option<Item>
    ensures { item_of result ≡ item_at r.entry.src.now r.entry.at r.entry.line }
{
    item_at(r.src, r.at, r.line)
}

// The same from a plain slice and numbers: what walks a script calls this one.
pub fn form_at(src: &[u8], at: usize, line: u32) -> Option<Item>
    ensures { item_of result ≡ item_at src.now at line }
{
    next(new(src, at, line))
}

// The script program: what a line means, and a script walked line by line.
#![tactic(auto)]

pub mod reader;

ghost use Rattle.std.specs.Prelude.{◌≡◌, ◌≤◌, length, take};
ghost use Rattle.model.specs.Sizes.{InLimits};
ghost use Rattle.cache.specs.View.{sizes_of};
ghost use Rattle.script.specs.Forms.{words_of, same, five, buffers_fit, opening, sizes_from, form_with, form_of_words, form_of};
ghost use Rattle.script.specs.View.{meant};
ghost use Rattle.script.specs.Parts.{end_of, number_of, words_after, NumbersOf};

use address::PageNo;
use cache::Sizes;

// What a line of a script says. A line that is no form is answered too, with its number: so it is a case of its own, and no error.
#[derive(Clone, Copy, PartialEq, Eq, Debug)]
pub enum Form {
    Open(Sizes),
    Write(PageNo, u8),
    Read(PageNo),
    Step,
    Flush,
    Wear,
    // Any other line.
    Bad,
}

// The numbers after a line's word, at most eleven: an array with a count, since the program has no heap.
#[derive(Clone, Copy, PartialEq, Eq, Debug)]
pub struct Numbers {
    pub count: usize,
    pub values: [u32; 11],
}

// The form of a line, which is lent without its byte 10.
pub fn parse(line: &[u8]) -> Form
    ensures { meant result ≡ form_of line.now }
{
    let n = line.len();
    if n < 2 {
        return Form::Bad;
    }
    let last = n - 1;
    if (line[0] != b'(') | (line[last] != b')') {
        return Form::Bad;
    }
    form_of(&line[1..last])
}

// The form of what stands between the brackets: a word, and after it numbers alone.
fn form_of(s: &[u8]) -> Form
    ensures { meant result ≡ form_of_words (words_of s.now) }
{
    let e = end_of(s, 0, b' ');
    let Some(numbers) = read_numbers(s, e) else {
        return Form::Bad;
    };
    if numbers.count > 6 {
        return Form::Bad;
    }
    form_with(&s[..e], numbers)
}

// The form of a word and its numbers.
fn form_with(w: &[u8], a: Numbers) -> Form
    requires { (a.count ≤ 6) × (length a.values ≡ 11) }
    ensures { meant result ≡ form_with w.now (take a.count a.values) }
{
    let n = a.values;
    if is_word(w, b"open") & (a.count == 6) {
        return opening(sizes_of(n));
    }
    if is_word(w, b"write") & ((a.count == 2) & (n[1] <= 255)) {
        let page = PageNo(n[0]);
        let byte = n[1] as u8;
        return Form::Write(page, byte);
    }
    if is_word(w, b"read") & (a.count == 1) {
        let page = PageNo(n[0]);
        return Form::Read(page);
    }
    if is_word(w, b"step") & (a.count == 0) {
        return Form::Step;
    }
    if is_word(w, b"flush") & (a.count == 0) {
        return Form::Flush;
    }
    if is_word(w, b"wear") & (a.count == 0) {
        return Form::Wear;
    }
    Form::Bad
}

// The sizes of an opening, in the order of its numbers.
fn sizes_of(n: [u32; 11]) -> Sizes
    ensures { sizes_of result ≡ sizes_from n }
{
    Sizes {
        page_size: n[0],
        pages_per_block: n[1],
        blocks: n[2],
        slots: n[3],
        frames: n[4],
        wear_limit: n[5],
        policy: 0,
        coded: 0,
        shelf_pages: 0,
        marked: 0,
    }
}

// An opening is a form unless its five sizes are within limits and a buffer needs more than the program has.
fn opening(sizes: Sizes) -> Form
    ensures { meant result ≡ opening (sizes_of sizes) }
{
    let five = Sizes {
        page_size: sizes.page_size,
        pages_per_block: sizes.pages_per_block,
        blocks: sizes.blocks,
        slots: sizes.slots,
        frames: sizes.frames,
        wear_limit: 1,
        policy: 0,
        coded: 0,
        shelf_pages: 0,
        marked: 0,
    };
    if five.ok() {
        if !buffers_fit(sizes) {
            return Form::Bad;
        }
    }
    Form::Open(sizes)
}

// Whether no buffer needs over 32,768 bytes.
pub fn buffers_fit(sizes: Sizes) -> bool
    requires { InLimits (five (sizes_of sizes)) }
    ensures { result ≡ buffers_fit (sizes_of sizes) }
{
    (sizes.blocks * sizes.pages_per_block * sizes.page_size <= 32768)
        & (sizes.slots * sizes.page_size <= 32768)
        & (sizes.frames * sizes.pages_per_block * sizes.page_size <= 32768)
        & (4 * sizes.blocks <= 32768)
}

// The numbers after the word that ends at `from`, each after one space: none where something else stands there, or more than eleven. A turn
// goes over a word, and not over an index.
pub fn read_numbers(s: &[u8], from: usize) -> Option<Numbers>
    requires { from ≤ length s.now }
    ensures { NumbersOf (words_after s.now from) result }
{
    let mut values = [0u32; 11];
    let mut count = 0;
    let mut at = from;
    while at < s.len() {
        if count == 11 {
            return None;
        }
        let a = at + 1;
        let e = end_of(s, a, b' ');
        values[count] = number(&s[a..e])?;
        count += 1;
        at = e;
    }
    Some(Numbers { count, values })
}

// The number that a word says, without leading zeros: none for any other word. It stops where the number passes 32 bits, so that no sum
// wraps.
fn number(w: &[u8]) -> Option<u32>
    ensures { result ≡ number_of w.now }
{
    let n = w.len();
    if n == 0 {
        return None; // two spaces in a row, or one before the bracket
    }
    if (w[0] == b'0') & (n != 1) {
        return None;
    }
    let mut v: u64 = 0;
    for &x in w {
        if (x < b'0') | (b'9' < x) {
            return None;
        }
        v = v * 10 + u64::from(x - b'0');
        if v > 4294967295 {
            return None;
        }
    }
    Some(v as u32)
}

// The place of the first byte b from `at` on: the end where there is none. No option, since each caller takes what stands before it.
pub fn end_of(s: &[u8], at: usize, b: u8) -> usize
    requires { at ≤ length s.now }
    ensures { result ≡ end_of b s.now at }
{
    for i in at..s.len() {
        if s[i] == b {
            return i;
        }
    }
    s.len()
}

// Whether w and word are the same bytes.
pub fn is_word(w: &[u8], word: &[u8]) -> bool
    ensures { result ≡ same w.now word.now }
{
    w == word
}

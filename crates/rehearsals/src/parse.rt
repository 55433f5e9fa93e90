// What a line says: (rehearse S K N P B W benches turns writerate runrate state), or none where it says anything else.
ghost use Rattle.std.specs.Prelude.{◌≡◌, ◌≤◌, length, take};
ghost use Rattle.script.specs.Forms.{words_of};
ghost use Rattle.rehearsals.specs.Lines.{setting_from, line_with, line_of_words, line_of};

use rehearsal::Setting;
use script::Numbers;

// What a line says, which is lent without its byte 10.
pub(crate) fn line_of(line: &[u8]) -> Option<Setting>
    ensures { result ≡ line_of line.now }
{
    let n = line.len();
    if n < 2 {
        return None;
    }
    let last = n - 1;
    if (line[0] != b'(') | (line[last] != b')') {
        return None;
    }
    inside(&line[1..last])
}

// What stands between the brackets: a word, and after it numbers alone.
fn inside(s: &[u8]) -> Option<Setting>
    ensures { result ≡ line_of_words (words_of s.now) }
{
    let e = script::end_of(s, 0, b' ');
    let numbers = script::read_numbers(s, e)?;
    with(&s[..e], numbers)
}

// The line of a word and its numbers.
fn with(w: &[u8], a: Numbers) -> Option<Setting>
    requires { (a.count ≤ 11) × (length a.values ≡ 11) }
    ensures { result ≡ line_with w.now (take a.count a.values) }
{
    let n = a.values;
    if script::is_word(w, b"rehearse") & (a.count == 11) {
        return Some(setting(n));
    }
    None
}

// The settings, in the order of the numbers. Not `From`, which would have to stand in rehearsal, where no line is read.
fn setting(n: [u32; 11]) -> Setting
    ensures { result ≡ setting_from n }
{
    Setting {
        page_size: n[0],
        pages_per_block: n[1],
        blocks: n[2],
        slots: n[3],
        frames: n[4],
        wear_limit: n[5],
        benches: n[6],
        turns: n[7],
        write_rate: n[8],
        run_rate: n[9],
        state: n[10],
    }
}

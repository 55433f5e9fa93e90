// A sheet on a page: seven numbers, low byte first, the rest of the page 0.
ghost use Rattle.std.specs.Prelude.{◌≡◌, ◌+◌, ◌≤◌, ◌<◌, length};
ghost use Rattle.runs.specs.Sheet.{number_at, sheet_of, byte_of, sheet_byte, page_of};
ghost use Rattle.sheets.specs.View.{fields_of};

use crate::Sheet;

// The number whose four bytes stand from byte i on.
#[tactic(auto, unfolding(runs::specs::Sheet::number_at))]
fn number_at(page: &[u8], i: usize) -> u32
    requires { i + 4 ≤ length page.now }
    ensures { result ≡ number_at page.now i }
{
    u32::from(page[i])
        + u32::from(page[i + 1]) * 256
        + u32::from(page[i + 2]) * 65536
        + u32::from(page[i + 3]) * 16777216
}

// The sheet that a page holds.
#[tactic(auto, unfolding(runs::specs::Sheet::sheet_of))]
pub fn decode(page: &[u8]) -> Sheet
    requires { 28 ≤ length page.now }
    ensures { fields_of result ≡ sheet_of page.now }
{
    Sheet {
        run: number_at(page, 0),
        trainee: number_at(page, 4),
        sample: number_at(page, 8),
        first: number_at(page, 12),
        count: number_at(page, 16),
        mark: number_at(page, 20),
        replaces: number_at(page, 24),
    }
}

// Byte k of a number, byte 0 the low one.
#[tactic(auto, unfolding(runs::specs::Sheet::byte_of))]
fn byte_of(x: u32, k: usize) -> u8
    requires { k < 4 }
    ensures { result ≡ byte_of x k }
{
    ((x >> (8 * k)) % 256) as u8
}

// Byte j of a sheet's page.
#[tactic(auto, unfolding(runs::specs::Sheet::sheet_byte))]
fn sheet_byte(s: Sheet, j: usize) -> u8
    ensures { result ≡ sheet_byte (fields_of s) j }
{
    if j >= 28 {
        return 0;
    }
    let numbers = [
        s.run, s.trainee, s.sample, s.first, s.count, s.mark, s.replaces,
    ];
    byte_of(numbers[j / 4], j % 4)
}

// Writes a sheet over a whole page, however long it is.
pub fn encode(page: &mut [u8], s: Sheet)
    ensures { page.new ≡ page_of (length page.old) (fields_of s) }
{
    for (j, byte) in page.iter_mut().enumerate() {
        *byte = sheet_byte(s, j);
    }
}

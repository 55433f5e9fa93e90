// Page codes against a flipped bit (request A6): 3 bytes for each chunk of 256 bytes. A page has m chunks.
#![tactic(auto)]

pub mod table; // table.rt: the table of 256 entries
pub mod parity; // parity.rt: parities of a word's bits
pub mod words; // words.rt: a chunk as words, and their sums
pub mod chunk; // chunk.rt: a chunk's code, and what a difference tells

ghost use Rattle.std.specs.Prelude.{◌≡◌, cond, ◌*◌, length};
ghost use Rattle.prelude.specs.Pages.{page_at, put_page};
ghost use Rattle.page.specs.Page.{HasPage};
ghost use Rattle.codes.specs.Code.{codes_of};
ghost use Rattle.codes.specs.Reading.{page_legible, page_mended};
ghost use Rattle.ecc.specs.Checks.{checked, Decoded};

// Writes the codes of the m chunks of a page. By index, here and below: a page and its codes go in step, by 256 bytes and by 3.
pub fn encode(codes: &mut [u8], page: &[u8], m: usize)
    requires { (length codes.old ≡ m * 3) × (length page.now ≡ m * 256) }
    ensures { codes.new ≡ codes_of m page.now }
{
    let table = table::table();
    for i in 0..m {
        let a = i * 256;
        let e = a + 256;
        let [low, middle, high, _] = chunk::code_of(&table, &page[a..e]).to_le_bytes();
        let k = i * 3;
        codes[k] = low;
        codes[k + 1] = middle;
        codes[k + 2] = high;
    }
}

// That a page cannot be read.
#[derive(Clone, Copy, PartialEq, Eq, Debug)]
pub struct Unreadable;

// How many of the m chunks of a page are mended; an error where the page cannot be read.
pub fn check(page: &[u8], codes: &[u8], m: usize) -> Result<usize, Unreadable>
    requires { (length page.now ≡ m * 256) × (length codes.now ≡ m * 3) }
    ensures { result ≡ checked m page.now codes.now }
{
    let table = table::table();
    let mut n = 0;
    for i in 0..m {
        let x = chunk::differing(&table, page, codes, i);
        if x != 0 {
            let f = chunk::few(x);
            let p = chunk::paired(x);
            if !(f | p) {
                return Err(Unreadable);
            }
            n += 1;
        }
    }
    Ok(n)
}

// Flips the addressed bit of each chunk whose code differs in more than one bit.
fn mend(page: &mut [u8], codes: &[u8], m: usize)
    requires { (length page.old ≡ m * 256) × (length codes.now ≡ m * 3) }
    ensures { page.new ≡ page_mended m page.old codes.now }
{
    let table = table::table();
    for i in 0..m {
        let x = chunk::differing(&table, page, codes, i);
        if !chunk::few(x) {
            let k = chunk::named(x);
            let a = i * 256;
            let e = a + 256;
            chunk::flip(&mut page[a..e], k);
        }
    }
}

// Reads a page of m chunks into out. An unreadable page leaves out as it was.
pub fn decode(out: &mut [u8], page: &[u8], codes: &[u8], m: usize) -> Result<usize, Unreadable>
    requires { (length out.old ≡ m * 256) × (length page.now ≡ m * 256) × (length codes.now ≡ m * 3) }
    ensures answer { result ≡ checked m page.now codes.now }
    ensures data { out.new ≡ cond (page_legible m page.now codes.now) (page_mended m page.now codes.now) out.old }
{
    let n = check(page, codes, m)?;
    page::copy_pages(out, 0, page, 0, m, 256);
    if n != 0 {
        mend(out, codes, m);
    }
    Ok(n)
}

// Writes the codes of page n, of m chunks, to its place among the codes.
#[tactic(auto, unfolding(prelude::specs::Pages::page_at, prelude::specs::Pages::put_page))]
pub fn encode_page(codes: &mut [u8], flash: &[u8], n: usize, m: usize)
    requires { HasPage (m * 3) codes.old n × HasPage (m * 256) flash.now n }
    ensures { codes.new ≡ put_page (m * 3) codes.old n (codes_of m (page_at (m * 256) flash.now n)) }
{
    let s = m * 256;
    let t = m * 3;
    let a = n * s;
    let b = n * t;
    encode(&mut codes[b..b + t], &flash[a..a + s], m);
}

// How many of the chunks of page n are mended; an error where it cannot be read.
#[tactic(auto, unfolding(prelude::specs::Pages::page_at, prelude::specs::Pages::put_page))]
pub fn check_page(flash: &[u8], codes: &[u8], n: usize, m: usize) -> Result<usize, Unreadable>
    requires { HasPage (m * 256) flash.now n × HasPage (m * 3) codes.now n }
    ensures { result ≡ checked m (page_at (m * 256) flash.now n) (page_at (m * 3) codes.now n) }
{
    let s = m * 256;
    let t = m * 3;
    let a = n * s;
    let b = n * t;
    check(&flash[a..a + s], &codes[b..b + t], m)
}

// Reads page n into page i of dst. An unreadable page leaves dst as it was.
#[tactic(auto, unfolding(prelude::specs::Pages::page_at, prelude::specs::Pages::put_page))]
pub fn decode_page(
    dst: &mut [u8],
    i: usize,
    flash: &[u8],
    codes: &[u8],
    n: usize,
    m: usize,
) -> Result<usize, Unreadable>
    requires { HasPage (m * 256) dst.old i × HasPage (m * 256) flash.now n × HasPage (m * 3) codes.now n }
    ensures { let page = page_at (m * 256) flash.now n in
        let code = page_at (m * 3) codes.now n in
        Decoded m dst.old i page code result dst.new }
{
    let s = m * 256;
    let t = m * 3;
    let a = n * s;
    let b = n * t;
    let x = i * s;
    decode(&mut dst[x..x + s], &flash[a..a + s], &codes[b..b + t], m)
}

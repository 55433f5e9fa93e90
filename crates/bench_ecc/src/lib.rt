// The page codes for a Rust or C program that measures them. A page has m chunks of 256 bytes.
#![tactic(auto)]

ghost use Rattle.std.specs.Prelude.{◌≡◌, ◌*◌};
ghost use Rattle.prelude.specs.Pages.{page_at, put_page};
ghost use Rattle.page.specs.Page.{HasPage};
ghost use Rattle.codes.specs.Code.{codes_of};

// What is answered for an unreadable page; for another, the number of chunks mended: one number, since C calls it.
const UNREADABLE: usize = 4294967295;

// Writes the codes of page n.
#[unsafe(no_mangle)]
pub extern "C" fn rt_encode_page(codes: &mut [u8], flash: &[u8], n: usize, m: usize)
    requires { HasPage (m * 3) codes.old n × HasPage (m * 256) flash.now n }
    ensures { codes.new ≡ put_page (m * 3) codes.old n (codes_of m (page_at (m * 256) flash.now n)) }
{
    ecc::encode_page(codes, flash, n, m);
}

// Checks page n.
#[unsafe(no_mangle)]
pub extern "C" fn rt_check_page(flash: &[u8], codes: &[u8], n: usize, m: usize) -> usize
    requires { HasPage (m * 256) flash.now n × HasPage (m * 3) codes.now n }
{
    ecc::check_page(flash, codes, n, m).unwrap_or(UNREADABLE)
}

// Reads page n into page i of dst.
#[unsafe(no_mangle)]
pub extern "C" fn rt_decode_page(
    dst: &mut [u8],
    i: usize,
    flash: &[u8],
    codes: &[u8],
    n: usize,
    m: usize,
) -> usize
    requires { HasPage (m * 256) dst.old i × HasPage (m * 256) flash.now n × HasPage (m * 3) codes.now n }
{
    ecc::decode_page(dst, i, flash, codes, n, m).unwrap_or(UNREADABLE)
}

// The leaves for a Rust or C program that measures them.
#![tactic(auto)]

ghost use Rattle.std.specs.Prelude.{◌≡◌, ◌+◌, ◌*◌, ◌≤◌, ◌<◌, replicate};
ghost use Rattle.prelude.specs.Pages.{page_at, put_page};
ghost use Rattle.page.specs.Page.{HasPage, Exchanged};

// Page si of src goes to page di of dst.
#[unsafe(no_mangle)]
pub extern "C" fn rt_copy_page(dst: &mut [u8], di: usize, src: &[u8], si: usize, s: usize)
    requires { (s ≤ 2048) × HasPage s dst.old di × HasPage s src.now si }
    ensures { dst.new ≡ put_page s dst.old di (page_at s src.now si) }
{
    page::copy_page(dst, di, src, si, s);
}

// Page si of src goes to offset o of block f of run.
#[unsafe(no_mangle)]
pub extern "C" fn rt_copy_in_block(
    run: &mut [u8],
    f: usize,
    k: usize,
    o: usize,
    src: &[u8],
    si: usize,
    s: usize,
)
    requires { (s ≤ 2048) × (o < k) × HasPage (k * s) run.old f × HasPage s src.now si }
    ensures { run.new ≡ put_page s run.old (f * k + o) (page_at s src.now si) }
{
    page::copy_in_block(run, f, k, o, src, si, s);
}

// Page xi of x and page yi of y change places.
#[unsafe(no_mangle)]
pub extern "C" fn rt_exchange(x: &mut [u8], xi: usize, y: &mut [u8], yi: usize, s: usize)
    requires { HasPage s x.old xi × HasPage s y.old yi }
    ensures { Exchanged s x.old xi y.old yi x.new y.new }
{
    page::exchange(x, xi, y, yi, s);
}

// Page di of dst becomes s times the byte b.
#[unsafe(no_mangle)]
pub extern "C" fn rt_fill_page(dst: &mut [u8], di: usize, s: usize, b: u8)
    requires { HasPage s dst.old di }
    ensures { dst.new ≡ put_page s dst.old di (replicate s b) }
{
    page::fill_page(dst, di, s, b);
}

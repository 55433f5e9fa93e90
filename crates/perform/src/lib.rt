// Each form of a line carried out on the store's own buffers, and the line that it prints. The buffers are lent one by one, as the store's
// calls take them.
#![tactic(auto)]

pub mod memory; // memory.rt: what fills the memory lent before a call, and a first byte

ghost use Rattle.std.specs.Prelude.{◌≡◌, ◌≤◌, length, true};
ghost use Rattle.model.specs.Sizes.{sizes_ok};
ghost use Rattle.model.specs.Calls.{Fits};
ghost use Rattle.cache.specs.View.{sizes_of};
ghost use Rattle.print.specs.Print.{line_room};
ghost use Rattle.model.specs.Formats.{store_format};
ghost use Rattle.store.specs.View.{plain_lent, store_of};
ghost use Rattle.perform.specs.Effects.{opened, written, was_read, stepped, flushed};
ghost use Rattle.perform.specs.View.{Carries};

use address::PageNo;
use cache::Sizes;
use store::Cache;

// The record after a line, and how many bytes are printed.
#[derive(Clone, Copy, PartialEq, Eq, Debug)]
pub struct Lined {
    pub cache: Cache,
    pub printed: usize,
}

// The record handed back unaltered.
pub fn printed(c: Cache, bytes: usize) -> Lined
    ensures { result ≡ record { cache = c; printed = bytes } }
{
    Lined {
        cache: c,
        printed: bytes,
    }
}

// (open ..): a new store, or a refusal, which keeps the store in use.
pub fn opened(
    c: Cache,
    sizes: Sizes,
    flash: &mut [u8],
    wear: &mut [u32],
    pspace: &mut [u8],
    bspace: &mut [u8],
    out: &mut [u8],
) -> Lined
    requires { let u = plain_lent flash.old wear.old pspace.old bspace.old in
        (sizes_ok (sizes_of sizes) ≡ true → Fits store_format (sizes_of sizes) u.below × (sizes.shelf_pages ≡ 0))
        × (line_room ≤ length out.old) }
    ensures { let u = plain_lent flash.old wear.old pspace.old bspace.old in
        let u' = plain_lent flash.new wear.new pspace.new bspace.new in
        Carries (opened (store_of c u) (sizes_of sizes)) result u' out.new }
{
    if !sizes.ok() {
        return printed(c, print::put_open_refused(out, 0, 1));
    }
    memory::fill(flash, 255);
    memory::fill(wear, 0);
    memory::fill(pspace, 0);
    memory::fill(bspace, 0);
    let r = Cache::open(sizes, flash, &[], &[], wear, pspace, bspace, &[]);
    printed(r.cache, say::opening(out, r.answer))
}

// (write n b): page n is filled with byte b.
pub fn written(
    c: Cache,
    n: PageNo,
    b: u8,
    flash: &mut [u8],
    wear: &mut [u32],
    pspace: &mut [u8],
    bspace: &mut [u8],
    page: &mut [u8],
    out: &mut [u8],
) -> Lined
    requires { (length page.old ≡ (sizes_of c.sizes).S) × (line_room ≤ length out.old) }
    ensures { let u = plain_lent flash.old wear.old pspace.old bspace.old in
        let u' = plain_lent flash.new wear.new pspace.new bspace.new in
        Carries (written (store_of c u) n.0 b) result u' out.new }
{
    memory::fill(page, b);
    let r = c.write(
        flash,
        &mut [],
        &mut [],
        wear,
        pspace,
        bspace,
        &mut [],
        n,
        page,
    );
    printed(r.cache, say::write(out, n, r.answer))
}

// (read n)
pub fn was_read(
    c: Cache,
    n: PageNo,
    flash: &[u8],
    wear: &[u32],
    pspace: &[u8],
    bspace: &[u8],
    page: &mut [u8],
    out: &mut [u8],
) -> Lined
    requires { (length page.old ≡ (sizes_of c.sizes).S) × (line_room ≤ length out.old) }
    ensures { let u = plain_lent flash.now wear.now pspace.now bspace.now in
        Carries (was_read (store_of c u) n.0) result u out.new }
{
    memory::fill(page, 0);
    let r = c.read(flash, &[], &[], wear, pspace, bspace, &[], n, page);
    printed(r.cache, say::read(out, n, r.answer, memory::first(page)))
}

// (step)
pub fn stepped(
    c: Cache,
    flash: &mut [u8],
    wear: &mut [u32],
    pspace: &[u8],
    bspace: &mut [u8],
    out: &mut [u8],
) -> Lined
    requires { line_room ≤ length out.old }
    ensures { let u = plain_lent flash.old wear.old pspace.now bspace.old in
        let u' = plain_lent flash.new wear.new pspace.now bspace.new in
        Carries (stepped (store_of c u)) result u' out.new }
{
    let r = c.flush_step(flash, &mut [], &mut [], wear, pspace, bspace, &[]);
    printed(r.cache, say::step(out, r.answer))
}

// (flush)
pub fn flushed(
    c: Cache,
    flash: &mut [u8],
    wear: &mut [u32],
    pspace: &[u8],
    bspace: &mut [u8],
    out: &mut [u8],
) -> Lined
    requires { line_room ≤ length out.old }
    ensures { let u = plain_lent flash.old wear.old pspace.now bspace.old in
        let u' = plain_lent flash.new wear.new pspace.now bspace.new in
        Carries (flushed (store_of c u)) result u' out.new }
{
    let r = c.flush(flash, &mut [], &mut [], wear, pspace, bspace, &[]);
    printed(r.cache, say::flush(out, r.answer))
}

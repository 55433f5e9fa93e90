// One line of a script, carried out on the program's store, and what it prints. The buffers are lent one by one, as the store's calls take
// them: a struct would be taken apart again for each.
#![tactic(auto)]

mod memory; // memory.rt: the store's own buffers in the program's memory

ghost use Rattle.std.specs.Prelude.{◌≡◌};
ghost use Rattle.script.specs.View.{meant};
ghost use Rattle.cache.specs.View.{sizes_of};
ghost use Rattle.store.specs.View.{plain_lent, store_of};
ghost use Rattle.perform.specs.View.{Carries};
ghost use Rattle.interpret.specs.Lines.{carried, sizes_after};
ghost use Rattle.interpret.specs.View.{InSizes, Lendable, CarriedOut, front};

use cache::Sizes;
use perform::Lined;
use script::Form;
use store::Cache;

// Carries out the form of line n on the store in use, which stands at the front of the memory lent, and prints its line into out
// from the first byte on.
pub fn line(
    c: Cache,
    form: Form,
    n: u32,
    flash: &mut [u8],
    wear: &mut [u32],
    pspace: &mut [u8],
    bspace: &mut [u8],
    page: &mut [u8],
    out: &mut [u8],
) -> Lined
    requires { Lendable (sizes_of c.sizes) (meant form) flash.old wear.old pspace.old bspace.old page.old out.old }
    ensures { let u = front (sizes_of c.sizes) flash.old wear.old pspace.old bspace.old in
        CarriedOut (carried (store_of c u) (meant form) n)
        result flash.new wear.new pspace.new bspace.new out.new }
{
    let z = sizes_after(c.sizes, form);
    let p = memory::lengths(z);
    carry(
        c,
        form,
        n,
        &mut flash[..p.flash],
        &mut wear[..p.wear],
        &mut pspace[..p.pspace],
        &mut bspace[..p.bspace],
        &mut page[..p.page],
        out,
    )
}

// The sizes of the record after a line: an accepted opening sets them.
fn sizes_after(old: Sizes, form: Form) -> Sizes
    ensures { sizes_of result ≡ sizes_after (sizes_of old) (meant form) }
{
    match form {
        Form::Open(sizes) => {
            if sizes.ok() {
                return sizes;
            }
            old
        }
        _ => old,
    }
}

// The same on the store's own buffers, in the sizes that it has afterwards. A `match`, and no table: each form has other arguments.
fn carry(
    c: Cache,
    form: Form,
    n: u32,
    flash: &mut [u8],
    wear: &mut [u32],
    pspace: &mut [u8],
    bspace: &mut [u8],
    page: &mut [u8],
    out: &mut [u8],
) -> Lined
    requires { let u = plain_lent flash.old wear.old pspace.old bspace.old in
        InSizes (sizes_after (sizes_of c.sizes) (meant form)) u page.old out.old }
    ensures { let u = plain_lent flash.old wear.old pspace.old bspace.old in
        let u' = plain_lent flash.new wear.new pspace.new bspace.new in
        Carries (carried (store_of c u) (meant form) n) result u' out.new }
{
    match form {
        Form::Open(sizes) => perform::opened(c, sizes, flash, wear, pspace, bspace, out),
        Form::Write(m, b) => perform::written(c, m, b, flash, wear, pspace, bspace, page, out),
        Form::Read(m) => perform::was_read(c, m, flash, wear, pspace, bspace, page, out),
        Form::Step => perform::stepped(c, flash, wear, pspace, bspace, out),
        Form::Flush => perform::flushed(c, flash, wear, pspace, bspace, out),
        Form::Wear => perform::printed(c, print::put_wear(out, 0, wear)),
        Form::Bad => perform::printed(c, print::put_bad(out, 0, n)),
    }
}

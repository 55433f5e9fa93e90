// A write, and a part write, that keep page n as it was before, for a sound record and rightly sized buffers (request A8). The page is read
// as no use, before anything is changed; what that meets in flash is the write's.
#![tactic(auto)]

ghost use Rattle.std.specs.Prelude.{◌≡◌, length};
ghost use Rattle.cache.specs.View.{sizes_of, directory_of};
ghost use Rattle.chip.specs.Loan.{IsSameLoan, buffers_of};
ghost use Rattle.answer.specs.Numbers.{write_of, mends_of_write};
ghost use Rattle.reads.specs.Reads.{Readable, Gave};
ghost use Rattle.parts.specs.Parts.{PartReady};
ghost use Rattle.keeping.specs.Keeping.{WriteReady, KeptWrite, KeptPart};

use address::PageNo;
use answer::{Refusal, Write};
use cache::Directory;
use chip::Seen;
use chip::lent::Chip;
use reads::Answered;

// Writes the page buffer as page n, with at most ops operations of the chip.
pub fn write(
    chip: &mut Chip<'_>,
    directory: &mut Directory,
    pspace: &mut [u8],
    bspace: &mut [u8],
    n: PageNo,
    page: &[u8],
    kept: &mut [u8],
    ops: u32,
) -> Result<Write, Refusal>
    requires { let u = buffers_of chip.old pspace.old bspace.old in
        WriteReady (sizes_of chip.old.sizes) (directory_of directory.old) u n.0 page.now kept.old }
    ensures loan { IsSameLoan chip.old chip.new }
    ensures wrote { let u = buffers_of chip.old pspace.old bspace.old in
        let u' = buffers_of chip.new pspace.new bspace.new in
        KeptWrite (sizes_of chip.old.sizes) (directory_of directory.old) u n.0 page.now ops (write_of result) (mends_of_write result)
        (directory_of directory.new) u' kept.new }
{
    let given = keep_page(chip, directory, pspace, bspace, n, kept);
    let beside = Seen::from(given);
    writes::write(chip, directory, pspace, bspace, n, page, beside, ops)
}

// Writes page n with the bytes laid in. The part write reads the page itself, so that it answers for what the read met.
pub fn part(
    chip: &mut Chip<'_>,
    directory: &mut Directory,
    pspace: &mut [u8],
    bspace: &mut [u8],
    n: PageNo,
    first: u32,
    bytes: &[u8],
    page: &mut [u8],
    kept: &mut [u8],
    ops: u32,
) -> Result<Write, Refusal>
    requires { let u = buffers_of chip.old pspace.old bspace.old in
        PartReady (sizes_of chip.old.sizes) (directory_of directory.old) u n.0 first bytes.now page.old
        × (length kept.old ≡ chip.old.sizes.page_size) }
    ensures loan { IsSameLoan chip.old chip.new }
    ensures wrote { let u = buffers_of chip.old pspace.old bspace.old in
        let u' = buffers_of chip.new pspace.new bspace.new in
        KeptPart (sizes_of chip.old.sizes) (directory_of directory.old) u n.0 first bytes.now page.old ops (write_of result)
        (mends_of_write result) (directory_of directory.new) u' page.new kept.new }
{
    keep_page(chip, directory, pspace, bspace, n, kept);
    parts::write(chip, directory, pspace, bspace, n, first, bytes, page, ops)
}

// Reads page n, as no use, into the page that keeps it.
fn keep_page(
    chip: &Chip<'_>,
    directory: &Directory,
    pspace: &[u8],
    bspace: &[u8],
    n: PageNo,
    kept: &mut [u8],
) -> Answered
    requires { Readable (sizes_of chip.now.sizes) pspace.now bspace.now n.0 kept.old }
    ensures { let c = chip.now in
        Gave (sizes_of c.sizes) (directory_of directory.now) c.flash.now c.codes.now c.marks.now pspace.now bspace.now n.0
        kept.old result kept.new }
{
    reads::peek(chip.view(), directory, pspace, bspace, n, kept).answered
}

// A part write, for a sound record, rightly sized buffers and bytes that end within the page: page n is read without a use, the bytes are
// laid in, and the page so combined is written.
#![tactic(auto)]

ghost use Rattle.std.specs.Prelude.{◌≡◌, ◌+◌, ◌≤◌, length};
ghost use Rattle.cache.specs.View.{sizes_of, directory_of};
ghost use Rattle.chip.specs.Loan.{IsSameLoan, buffers_of};
ghost use Rattle.answer.specs.Numbers.{write_of, mends_of_write};
ghost use Rattle.reads.specs.Reads.{Readable};
ghost use Rattle.parts.specs.Parts.{PartReady, PartWrote, Combined};

use address::PageNo;
use answer::{Refusal, Write};
use cache::Directory;
use chip::Seen;
use chip::lent::Chip;

// Writes page n with the bytes laid in, with at most ops operations of the chip. The combined page is made in a page of its own, since a
// refused write leaves the page buffer alone.
pub fn write(
    chip: &mut Chip<'_>,
    directory: &mut Directory,
    pspace: &mut [u8],
    bspace: &mut [u8],
    n: PageNo,
    first: u32,
    bytes: &[u8],
    page: &mut [u8],
    ops: u32,
) -> Result<Write, Refusal>
    requires { let u = buffers_of chip.old pspace.old bspace.old in
        PartReady (sizes_of chip.old.sizes) (directory_of directory.old) u n.0 first bytes.now page.old }
    ensures loan { IsSameLoan chip.old chip.new }
    ensures wrote { let u = buffers_of chip.old pspace.old bspace.old in
        let u' = buffers_of chip.new pspace.new bspace.new in
        PartWrote (sizes_of chip.old.sizes) (directory_of directory.old) u n.0 first bytes.now page.old ops (write_of result)
        (mends_of_write result) (directory_of directory.new) u' page.new }
{
    let s = chip.sizes.page_size as usize;
    let mut whole = [0u8; 2048];
    let whole = &mut whole[..s];
    write_combined(
        chip, directory, pspace, bspace, n, first, bytes, page, whole, ops,
    )
}

// Makes the combined page in `whole`, writes it, and hands it back. What the read met is looked at with what the write meets.
fn write_combined(
    chip: &mut Chip<'_>,
    directory: &mut Directory,
    pspace: &mut [u8],
    bspace: &mut [u8],
    n: PageNo,
    first: u32,
    bytes: &[u8],
    page: &mut [u8],
    whole: &mut [u8],
    ops: u32,
) -> Result<Write, Refusal>
    requires { let u = buffers_of chip.old pspace.old bspace.old in
        PartReady (sizes_of chip.old.sizes) (directory_of directory.old) u n.0 first bytes.now page.old
        × (length whole.old ≡ chip.old.sizes.page_size) }
    ensures loan { IsSameLoan chip.old chip.new }
    ensures wrote { let u = buffers_of chip.old pspace.old bspace.old in
        let u' = buffers_of chip.new pspace.new bspace.new in
        PartWrote (sizes_of chip.old.sizes) (directory_of directory.old) u n.0 first bytes.now page.old ops (write_of result)
        (mends_of_write result) (directory_of directory.new) u' page.new }
{
    let seen = combine(chip, directory, pspace, bspace, n, first, bytes, whole);
    let answer = writes::write(chip, directory, pspace, bspace, n, whole, seen, ops)?;
    page.copy_from_slice(whole);
    Ok(answer)
}

// Page n, read without counting as a use, with the bytes laid in. Answers what the read met in flash; where that is a refusal, which is
// then the write's, the page is of no use.
fn combine(
    chip: &Chip<'_>,
    directory: &Directory,
    pspace: &[u8],
    bspace: &[u8],
    n: PageNo,
    first: u32,
    bytes: &[u8],
    whole: &mut [u8],
) -> Seen
    requires { Readable (sizes_of chip.now.sizes) pspace.now bspace.now n.0 whole.old
        × (first + length bytes.now ≤ chip.now.sizes.page_size) }
    ensures { let c = chip.now in
        Combined (sizes_of c.sizes) (directory_of directory.now) c.flash.now c.codes.now c.marks.now pspace.now bspace.now n.0 first
        bytes.now result whole.new }
{
    let given = reads::peek(chip.view(), directory, pspace, bspace, n, whole);
    page::lay(whole, first as usize, bytes);
    Seen::from(given.answered)
}

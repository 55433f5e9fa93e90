// Reading a page, for a sound record and rightly sized buffers.
#![tactic(auto)]

ghost use Rattle.std.specs.Prelude.{◌≡◌, None};
ghost use Rattle.cache.specs.View.{sizes_of, directory_of};
ghost use Rattle.reads.specs.Reads.{Readable, Peeked, ReadOut};

use address::PageNo;
use answer::{Fault, ReadWay};
use cache::Directory;
use chip::Seen;
use chip::lent::View;
use moves::numbers;
use policy::lookup;

// What a read answers: its way, what it meets in flash, and its mends. No `Result`: a write answers for fault and mends together of the
// page that it reads beside.
#[derive(Clone, Copy, PartialEq, Eq, Debug)]
pub struct Answered {
    pub way: ReadWay,
    pub fault: Option<Fault>,
    pub mends: u32,
}

// The same, and the frame of a page that lies in one.
#[derive(Clone, Copy, PartialEq, Eq, Debug)]
pub struct Given {
    pub answered: Answered,
    pub frame: Option<usize>,
}

impl From<Answered> for Seen {
    ghost from_gives = { λ answered seen. seen ≡ record { fault = answered.fault; mends = answered.mends } };

    // What the read met, for a call that answers for it with what it meets itself.
    fn from(answered: Answered) -> Seen {
        Seen {
            fault: answered.fault,
            mends: answered.mends,
        }
    }
}

// Reads page n into the page buffer, and answers its way; a frame that has it is used. Where flash refuses, the page buffer
// stays as it was.
pub fn read(
    view: View<'_>,
    directory: &mut Directory,
    pspace: &[u8],
    bspace: &[u8],
    n: PageNo,
    page: &mut [u8],
) -> Answered
    requires { Readable (sizes_of view.sizes) pspace.now bspace.now n.0 page.old }
    ensures { let v = view.entry in
        ReadOut (sizes_of v.sizes) (directory_of directory.old) v.flash.now v.codes.now v.marks.now pspace.now bspace.now n.0
        page.old result (directory_of directory.new) page.new }
{
    let given = peek(view, directory, pspace, bspace, n, page);
    if let Some(f) = given.frame {
        numbers::used(view.sizes, directory, f, false);
    }
    given.answered
}

// Reads page n into the page buffer and says where it was: a read that counts as no use.
pub fn peek(
    view: View<'_>,
    directory: &Directory,
    pspace: &[u8],
    bspace: &[u8],
    n: PageNo,
    page: &mut [u8],
) -> Given
    requires { Readable (sizes_of view.sizes) pspace.now bspace.now n.0 page.old }
    ensures { let v = view.entry in
        Peeked (sizes_of v.sizes) (directory_of directory.now) v.flash.now v.codes.now v.marks.now pspace.now bspace.now n.0
        page.old result page.new }
{
    let z = view.sizes;
    let s = z.page_size as usize;
    if let Some(i) = lookup::slot_of(z, directory, n) {
        page::copy_page(page, 0, pspace, i, s);
        return found(ReadWay::Slot, None);
    }
    if let Some(f) = lookup::frame_with(z, directory, n) {
        let o = address::offset_of(n, z.pages_per_block) as usize;
        let at = f * z.pages_per_block as usize + o;
        page::copy_page(page, 0, bspace, at, s);
        return found(ReadWay::Frame, Some(f));
    }
    let seen = view.read_page(n, page, 0);
    Given {
        answered: Answered {
            way: ReadWay::Flash,
            fault: seen.fault,
            mends: seen.mends,
        },
        frame: None,
    }
}

// What a read answers that needs no flash.
fn found(way: ReadWay, frame: Option<usize>) -> Given
    ensures { result ≡ record { answered = record { way = way; fault = None; mends = 0 }; frame = frame } }
{
    Given {
        answered: Answered {
            way,
            fault: None,
            mends: 0,
        },
        frame,
    }
}

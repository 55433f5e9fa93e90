// The pages of a block in slots join its frame: ways 4, 5 and 7 of a write, and a flush step.
ghost use Rattle.std.specs.Prelude.{◌≡◌, ◌*◌, ◌^◌, ◌<◌};
ghost use Rattle.cache.specs.View.{sizes_of, directory_of};
ghost use Rattle.moves.specs.Numbers.{BlockOf, offsets_of, vacated_slots};
ghost use Rattle.moves.specs.Spaces.{Fills, Took, Joins, Joined};

use crate::numbers;
use address::{BlockNo, PageNo};
use cache::{Directory, Sizes, VACANT};

// The pages of block b in slots go into frame f, which is b's or vacant, and their slots are vacant then. Only the frame's own
// stretch of b-space is lent to the copying. In line, as `take` is: apart from its callers the copies become calls of memmove, which the
// archive of a rehearsal then needs from outside.
#[inline(always)]
pub fn join(
    z: Sizes,
    directory: &mut Directory,
    pspace: &[u8],
    bspace: &mut [u8],
    b: BlockNo,
    f: usize,
)
    requires { Joins (sizes_of z) (directory_of directory.old) b.0 f pspace.now bspace.old }
    ensures { Joined (sizes_of z) (directory_of directory.old) b.0 f pspace.now bspace.old (directory_of directory.new) bspace.new }
{
    let size = z.pages_per_block as usize * z.page_size as usize;
    let a = f * size;
    let e = a + size;
    take(z, directory, pspace, &mut bspace[a..e], b, f);
}

// Each slot of block b in turn: its page goes to its offset in frame f's stretch, and the slot is vacant then. A frame that was vacant has
// its first use. No `for`: a turn changes the slots that are searched.
#[inline(always)]
fn take(z: Sizes, directory: &mut Directory, pspace: &[u8], frame: &mut [u8], b: BlockNo, f: usize)
    requires { Fills (sizes_of z) (directory_of directory.old) b.0 pspace.now frame.old × (f < z.frames) }
    ensures { Took (sizes_of z) (directory_of directory.old) b.0 f pspace.now frame.old (directory_of directory.new) frame.new }
{
    let s = z.page_size as usize;
    let mut v = directory.valid[f];
    let mut at = 0;
    while let Some(i) = numbers::next_of(z, directory, b, at) {
        let o = numbers::offset_in(directory.slots[i], b, z.pages_per_block);
        page::copy_page(frame, o as usize, pspace, i, s);
        v = bitmap::with(v, o);
        directory.slots[i] = PageNo(VACANT);
        at = i + 1;
    }
    directory.frames[f] = b;
    directory.valid[f] = v;
    directory.uses[f] = directory.uses[f].max(1);
}

// The offsets of block b's pages in slots, with those of old. No `for`, since `next_of` passes over sixteen slots at a time.
pub fn offsets(z: Sizes, directory: &Directory, b: BlockNo, old: u64) -> u64
    requires { BlockOf (sizes_of z) (directory_of directory.now).slots b.0 × (old < 2 ^ z.pages_per_block) }
    ensures { result ≡ offsets_of (sizes_of z) (directory_of directory.now) b.0 old }
{
    let mut v = old;
    let mut at = 0;
    while let Some(i) = numbers::next_of(z, directory, b, at) {
        let o = numbers::offset_in(directory.slots[i], b, z.pages_per_block);
        v = bitmap::with(v, o);
        at = i + 1;
    }
    v
}

// The slots that have pages of block b are vacant then: what a join does to the slots, where no page has to move. No `for`: a turn changes
// the slots that are searched.
pub fn vacate(z: Sizes, directory: &mut Directory, b: BlockNo)
    requires { BlockOf (sizes_of z) (directory_of directory.old).slots b.0 }
    ensures { directory_of directory.new ≡ record (directory_of directory.old) {
      slots = vacated_slots (sizes_of z)
          (directory_of directory.old) b.0;
    } }
{
    let mut at = 0;
    while let Some(i) = numbers::next_of(z, directory, b, at) {
        directory.slots[i] = PageNo(VACANT);
        at = i + 1;
    }
}

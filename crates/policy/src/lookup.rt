// Where a page or a block is.
ghost use Rattle.std.specs.Prelude.{◌≡◌, ◌<◌, IfSome, unwrap_or};
ghost use Rattle.model.specs.Sizes.{InLimits, vacant};
ghost use Rattle.model.specs.Policy.{slot_of, frame_of, frame_with};
ghost use Rattle.cache.specs.View.{sizes_of, directory_of};

use address::{BlockNo, PageNo};
use cache::{Directory, Sizes, VACANT, search};

// The slot of page n. Sixteen slots at a time are passed over first: from 64 slots on `iter().position` takes twice as long.
pub fn slot_of(z: Sizes, directory: &Directory, n: PageNo) -> Option<usize>
    requires { InLimits (sizes_of z) }
    ensures found { unwrap_or result z.slots ≡ slot_of (sizes_of z) (directory_of directory.now) n.0 }
    ensures within { IfSome result (λ i. i < z.slots) }
{
    let end = z.slots as usize;
    let from = search::passed(&directory.slots, n.0, 1, 0, end);
    for i in from..end {
        if directory.slots[i] == n {
            return Some(i);
        }
    }
    None
}

// The first vacant slot.
pub fn free_slot(z: Sizes, directory: &Directory) -> Option<usize>
    requires { InLimits (sizes_of z) }
    ensures found { unwrap_or result z.slots ≡ slot_of (sizes_of z) (directory_of directory.now) vacant }
    ensures within { IfSome result (λ i. i < z.slots) }
{
    slot_of(z, directory, PageNo(VACANT))
}

// The frame of block b.
pub fn frame_of(z: Sizes, directory: &Directory, b: BlockNo) -> Option<usize>
    requires { InLimits (sizes_of z) }
    ensures found { unwrap_or result z.frames ≡ frame_of (sizes_of z) (directory_of directory.now) b.0 }
    ensures within { IfSome result (λ f. f < z.frames) }
{
    for f in 0..z.frames as usize {
        if directory.frames[f] == b {
            return Some(f);
        }
    }
    None
}

// The first vacant frame.
pub fn free_frame(z: Sizes, directory: &Directory) -> Option<usize>
    requires { InLimits (sizes_of z) }
    ensures found { unwrap_or result z.frames ≡ frame_of (sizes_of z) (directory_of directory.now) vacant }
    ensures within { IfSome result (λ f. f < z.frames) }
{
    frame_of(z, directory, BlockNo(VACANT))
}

// The frame that has page n valid. By index: frames and valid pages go in step.
pub fn frame_with(z: Sizes, directory: &Directory, n: PageNo) -> Option<usize>
    requires { InLimits (sizes_of z) }
    ensures found { unwrap_or result z.frames ≡ frame_with (sizes_of z) (directory_of directory.now) n.0 }
    ensures within { IfSome result (λ f. f < z.frames) }
{
    let b = address::block_of(n, z.pages_per_block);
    let o = address::offset_of(n, z.pages_per_block);
    for f in 0..z.frames as usize {
        if (directory.frames[f] == b) & bitmap::has(directory.valid[f], o) {
            return Some(f);
        }
    }
    None
}

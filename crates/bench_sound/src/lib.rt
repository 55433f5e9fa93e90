// The soundness test for a C or Rust program to call and measure.
#![tactic(auto)]

ghost use Rattle.std.specs.Prelude.{◌≡◌};
ghost use Rattle.model.specs.Soundness.{sound};
ghost use Rattle.cache.specs.View.{sizes_of, directory_of, numbers};

use cache::{Directory, Sizes};

// The numbers of a cache record. bench_victim has the same: a crate below both would be longer than the two.
#[repr(C)]
#[derive(Clone, Copy, PartialEq, Eq, Debug)]
pub struct Record {
    pub sizes: Sizes,
    pub directory: Directory,
}

// Whether the record is sound. It is taken apart: of a part that is lent the compiler makes a copy, by C's memcpy, which a program that
// links no C library has not.
#[unsafe(no_mangle)]
pub extern "C" fn record_sound(r: Record) -> bool
    ensures { result ≡ sound (sizes_of r.sizes) (directory_of r.directory) }
{
    let Record { sizes, directory } = r;
    sound::directory_sound(sizes, &directory)
}

// The same of a directory that is lent, as the store's calls have it tested.
#[unsafe(no_mangle)]
pub extern "C" fn directory_sound(sizes: Sizes, directory: &Directory) -> bool
    ensures { result ≡ sound (sizes_of sizes) (directory_of directory.now) }
{
    sound::directory_sound(sizes, directory)
}

// The same of the directory's lists. Each list has as many entries as its type says.
#[unsafe(no_mangle)]
pub extern "C" fn lists_sound(
    sizes: Sizes,
    slots: &[u32; 128],
    frames: &[u32; 8],
    valid: &[u64; 8],
    recency: &[u8; 8],
    uses: &[u32; 8],
) -> bool
    ensures { let d = numbers slots.now frames.now valid.now recency.now uses.now in
        result ≡ sound (sizes_of sizes) d }
{
    sound::lists_sound(sizes, slots, frames, valid, recency, uses)
}

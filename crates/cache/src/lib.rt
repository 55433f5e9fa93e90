// The cache record's numbers by value: its sizes and its directory, which says what stands where.
#![tactic(auto)]

mod lists; // lists.rt: a directory from lists of plain numbers
pub mod search; // search.rt: what a search of the slots may pass over

ghost use Rattle.std.specs.Prelude.{◌≡◌};
ghost use Rattle.model.specs.Sizes.{sizes_ok};
ghost use Rattle.model.specs.Directory.{blank_cache, vacant_directory};
ghost use Rattle.cache.specs.View.{sizes_of, directory_of};

use address::{BlockNo, PageNo};

// What stands in a slot or a frame that holds nothing: a number and no option, since the record is C's.
pub const VACANT: u32 = 4294967295;

// What an opening sets: the five sizes, the wear limit, and the options. A store without an option has 0 there. The options are numbers and
// no enums, since the record comes from C, which may hand any number in.
#[repr(C)]
#[derive(Clone, Copy, PartialEq, Eq, Debug)]
pub struct Sizes {
    pub page_size: u32,
    pub pages_per_block: u32,
    pub blocks: u32,
    pub slots: u32,
    pub frames: u32,
    pub wear_limit: u32,
    // the block policy (request A5): 0 LRU, 1 FIFO, 2 LFU
    pub policy: u32,
    // 1 where pages have codes (request A6)
    pub coded: u32,
    // the number of shelf pages (request A8)
    pub shelf_pages: u32,
    // 1 where pages have marks (request A12)
    pub marked: u32,
}

impl Sizes {
    // The sizes of the blank record.
    pub fn blank() -> Sizes
        ensures { sizes_of result ≡ blank_cache.sizes }
    {
        Sizes {
            page_size: 0,
            pages_per_block: 0,
            blocks: 0,
            slots: 0,
            frames: 0,
            wear_limit: 0,
            policy: 0,
            coded: 0,
            shelf_pages: 0,
            marked: 0,
        }
    }

    // Whether each size and the wear limit are within their limits, and the policy is one of the three. Of the other options codes are in
    // force, where a page is a whole number of chunks, and 1 to 8 shelf pages.
    pub fn ok(self) -> bool
        ensures { result ≡ sizes_ok (sizes_of self) }
    {
        (1 <= self.page_size)
            & (self.page_size <= 2048)
            & (2 <= self.pages_per_block)
            & (self.pages_per_block <= 64)
            & (1 <= self.blocks)
            & (self.blocks <= 4096)
            & (1 <= self.slots)
            & (self.slots <= 128)
            & (1 <= self.frames)
            & (self.frames <= 8)
            & (1 <= self.wear_limit)
            & (self.wear_limit <= 1000000)
            & (self.policy <= 2)
            & (self.coded <= 1)
            & (self.shelf_pages <= 8)
            & (self.marked <= 1)
            & ((self.coded == 0) | (self.page_size % 256 == 0))
    }
}

// The frames by their use (document 01's order of use), least recent first, the valid pages of each frame, its uses (request A5),
// a block number or VACANT for each frame, and a page number or VACANT for each slot (document 01's place). The short lists stand first:
// the compiler then builds a record where it is handed back, without a copy of its own. The lists are parallel, since the record is C's.
#[repr(C)]
#[derive(Clone, Copy, PartialEq, Eq, Debug)]
pub struct Directory {
    pub recency: [u8; 8],
    pub valid: [u64; 8],
    pub uses: [u32; 8],
    pub frames: [BlockNo; 8],
    pub slots: [PageNo; 128],
}

impl Directory {
    // Nothing is cached, and the order of use is 0 to 7.
    pub fn vacant() -> Directory
        ensures { directory_of result ≡ vacant_directory }
    {
        Directory {
            recency: [0, 1, 2, 3, 4, 5, 6, 7],
            valid: [0u64; 8],
            uses: [0u32; 8],
            frames: [BlockNo(VACANT); 8],
            slots: [PageNo(VACANT); 128],
        }
    }
}

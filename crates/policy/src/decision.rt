// What is decided, as data.
use address::BlockNo;

// A block and how many of its pages stand in slots; 0, and no `None`, where no slot holds a page: C is given it so.
#[repr(C)]
#[derive(Clone, Copy, PartialEq, Eq, Debug)]
pub struct Victim {
    pub block: BlockNo,
    pub pages: u32,
}

// What a write does, by document 01's ways.
#[derive(Clone, Copy, PartialEq, Eq, Debug)]
pub enum Plan {
    // Way 1: the page is in this slot.
    SlotHit(usize),
    // Way 2: the page is valid in this frame.
    FrameHit(usize),
    // Way 3: this slot is the first vacant one.
    FreeSlot(usize),
    // Ways 4 to 7: no slot is vacant.
    MakeRoom(Room),
}

// How a write makes room in the slots: the victim, and the frame that takes its pages.
#[derive(Clone, Copy, PartialEq, Eq, Debug)]
pub enum Room {
    // Way 4: they join the frame, which is the victim's.
    Join(BlockNo, usize),
    // Way 5: they fill the frame, which is vacant.
    Fill(BlockNo, usize),
    // Way 6: they exchange with the fewer pages of the frame.
    Exchange(BlockNo, usize),
    // Way 7: the frame is rewritten, vacated and filled.
    Evict(BlockNo, usize),
}

// What a flush step rewrites: this block, through this frame.
#[derive(Clone, Copy, PartialEq, Eq, Debug)]
pub struct Due {
    pub block: BlockNo,
    pub frame: usize,
}

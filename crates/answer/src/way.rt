// The ways of reads and writes.
ghost use Rattle.std.specs.Prelude.{◌≡◌};

// Where a read found its page.
#[derive(Clone, Copy, PartialEq, Eq, Debug)]
pub enum ReadWay {
    // 1: in a slot
    Slot,
    // 2: in a frame
    Frame,
    // 3: in flash
    Flash,
}

// What a write did that erased no block.
#[derive(Clone, Copy, PartialEq, Eq, Debug)]
pub enum WriteWay {
    // 0: there was nothing to write (request A1)
    Nothing,
    // 1: the page was in a slot
    SlotHit,
    // 2: the page was valid in a frame
    FrameHit,
    // 3: a slot was vacant
    FreeSlot,
    // 4: the victim's pages joined its frame
    Join,
    // 5: they filled a vacant frame
    Fill,
    // 6: they changed places with the fewer pages of a frame
    Exchange,
}

impl From<ReadWay> for u32 {
    ghost use Rattle.answer.specs.Ways.{read_way};

    ghost from_gives = { λ way n. n ≡ read_way way };

    fn from(way: ReadWay) -> u32 {
        match way {
            ReadWay::Slot => 1,
            ReadWay::Frame => 2,
            ReadWay::Flash => 3,
        }
    }
}

impl From<WriteWay> for u32 {
    ghost use Rattle.answer.specs.Ways.{write_way};

    ghost from_gives = { λ way n. n ≡ write_way way };

    fn from(way: WriteWay) -> u32 {
        match way {
            WriteWay::Nothing => 0,
            WriteWay::SlotHit => 1,
            WriteWay::FrameHit => 2,
            WriteWay::FreeSlot => 3,
            WriteWay::Join => 4,
            WriteWay::Fill => 5,
            WriteWay::Exchange => 6,
        }
    }
}

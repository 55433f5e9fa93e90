// The catalogue's sheets in code (requests A9 to A11): on a page, in a table, and what a table of them decides of an operation. No store.
#![tactic(auto)]

pub mod bytes; // bytes.rt: a sheet on a page
pub mod table; // table.rt: a table of sheets, searched
pub mod ranges; // ranges.rt: which pages runs have
pub mod current; // current.rt: what replaces a run, and the current run
pub mod roles; // roles.rt: the grid of roles and operations, and what a trainee sees
pub mod verdict; // verdict.rt: what the table decides of an operation

ghost use Rattle.std.specs.Prelude.{◌≡◌};
ghost use Rattle.runs.specs.Sheet as runs;
ghost use Rattle.sheets.specs.View.{fields_of};

// The run number of an erased page.
pub const ERASED: u32 = 4294967295;

// The mark of a run that has none.
pub const UNMARKED: u32 = 255;

// A sheet: seven numbers. They are those of its page, so that none is an option: 0, 255 and ERASED stand on the page for what is not there.
#[derive(Clone, Copy, PartialEq, Eq, Debug)]
pub struct Sheet {
    pub run: u32,
    pub trainee: u32,
    pub sample: u32,
    // the first data page, and the page count
    pub first: u32,
    pub count: u32,
    // 0 to 100, or 255 for unmarked
    pub mark: u32,
    // the run that it replaces, 0 for none
    pub replaces: u32,
}

// What stands in a table before its sheets are read.
pub const BLANK: Sheet = Sheet {
    run: 0,
    trainee: 0,
    sample: 0,
    first: 0,
    count: 0,
    mark: 0,
    replaces: 0,
};

impl Sheet {
    // Whether it is empty: its page was never written, or is erased.
    #[tactic(auto, unfolding(runs::specs::Sheet::empty_run))]
    pub fn is_empty(self) -> bool
        ensures { result ≡ runs.is_empty (fields_of self) }
    {
        (self.run == 0) | (self.run == ERASED)
    }
}

// Counts of spoilt records that are found unsound.
use crate::report;
use cache::{Directory, Sizes};
use records::{Entry, with};
use sound::directory_sound;
use std::io;

// A run of entries of a record.
#[derive(Clone, Copy, PartialEq, Eq, Debug)]
pub struct Run {
    pub sizes: Sizes,
    pub directory: Directory,
    pub from: usize,
    pub to: usize,
}

// The entries of this record from one index to another.
pub fn entries(sizes: Sizes, directory: Directory, from: usize, to: usize) -> Run {
    Run {
        sizes,
        directory,
        from,
        to,
    }
}

impl Run {
    // Each entry alone is replaced by x: so many of these records must be unsound.
    pub fn each(self, rt: &impl Print, name: &str, x: Entry, expected: u64) -> io::Result<()> {
        report::tally(rt, name, expected, self.unsound(x))
    }

    // How many of these records are unsound. By index, since the list that has the entry is another for each kind of entry.
    fn unsound(self, x: Entry) -> u64 {
        let mut count = 0u64;
        for i in self.from..self.to {
            if !directory_sound(self.sizes, &with(self.directory, i, x)) {
                count = count.saturating_add(1);
            }
        }
        count
    }
}

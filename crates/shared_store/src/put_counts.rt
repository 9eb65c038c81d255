//! What came of the points of a piece.
ghost use Rattle.std.specs.Prelude.{◌≡◌, []};
ghost use Rattle.shared_store.specs.Pieces.{CountsPut, FewCounts, counts_of, counts_with};

use carbon_history::PutEnd;
use point_cache::Put;

/// How many points of a piece were put, and how many of these with which outcome.
#[derive(Clone, Copy, Debug, PartialEq, Eq)]
pub struct PutCounts {
    /// How many were put: all, or those before the first for which there was no memory.
    pub done: u64,
    /// Those that were stored.
    pub stored: u64,
    /// Those that replaced a value.
    pub replaced: u64,
    /// Those that found their class full.
    pub full: u64,
}

impl PutCounts {
    // Nothing is put.
    pub(crate) fn new() -> PutCounts
        ensures { result ≡ counts_of [] }
    {
        PutCounts {
            done: 0,
            stored: 0,
            replaced: 0,
            full: 0,
        }
    }

    // Counts a point that was put: whether it was, and there was memory for it.
    pub(crate) fn count(&mut self, put: Put) -> bool
        requires { FewCounts self.old }
        ensures { CountsPut put result self.old self.new }
    {
        match put {
            Put::Stored => self.add(PutEnd::Stored),
            Put::Replaced => self.add(PutEnd::Replaced),
            Put::Full => self.add(PutEnd::Full),
            Put::NoMemory => return false,
        }
        true
    }

    fn add(&mut self, end: PutEnd)
        requires { FewCounts self.old }
        ensures { self.new ≡ counts_with self.old end }
    {
        self.done += 1;
        match end {
            PutEnd::Stored => self.stored += 1,
            PutEnd::Replaced => self.replaced += 1,
            PutEnd::Full => self.full += 1,
        }
    }
}

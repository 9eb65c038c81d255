//! How many matches may be replaced.
use std::alloc::AllocError;
use std::cell::Cell;

/// How many further matches may be replaced: behind that many it is want of memory.
#[derive(Drop)]
pub struct MatchCount {
    left: Cell<u64>,
}

impl MatchCount {
    /// So many.
    pub fn new(most: u64) -> MatchCount {
        MatchCount {
            left: Cell::new(most),
        }
    }

    /// How many are left.
    pub fn left(&self) -> u64 {
        self.left.get()
    }

    /// Takes one.
    pub(crate) fn take(&self) -> Result<(), AllocError> {
        let left = self.left.get();
        if left == 0 {
            return Err(AllocError);
        }
        self.left.set(left - 1);
        Ok(())
    }
}

//! Grids, and why there is none.
ghost use Rattle.std.specs.Prelude.{◌≡◌, ◌≤◌, IfOk};
ghost use Rattle.series_set.specs.Series.{latest_end, widest_step};
ghost use Rattle.series_set.specs.CommonGrid.{IsGrid, IsWhole, short_grid, value_count, widened};

use crate::series::MOST_VALUES;
use std::alloc::{AllocError, AllocFailed};
use thiserror::Error;

/// Buckets of neighbouring moments: the first begins at `start`, each is `step` long and the last ends at `end`, all in seconds.
#[derive(Clone, Copy, Debug, PartialEq, Eq)]
pub struct Grid {
    pub start: u64,
    pub end: u64,
    pub step: u64,
}

impl Grid {
    /// How many values a series on the grid has.
    pub fn value_count(&self) -> u64
        requires some { 1 ≤ self.now.step }
        requires order { self.now.start ≤ self.now.end }
        ensures { result ≡ value_count self.now }
    {
        (self.end - self.start) / self.step
    }

    /// The grid with its start rounded down and its end rounded up to a multiple of the step.
    pub fn widened(&self) -> Grid
        requires some { 1 ≤ self.now.step }
        requires short { self.now.step ≤ widest_step }
        requires early { self.now.end ≤ latest_end }
        ensures { result ≡ widened self.now }
    {
        Grid {
            start: self.start - self.start % self.step,
            end: self.end.next_multiple_of(self.step),
            step: self.step,
        }
    }

    /// The grid itself, or `TooLong` exactly where it has more than [`MOST_VALUES`] values, with their number.
    pub fn short(self) -> Result<Grid, EvalFault>
        requires { IsWhole self }
        ensures value { result ≡ short_grid self }
        ensures grid { IfOk result IsGrid }
        ensures same { IfOk result (λ short. short ≡ self) }
    {
        let count = self.value_count();
        if count > MOST_VALUES {
            return Err(EvalFault::TooLong(count));
        }
        Ok(self)
    }
}

/// Why series have no value together.
#[derive(Clone, Copy, Debug, PartialEq, Eq, Error)]
pub enum EvalFault {
    /// The steps have this common multiple, more than 31,536,000 seconds.
    #[error("step too wide: {0}")]
    StepTooWide(u64),
    /// The grid has this many values, more than 4,000,000.
    #[error("grid too long: {0}")]
    TooLong(u64),
    /// There was no memory.
    #[error("there was no memory")]
    NoMemory,
}

impl From<AllocError> for EvalFault {
    ghost use Rattle.std.specs.Prelude.{◌≡◌};
    ghost use Rattle.series_set.specs.declared.grid.EvalFault.TheVariants.{NoMemory};

    ghost from_gives = { λ _ fault. fault ≡ NoMemory };

    fn from(_refused: AllocError) -> EvalFault {
        EvalFault::NoMemory
    }
}

impl<T: Drop> From<AllocFailed<T>> for EvalFault {
    ghost use Rattle.std.specs.Prelude.{◌≡◌};
    ghost use Rattle.series_set.specs.declared.grid.EvalFault.TheVariants.{NoMemory};

    ghost from_gives = { λ _ fault. fault ≡ NoMemory };

    fn from(_refused: AllocFailed<T>) -> EvalFault {
        EvalFault::NoMemory
    }
}

//! Why a line of cases says none.

use std::alloc::{AllocError, AllocFailed};
use thiserror::Error;

/// Why a line of cases says none.
#[derive(Clone, Copy, Debug, PartialEq, Eq, Error)]
pub enum CaseFault {
    /// The line has none of the forms, or its words are not those of its verb.
    #[error("case error")]
    Malformed,
    /// There was no memory.
    #[error("no memory")]
    NoMemory,
}

impl From<AllocError> for CaseFault {
    fn from(_refused: AllocError) -> CaseFault {
        CaseFault::NoMemory
    }
}

impl<T: Drop> From<AllocFailed<T>> for CaseFault {
    fn from(_refused: AllocFailed<T>) -> CaseFault {
        CaseFault::NoMemory
    }
}

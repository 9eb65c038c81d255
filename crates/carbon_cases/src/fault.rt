//! Why a line of the cases is not done.

use std::alloc::{AllocError, AllocFailed};
use thiserror::Error;

/// Why a line of the cases is not done.
#[derive(Clone, Copy, Debug, PartialEq, Eq, Error)]
pub enum CaseFault {
    /// The line has none of the forms.
    #[error("case error")]
    Malformed,
    /// There was no memory.
    #[error("no memory")]
    NoMemory,
}

impl From<AllocError> for CaseFault {
    fn from(_refused: AllocError) -> CaseFault {
        CaseFault::NoMemory
    }
}

impl<T: Drop> From<AllocFailed<T>> for CaseFault {
    fn from(_refused: AllocFailed<T>) -> CaseFault {
        CaseFault::NoMemory
    }
}

//! What keeps carbon from its work before it begins.

use std::alloc::{AllocError, AllocFailed};
use thiserror::Error;

/// What keeps carbon from its work before it begins. Its text stands behind `carbon: `.
#[derive(Clone, Copy, Debug, PartialEq, Eq, Error)]
pub(crate) enum Unready {
    /// There was no memory.
    #[error("no memory")]
    NoMemory,
    /// Another carbon works in the folder, or in that of the ring files.
    #[error("folder in use")]
    FolderInUse,
    /// The system gives the process fewer file descriptors than it needs.
    #[error("file descriptors: {needed} needed, {given} given")]
    FewDescriptors {
        /// How many may be open at once.
        needed: u64,
        /// How many the system lets it open.
        given: u64,
    },
    /// The system gives the process fewer threads than it needs.
    #[error("threads: {needed} needed, {given} given")]
    FewThreads {
        /// How many are at work at once.
        needed: u64,
        /// How many there were.
        given: u64,
    },
    /// The system gives no thread that listens for the stop.
    #[error("no thread")]
    NoThread,
}

impl From<AllocError> for Unready {
    fn from(_refused: AllocError) -> Unready {
        Unready::NoMemory
    }
}

impl<T: Drop> From<AllocFailed<T>> for Unready {
    fn from(_refused: AllocFailed<T>) -> Unready {
        Unready::NoMemory
    }
}

impl Unready {
    /// The exit status.
    pub(crate) fn status(self) -> u8 {
        match self {
            Unready::NoMemory => 8,
            Unready::FolderInUse => 12,
            Unready::FewDescriptors { .. } | Unready::FewThreads { .. } | Unready::NoThread => 13,
        }
    }
}

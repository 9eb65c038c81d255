//! Why what an open gate holds could not be laid.
ghost use Rattle.std.specs.Prelude.{◌≡◌};

use thiserror::Error;

/// Why a start could not lay what the log holds.
#[derive(Clone, Copy, Debug, PartialEq, Eq, Error)]
pub enum RedoFault {
    /// The gate is open, and the log has no body, or that of a file which is not to be created and is not there
    /// with its head and its length.
    #[error("the log is damaged")]
    Damaged,
    /// The disk failed.
    #[error("the disk failed")]
    DiskFault,
    /// Memory ran out.
    #[error("out of memory")]
    NoMemory,
}

//! Why a shard did not start.
use thiserror::Error;

/// Why a shard did not start.
#[derive(Debug, Drop, Error)]
pub enum StartFault {
    /// The log is damaged behind its open gate, or else a ring file of the class is: the first by its
    /// name, in byte order.
    #[error("the file {0} is damaged")]
    Damaged(String),
    /// The disk failed.
    #[error("the disk failed")]
    DiskFault,
    /// There was no memory.
    #[error("there was no memory")]
    NoMemory,
}

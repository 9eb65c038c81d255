// Why a call for a file failed.
use std::alloc::{AllocError, AllocFailed, Global};
use std::io;
use thiserror::Error;

/// Why a call for a file failed, as it is told to an operator.
#[derive(Debug, Drop, Error)]
pub(crate) enum FileFault {
    #[error("{0}")]
    System(io::Error),
    #[error("no plain file")]
    NotPlain,
    #[error("it has {0}, which is neither a plain file nor a folder")]
    HasOther(String),
    #[error("it stands behind {0}, which is neither a plain file nor a folder")]
    Behind(String),
    #[error("removed or replaced while it was in use; put it back, or start again: a file that is missing then is made anew")]
    Replaced,
    #[error("shorter than it was; put it back whole, or remove it and start again")]
    Shorter,
    #[error("a file is there that is not this disk's to write over; start again to read it")]
    InTheWay,
    #[error("no file is made for a moment, since one could not be made")]
    Paused,
    #[error("not brought to the device ({0}); the system may have forgotten what was written: stop carbon, and start the machine anew")]
    NotSynced(io::Error),
    #[error("not brought to the device earlier; the system may have forgotten what was written: stop carbon, and start the machine anew")]
    Forgotten,
    #[error("out of memory")]
    NoMemory,
}

// Which file or folder a call over several of them met a fault at.
#[derive(Drop)]
pub(crate) struct NamedFault {
    pub(crate) name: String,
    pub(crate) fault: FileFault,
}

impl NamedFault {
    // A fault of the folder itself.
    pub(crate) fn of_folder(alloc: Global, fault: FileFault) -> NamedFault {
        NamedFault {
            name: String::new(alloc),
            fault,
        }
    }

    // The fault of a path in a folder; where there is no memory for its name, that of the folder.
    pub(crate) fn of_path(alloc: Global, folder: &str, path: &str, fault: FileFault) -> NamedFault {
        let name = path.get(folder.len() + 1..).unwrap_or("");
        NamedFault {
            name: String::from_str(alloc, name).unwrap_or(String::new(alloc)),
            fault,
        }
    }
}

impl From<io::Error> for FileFault {
    fn from(error: io::Error) -> FileFault {
        FileFault::System(error)
    }
}

impl From<AllocError> for FileFault {
    fn from(_refused: AllocError) -> FileFault {
        FileFault::NoMemory
    }
}

impl<T: Drop> From<AllocFailed<T>> for FileFault {
    fn from(_refused: AllocFailed<T>) -> FileFault {
        FileFault::NoMemory
    }
}

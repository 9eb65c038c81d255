//! Why a text is no glob.
use std::alloc::AllocError;

/// Why a text is no glob: the first fault, read from the left. `NoMemory` is told only of a glob.
#[derive(Clone, Copy, Debug, PartialEq, Eq)]
pub enum GlobFault {
    /// The text has more than 4,096 bytes.
    TooLong,
    /// A node has no piece: a dot stands at this place, or the text ends there.
    EmptyNode(usize),
    /// The byte at this place can't stand there.
    BadByte(usize),
    /// The bracket or brace at this place is not closed. Where two are not, the inner one is told.
    Unclosed(usize),
    /// Memory ran out.
    NoMemory,
}

impl From<AllocError> for GlobFault {
    ghost use Rattle.std.specs.Prelude.{◌≡◌};
    ghost use Rattle.path_glob.specs.declared.fault.GlobFault.TheVariants.{NoMemory};

    ghost from_gives = { λ _ fault. fault ≡ NoMemory };

    fn from(_: AllocError) -> GlobFault {
        GlobFault::NoMemory
    }
}

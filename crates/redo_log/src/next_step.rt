//! The steps by which a patch goes through the log to its file.

/// The next step of a redo: each is one call of the disk.
#[derive(Clone, Copy, Debug, PartialEq, Eq)]
pub enum NextStep {
    /// The log is created, with the length of the body.
    CreateLog,
    /// The first piece of the body is written.
    FirstPiece,
    /// A later piece is written, behind so many cells.
    Piece {
        /// How many cells are written.
        written: usize,
    },
    /// The body is brought to the device.
    SyncBody,
    /// The gate's byte is set to 1.
    OpenGate,
    /// The open gate is brought to the device.
    SyncOpen,
    /// A run of the patch is written to its file.
    Run,
    /// The runs are brought to the device.
    SyncRuns,
    /// The gate's byte is set to 0.
    CloseGate,
    /// The closed gate is brought to the device.
    SyncClose,
}

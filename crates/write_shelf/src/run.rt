//! Runs of writes.

/// A piece of a drain's writing: what one call of the disk does.
#[derive(Clone, Copy, Debug, PartialEq, Eq)]
pub enum Run {
    /// The file is created, with this many bytes, all zero.
    Create {
        /// The bytes of a file of the patch's layout.
        length: u64,
    },
    /// Cells that lie side by side in the file are written.
    Cells {
        /// The archive, from 0 on.
        archive: u32,
        /// The slot of the first cell in the archive's ring, from 0 on.
        slot: u32,
        /// How many cells, from 1 to [`RUN_CELLS`](ring_format::RUN_CELLS).
        count: u32,
    },
    /// The file's head is written, which makes it a ring file.
    Head,
}

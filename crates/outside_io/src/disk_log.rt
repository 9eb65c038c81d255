// The log of a disk in memory.
ghost use Rattle.std.specs.Prelude.{◌≡◌, ℕ, [], ◌∷◌, length, drop, OnOk, OnErr};

use std::alloc::{AllocError, Global};
use std::marker::Model;

// The bytes of a range of a file before it was written.
#[derive(Debug, Drop)]
pub(crate) struct OldRange {
    pub(crate) name: String,
    pub(crate) at: u64,
    pub(crate) bytes: Vec<u8>,
}

// What stood under a name before a file was made there.
#[derive(Debug, Drop)]
pub(crate) struct OldFile {
    pub(crate) name: String,
    pub(crate) file: Option<Vec<u8>>,
}

// A change of a disk, with what undoes it, or a sync.
#[derive(Debug, Drop)]
pub(crate) enum DiskChange {
    Wrote(OldRange),
    Created(OldFile),
    Synced,
}

// The changes of a disk. Contracts see the last one first.
#[derive(Debug, Drop)]
pub(crate) struct DiskLog {
    changes: Vec<DiskChange>,
}

impl Model for DiskLog {
    ghost use Rattle.std.specs.Prelude.{List, reverse};
    ghost use Rattle.outside_io.specs.declared.disk_log.DiskChange.{DiskChange};

    ghost Value = { List DiskChange };

    ghost view = { λ log. reverse log.changes.items };
}

impl DiskLog {
    pub(crate) fn new(alloc: Global) -> DiskLog
        ensures { result ≡ [] }
    {
        DiskLog {
            changes: Vec::new(alloc),
        }
    }

    pub(crate) fn len(&self) -> usize
        ensures { result ≡ length self.now }
    {
        self.changes.len()
    }

    pub(crate) fn push(&mut self, change: DiskChange) -> Result<(), AllocError>
        ensures ok { OnOk result (self.new ≡ change ∷ self.old) }
        ensures err { OnErr result (self.new ≡ self.old) }
    {
        Ok(self.changes.push(change)?)
    }

    // The change that was logged last is taken away.
    pub(crate) fn pop(&mut self)
        ensures { self.new ≡ drop 1 self.old }
    {
        let _ = self.changes.pop();
    }

    pub(crate) fn clear(&mut self)
        ensures { self.new ≡ [] }
    {
        self.changes.clear();
    }
}

// What a disk in memory keeps beside its files.
ghost use Rattle.std.specs.Prelude.{◌≡◌, ◌≤◌, IsErr, OnErr, is_err};
ghost use Rattle.outside_io.specs.Calls.{fails_next};
ghost use Rattle.outside_io.specs.Faults.{raised, Rose};
ghost use Rattle.outside_io.specs.MemDisk.{new_state, after_reading, after_writing, after_syncing};

use crate::calls::FailingCalls;
use crate::disk::DiskFailed;
use crate::disk_calls::DiskCalls;
use crate::faults::raised;
use std::alloc::Global;

// The room, which calls fail, and the counts.
#[derive(Debug, Drop)]
pub(crate) struct DiskState {
    pub(crate) room: u64,
    // Which of the creates, writes and syncs fail.
    pub(crate) writes: FailingCalls,
    // Which of the calls that only read fail.
    pub(crate) reads: FailingCalls,
    // Whether a failing write leaves its range torn.
    pub(crate) tears: bool,
    pub(crate) calls: DiskCalls,
    pub(crate) faults: u64,
}

impl DiskState {
    // Nothing fails yet.
    pub(crate) fn new(alloc: Global, room: u64) -> DiskState
        ensures { result ≡ new_state room }
    {
        DiskState {
            room,
            writes: FailingCalls::none(alloc),
            reads: FailingCalls::none(alloc),
            tears: false,
            calls: DiskCalls::NONE,
            faults: 0,
        }
    }

    // One fault more.
    pub(crate) fn failed<T>(&mut self) -> Result<T, DiskFailed>
        ensures answer { IsErr result }
        ensures counted { self.new ≡ record self.old { faults = raised self.old.faults } }
        ensures later { self.old.faults ≤ self.new.faults }
    {
        self.faults = raised(self.faults);
        Err(DiskFailed)
    }

    // Counts a call that reads, beside the calls of its kind; it fails where it is listed.
    pub(crate) fn start_read(&mut self) -> Result<(), DiskFailed>
        ensures answer { is_err result ≡ fails_next self.old.reads }
        ensures counted { self.new ≡ after_reading self.old self.old.calls }
        ensures later { self.old.faults ≤ self.new.faults }
        ensures cause { OnErr result (Rose self.old.faults self.new.faults) }
    {
        if self.reads.fails_now() {
            return self.failed();
        }
        Ok(())
    }

    // Counts a write, and says whether it is to fail.
    pub(crate) fn start_write(&mut self) -> bool
        ensures answer { result ≡ fails_next self.old.writes }
        ensures counted { self.new ≡ after_writing self.old }
    {
        self.calls.writes = raised(self.calls.writes);
        self.writes.fails_now()
    }

    // Counts a sync, and says whether it is to fail.
    pub(crate) fn start_sync(&mut self) -> bool
        ensures answer { result ≡ fails_next self.old.writes }
        ensures counted { self.new ≡ after_syncing self.old }
    {
        self.calls.syncs = raised(self.calls.syncs);
        self.writes.fails_now()
    }
}

// A disk whose calls may wait.
use crate::faults::raised;
use crate::gate::{Gate, pass};
use outside_io::{Disk, DiskFailed, MemDisk, NamesFault};
use std::time::Clock;

/// A disk over another one, whose image it tells, and what a crash may leave of it. One of its calls of `read_at`, or some one behind the
/// other, its first `create`, its first `write_at` and its first `sync` may be made to wait at a gate, and fail where that does not open.
#[derive(Drop)]
pub struct GateDisk<R: Clock, D: Disk = MemDisk> {
    disk: D,
    // how many reads come before the one that waits
    reads_before: u64,
    read_gate: Option<Gate<R>>,
    // those of the reads that come next, the last one first
    later_gates: Option<Vec<Gate<R>>>,
    create_gate: Option<Gate<R>>,
    write_gate: Option<Gate<R>>,
    sync_gate: Option<Gate<R>>,
    faults: u64,
}

// The next of these gates, of which the last comes first.
fn next_of<R: Clock>(gates: &mut Option<Vec<Gate<R>>>) -> Option<Gate<R>> {
    match gates {
        Some(gates) => gates.pop(),
        None => None,
    }
}

impl<R: Clock + Drop, D: Disk + Drop> GateDisk<R, D> {
    /// This disk. No call waits.
    pub fn new(disk: D) -> GateDisk<R, D> {
        GateDisk {
            disk,
            reads_before: 0,
            read_gate: None,
            later_gates: None,
            create_gate: None,
            write_gate: None,
            sync_gate: None,
            faults: 0,
        }
    }

    /// The same disk, whose `read_at` behind so many others waits.
    pub fn reading_at(mut self, reads_before: u64, gate: Gate<R>) -> GateDisk<R, D> {
        self.reads_before = reads_before;
        self.read_gate = Some(gate);
        self
    }

    /// The same disk, whose calls of `read_at` behind the one that waits wait too, each at the next of these gates.
    pub fn reading_on(mut self, mut gates: Vec<Gate<R>>) -> GateDisk<R, D> {
        gates.reverse();
        self.later_gates = Some(gates);
        self
    }

    /// The same disk, whose first `create` waits.
    pub fn creating_at(mut self, gate: Gate<R>) -> GateDisk<R, D> {
        self.create_gate = Some(gate);
        self
    }

    /// The same disk, whose first `write_at` waits.
    pub fn writing_at(mut self, gate: Gate<R>) -> GateDisk<R, D> {
        self.write_gate = Some(gate);
        self
    }

    /// The same disk, whose first `sync` waits.
    pub fn syncing_at(mut self, gate: Gate<R>) -> GateDisk<R, D> {
        self.sync_gate = Some(gate);
        self
    }
}

impl<R: Clock + Drop, D: Disk + Drop> Disk for GateDisk<R, D> {
    ghost image = { λ disk. D.image disk.disk };

    ghost faults = { λ disk. disk.faults };

    ghost may_leave = { λ disk. D.may_leave disk.disk };

    ghost moment = { λ disk. D.moment disk.disk };

    ghost left_since = { λ disk. D.left_since disk.disk };

    ghost counts_now = { λ disk. D.counts_now disk.disk };

    ghost only_now = { λ disk. D.only_now disk.disk };

    ghost as_it_reads = { λ disk. D.as_it_reads disk.disk };

    ghost Past = { D.Past };

    ghost changes = { λ disk. D.changes disk.disk };

    ghost same_changes = { λ old new. D.same_changes old.disk new.disk };

    fn faults(&self) -> u64 {
        self.faults
    }

    fn names(&mut self) -> Result<Vec<String>, NamesFault> {
        match self.disk.names() {
            Err(NamesFault::Failed) => {
                self.faults = raised(self.faults);
                Err(NamesFault::Failed)
            }
            answer => answer,
        }
    }

    fn length(&mut self, name: &str) -> Result<Option<u64>, DiskFailed> {
        match self.disk.length(name) {
            Ok(length) => Ok(length),
            Err(fault) => {
                self.faults = raised(self.faults);
                Err(fault)
            }
        }
    }

    fn create(&mut self, name: &str, len: u64) -> Result<(), DiskFailed> {
        let is_open = pass(&self.create_gate);
        self.create_gate = None;
        if !is_open {
            self.faults = raised(self.faults);
            return Err(DiskFailed);
        }
        match self.disk.create(name, len) {
            Ok(()) => Ok(()),
            Err(fault) => {
                self.faults = raised(self.faults);
                Err(fault)
            }
        }
    }

    fn read_at(&mut self, name: &str, at: u64, buf: &mut [u8]) -> Result<(), DiskFailed> {
        let is_open = self.reads_before > 0 || pass(&self.read_gate);
        if self.reads_before == 0 {
            self.read_gate = next_of(&mut self.later_gates);
        }
        self.reads_before = self.reads_before.saturating_sub(1);
        if !is_open {
            self.faults = raised(self.faults);
            return Err(DiskFailed);
        }
        match self.disk.read_at(name, at, buf) {
            Ok(()) => Ok(()),
            Err(fault) => {
                self.faults = raised(self.faults);
                Err(fault)
            }
        }
    }

    #[tactic(auto, using(crate::proofs::SameFiles::same_tears))]
    fn write_at(&mut self, name: &str, at: u64, piece: &[u8]) -> Result<(), DiskFailed> {
        let is_open = pass(&self.write_gate);
        self.write_gate = None;
        if !is_open {
            self.faults = raised(self.faults);
            return Err(DiskFailed);
        }
        match self.disk.write_at(name, at, piece) {
            Ok(()) => Ok(()),
            Err(fault) => {
                self.faults = raised(self.faults);
                Err(fault)
            }
        }
    }

    fn sync(&mut self) -> Result<(), DiskFailed> {
        let is_open = pass(&self.sync_gate);
        self.sync_gate = None;
        if !is_open {
            self.faults = raised(self.faults);
            return Err(DiskFailed);
        }
        match self.disk.sync() {
            Ok(()) => Ok(()),
            Err(fault) => {
                self.faults = raised(self.faults);
                Err(fault)
            }
        }
    }
}

//! A disk that keeps what a crash may leave of it.
ghost use Rattle.std.specs.Prelude.{◌≡◌, None};
ghost use Rattle.outside_io.specs.Faults.{raised};

use crate::fates::{Change, image_count, image_of};
use crate::files::Files;
use crate::moment::Moment;
use outside_io::{Disk, DiskFailed, NamesFault};
use redo_log::{GATE_NAME, LOG_NAME};
use std::alloc::{AllocError, Global};

/// A disk in memory. After so many calls that change it or sync it, each such call fails.
#[derive(Drop)]
pub struct CrashDisk {
    alloc: Global,
    files: Files,
    // the files at the last sync, and what was done since then
    synced: Files,
    pending: Vec<Change>,
    last: Moment,
    left: u64,
    faults: u64,
}

impl CrashDisk {
    /// A disk with these files, all of which are on the device.
    pub fn of(alloc: Global, files: &Files, left: u64) -> Result<CrashDisk, AllocError> {
        Ok(CrashDisk {
            alloc,
            files: files.copy()?,
            synced: files.copy()?,
            pending: Vec::new(alloc),
            last: Moment::Nothing,
            left,
            faults: 0,
        })
    }

    /// Whether it takes a further call.
    pub fn has_calls(&self) -> bool {
        self.left > 0
    }

    /// What the last call did.
    pub fn last(&self) -> Moment {
        self.last
    }

    /// How many changes there were since the last sync.
    pub fn pending(&self) -> usize {
        self.pending.len()
    }

    /// How many images a crash may leave now.
    pub fn image_count(&self) -> u64 {
        image_count(self.pending.len())
    }

    /// One of them.
    pub fn image(&self, number: u64) -> Result<Files, AllocError> {
        image_of(self.alloc, &self.synced, &self.pending, number)
    }

    // Counts a call, and says whether it may be made.
    fn may_go(&mut self) -> bool
        ensures { self.new.faults ≡ self.old.faults }
    {
        if self.left == 0 {
            return false;
        }
        self.left -= 1;
        true
    }

    fn try_create(&mut self, name: &str, len: u64) -> Result<(), AllocError>
        ensures { self.new.faults ≡ self.old.faults }
    {
        let zeros = vec![in self.alloc; 0; len as usize]?;
        let kept = String::from_str(self.alloc, name)?;
        self.pending.push(Change::Created { name: kept, len })?;
        self.last = created(name);
        self.files.put(name, &zeros)
    }

    fn try_write(&mut self, name: &str, at: u64, piece: &[u8]) -> Result<bool, AllocError>
        ensures { self.new.faults ≡ self.old.faults }
    {
        let kept = String::from_str(self.alloc, name)?;
        let bytes = piece.to_vec(self.alloc)?;
        self.pending.push(Change::Wrote {
            name: kept,
            at,
            bytes,
        })?;
        self.last = written(name, piece);
        Ok(self.files.lay(name, at, piece))
    }

    fn try_sync(&mut self) -> Result<(), AllocError>
        ensures { self.new.faults ≡ self.old.faults }
    {
        self.synced = self.files.copy()?;
        self.pending = Vec::new(self.alloc);
        self.last = self.last.synced();
        Ok(())
    }
}

// What a create of a file did.
fn created(name: &str) -> Moment {
    if name == LOG_NAME {
        return Moment::LogCreated;
    }
    if name == GATE_NAME {
        return Moment::GateCreated;
    }
    Moment::RingCreated
}

// What a write of a piece did.
fn written(name: &str, piece: &[u8]) -> Moment {
    if name == LOG_NAME {
        return Moment::LogWritten;
    }
    if name != GATE_NAME {
        return Moment::RingWritten;
    }
    match piece.first() {
        Some(&1) => Moment::GateOpened,
        _ => Moment::GateClosed,
    }
}

// One fault more.
fn raised(count: u64) -> u64
    ensures { result ≡ raised count }
{
    count.saturating_add(1)
}

impl Disk for CrashDisk {
    ghost use Rattle.std.specs.Prelude.{ℕ, IfSome, refl};
    ghost use Rattle.std.proofs.Common.{subst};

    ghost image = { λ _. None };

    ghost faults = { λ disk. disk.faults };

    ghost may_leave = { λ _ _. ⊥ };

    ghost moment = { λ _. 0 };

    ghost left_since = { λ _ _ _. ⊥ };

    ghost counts_now = { λ _ _ _ _ now. now };

    ghost only_now = { λ _ _ since. since };

    ghost as_it_reads = { λ disk now left known same.
        absurd (subst (λ told. IfSome told (λ _. ⊥)) known tt) };

    ghost Past = { ℕ };

    ghost changes = { λ _. 0 };

    ghost same_changes = { λ _ _ _ _. record {
      moment = refl;
      leaves = λ _ none. none;
      since = λ _ _ none. none;
      keeps = λ _ _ none. none;
    } };

    fn faults(&self) -> u64 {
        self.faults
    }

    fn names(&mut self) -> Result<Vec<String>, NamesFault> {
        self.faults = raised(self.faults);
        Err(NamesFault::Failed)
    }

    fn length(&mut self, name: &str) -> Result<Option<u64>, DiskFailed> {
        match self.files.get(name) {
            Some(bytes) => Ok(Some(bytes.len() as u64)),
            None => Ok(None),
        }
    }

    fn create(&mut self, name: &str, len: u64) -> Result<(), DiskFailed> {
        if self.may_go() && self.try_create(name, len).is_ok() {
            return Ok(());
        }
        self.faults = raised(self.faults);
        Err(DiskFailed)
    }

    fn read_at(&mut self, name: &str, at: u64, buf: &mut [u8]) -> Result<(), DiskFailed> {
        if self.files.read(name, at, buf) {
            return Ok(());
        }
        self.faults = raised(self.faults);
        Err(DiskFailed)
    }

    fn write_at(&mut self, name: &str, at: u64, piece: &[u8]) -> Result<(), DiskFailed> {
        if self.may_go() && matches!(self.try_write(name, at, piece), Ok(true)) {
            return Ok(());
        }
        self.faults = raised(self.faults);
        Err(DiskFailed)
    }

    fn sync(&mut self) -> Result<(), DiskFailed> {
        if self.may_go() && self.try_sync().is_ok() {
            return Ok(());
        }
        self.faults = raised(self.faults);
        Err(DiskFailed)
    }
}

// The disk.
ghost use Rattle.std.specs.Prelude.{◌≡◌, ◌≤◌, None, IsErr, OnErr, MatchResult};
ghost use Rattle.outside_io.specs.Faults.{Rose};

use crate::create_pause::CreatePause;
use crate::fault::{FileFault, NamedFault};
use crate::faults_told::FaultsTold;
use crate::files::FolderFiles;
use crate::open_file::Links;
use outside_io::{Disk, DiskFailed, NamesFault};
use std::fs::File;
use std::io::Eprint;
use std::rt::Files;
use std::time::Clock;

/// The files in a folder and in the folders in it. It tells nothing of its bytes.
///
/// A name is a path from the folder, without `.` and `..` among its parts. The folder need not be there: then there are no names, and the
/// first `create` makes it. Only plain files have names, and only where these are text. Anything but plain files and folders is a fault of
/// the call that meets it, also where the name stands behind it, and of `names` where nobody asks for it. Every error counts as a fault of
/// the disk, want of memory too.
///
/// `create` writes over no ring file that is whole: where a name that ends in `.ring` is taken it fails, but for a plain file that begins
/// with 16 zero bytes or has zero bytes alone, as one that was being made when its process ended; and for a ring file of version 1 which was
/// there, as it is, when `names` was called last, since a drain reads such a file and then makes it anew. Before the first `names` there is
/// only the log of an earlier process to be laid, which may have come as far as the head of a file: a ring file of version 1, or one of the
/// length that is asked for whose bytes are no older than those of the file of the call before, which is the log, is made anew then where it
/// was there, as it is, when this disk was made. Under any other name a plain file is made anew, over the bytes that it has.
///
/// The file of the last call stays open, so that calls for one file in a row open it once. Each write looks whether the name still leads to
/// that file (it may do so through an inner folder that became a link meanwhile), and so does a read where the last look is a tenth of a
/// second old: where it was removed, renamed or replaced meanwhile the call fails, and so does a read or a write behind the end of a file
/// that was cut. The next call looks into the folder anew.
///
/// `sync` brings to the device what this disk wrote and made since the last one, and the names of what it made with the folders on their way,
/// from its own folder on; and once, when its own folder is there, the name of that. Where more than four files were written or made it goes
/// over the whole folder, and so does the first one, for what an earlier process may have left. A file that was removed or replaced meanwhile
/// is a fault. Once the system failed to bring something to the device every further `sync` fails: it may have forgotten what was written,
/// and would not say so again.
///
/// After a create that failed no other is tried for a twentieth of a second, and twice as long after each further one, up to a second; calls
/// in between fail.
///
/// A fault is told on standard error with file and reason, at most once a minute for each disk.
#[derive(Drop)]
pub struct FolderDisk<R> {
    files: FolderFiles<R>,
    // whether the folder is tried before it is listed
    is_tried: bool,
    creates: CreatePause,
    told: FaultsTold,
    faults: u64,
}

impl<R: Files<File = File> + AllocGlobal + Clone + Drop + Eprint + Clock> FolderDisk<R> {
    /// The disk over this folder, a path of the file system.
    pub fn new(rt: R, folder: String) -> Self
        ensures image { ⟦<FolderDisk<R> as Disk>⟧.image result ≡ None }
        ensures faults { ⟦<FolderDisk<R> as Disk>⟧.faults result ≡ 0 }
    {
        FolderDisk::over(FolderFiles::new(rt, folder, Links::Refused), false)
    }

    /// The same, but that `names` makes the folder, and fails where no file can be made in it, written, brought to the device and removed.
    pub fn to_be_written(rt: R, folder: String) -> Self
        ensures image { ⟦<FolderDisk<R> as Disk>⟧.image result ≡ None }
        ensures faults { ⟦<FolderDisk<R> as Disk>⟧.faults result ≡ 0 }
    {
        FolderDisk::over(FolderFiles::new(rt, folder, Links::Refused), true)
    }

    /// The same as `new`, but that a link to a file is the file: for settings, which are read alone.
    pub fn of_settings(rt: R, folder: String) -> Self
        ensures image { ⟦<FolderDisk<R> as Disk>⟧.image result ≡ None }
        ensures faults { ⟦<FolderDisk<R> as Disk>⟧.faults result ≡ 0 }
    {
        FolderDisk::over(FolderFiles::new(rt, folder, Links::Followed), false)
    }

    fn over(files: FolderFiles<R>, is_tried: bool) -> Self
        ensures image { ⟦<FolderDisk<R> as Disk>⟧.image result ≡ None }
        ensures faults { ⟦<FolderDisk<R> as Disk>⟧.faults result ≡ 0 }
    {
        FolderDisk {
            files,
            is_tried,
            creates: CreatePause::none(),
            told: FaultsTold::new(),
            faults: 0,
        }
    }

    fn listed(&self) -> Result<Vec<String>, NamedFault> {
        if self.is_tried {
            if let Err(fault) = self.files.try_folder() {
                let name = String::new(self.files.rt.alloc());
                return Err(NamedFault { name, fault });
            }
        }
        self.files.names()
    }

    fn created(&mut self, name: &str, len: u64) -> Result<(), FileFault>
        ensures { self.new.faults ≡ self.old.faults }
    {
        if !self.creates.is_over(&self.files.rt) {
            return Err(FileFault::Paused);
        }
        let outcome = self.files.create(name, len);
        self.creates = match outcome {
            Ok(()) => CreatePause::none(),
            Err(_) => self.creates.longer(&self.files.rt),
        };
        outcome
    }

    // What a call for a file came to; a fault is counted and told, and no file stays open after it.
    fn counted<T>(&mut self, name: &str, outcome: Result<T, FileFault>) -> Result<T, DiskFailed>
        ensures value { MatchResult outcome (λ value. result ≡ Ok value) (λ _. IsErr result) }
        ensures later { self.old.faults ≤ self.new.faults }
        ensures cause { OnErr result (Rose self.old.faults self.new.faults) }
    {
        match outcome {
            Ok(value) => Ok(value),
            Err(fault) => {
                self.files.let_go();
                self.tell(name, &fault);
                self.faults = self.faults.saturating_add(1);
                Err(DiskFailed)
            }
        }
    }
}

impl<R: Eprint + Clock> FolderDisk<R> {
    fn tell(&mut self, name: &str, fault: &FileFault)
        ensures { self.new.faults ≡ self.old.faults }
    {
        if !matches!(fault, FileFault::Paused) {
            let FolderFiles { rt, folder, .. } = &self.files;
            self.told.tell(rt, folder.as_str(), name, fault);
        }
    }
}

impl<R: Files<File = File> + AllocGlobal + Clone + Drop + Eprint + Clock> Disk for FolderDisk<R> {
    ghost use Rattle.std.specs.Prelude.{ℕ, IfSome, refl};
    ghost use Rattle.std.proofs.Common.{subst};

    ghost image = { λ _. None };

    ghost faults = { λ disk. disk.faults };

    ghost may_leave = { λ _ _. ⊥ };

    ghost moment = { λ _. 0 };

    ghost left_since = { λ _ _ _. ⊥ };

    ghost counts_now = { λ _ _ _ _ now. now };

    ghost only_now = { λ _ _ since. since };

    ghost as_it_reads = { λ disk now left known same.
        absurd (subst (λ told. IfSome told (λ _. ⊥)) known tt) };

    ghost Past = { ℕ };

    ghost changes = { λ _. 0 };

    ghost same_changes = { λ _ _ _ _. record {
      moment = refl;
      leaves = λ _ none. none;
      since = λ _ _ none. none;
      keeps = λ _ _ none. none;
    } };

    fn faults(&self) -> u64 {
        self.faults
    }

    fn names(&mut self) -> Result<Vec<String>, NamesFault> {
        self.files.begin_list();
        match self.listed() {
            Ok(names) => Ok(names),
            Err(NamedFault { name, fault }) => {
                let _ = self.counted::<()>(name.as_str(), Err(fault));
                Err(NamesFault::Failed)
            }
        }
    }

    fn length(&mut self, name: &str) -> Result<Option<u64>, DiskFailed> {
        let outcome = self.files.length(name);
        self.counted(name, outcome)
    }

    fn create(&mut self, name: &str, len: u64) -> Result<(), DiskFailed> {
        let outcome = self.created(name, len);
        self.counted(name, outcome)
    }

    fn read_at(&mut self, name: &str, at: u64, buf: &mut [u8]) -> Result<(), DiskFailed> {
        let outcome = self.files.read(name, at, buf);
        self.counted(name, outcome)
    }

    fn write_at(&mut self, name: &str, at: u64, piece: &[u8]) -> Result<(), DiskFailed> {
        let outcome = self.files.write(name, at, piece);
        self.counted(name, outcome)
    }

    fn sync(&mut self) -> Result<(), DiskFailed> {
        match self.files.sync() {
            Ok(()) => Ok(()),
            Err(NamedFault { name, fault }) => self.counted(name.as_str(), Err(fault)),
        }
    }
}

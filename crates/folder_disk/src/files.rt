// The files of a folder, one open at a time.
use crate::fault::{FileFault, NamedFault};
use crate::moment::Moment;
use crate::open_file::{Access, Links, OpenedFile, sync_folder};
use crate::unsynced::Unsynced;
use std::alloc::AllocError;
use std::fs::{self, File, OpenFile, OpenOptions};
use std::io::{self, ErrorKind, Write};
use std::rt::Files;
use std::time::Clock;

// How many bytes at the front of a ring file are zero until the file is whole.
const FRONT_BYTES: usize = 16;

// A ring file of version 1 begins with the number of its method in four bytes, from 1 to this one.
const LAST_METHOD: u8 = 8;

// The name of the file by which a folder is tried.
const TRIAL: &str = "carbon.trial";

// The end of the name of a ring file.
const RING_END: &str = ".ring";

// The files in a folder, and the one that was used last, which stays open.
#[derive(Drop)]
pub(crate) struct FolderFiles<R> {
    pub(crate) rt: R,
    pub(crate) folder: String,
    pub(crate) links: Links,
    kept: Option<OpenedFile>,
    // when the names were listed last, or the disk was made where they were not yet
    known: Option<Moment>,
    // whether the names were listed
    is_listed: bool,
    unsynced: Unsynced,
    // whether what an earlier process may have left is on the device
    is_settled: bool,
    // whether the name of the folder itself is on the device
    is_named: bool,
    // whether the system failed to bring something to the device
    has_forgotten: bool,
}

// A file that is to have zero bytes alone. A name that is taken, but for that of a ring file which is
// made anew, is on the device with the first sync of the disk, or awaits one with what the disk made.
#[derive(Drop)]
struct MadeFile {
    file: OpenedFile,
    is_new: bool,
}

impl MadeFile {
    // Leaves so many zero bytes. Each drain makes its log anew: were the place of that freed, and
    // another found, all syncs of the file system would wait for it.
    fn clear(&self, length: u64) -> io::Result<()> {
        match self.is_new {
            true => self.file.clear(length),
            false => self.file.clear_in_place(length),
        }
    }
}

impl<R: Clock> FolderFiles<R> {
    // The names are listed from now on.
    pub(crate) fn begin_list(&mut self) {
        self.known = Moment::now(&self.rt);
        self.is_listed = true;
    }
}

impl<R: Files<File = File> + AllocGlobal + Clock> FolderFiles<R> {
    pub(crate) fn new(rt: R, folder: String, links: Links) -> Self {
        let unsynced = Unsynced::none(rt.alloc());
        let known = Moment::now(&rt);
        FolderFiles {
            rt,
            folder,
            links,
            kept: None,
            known,
            is_listed: false,
            unsynced,
            is_settled: false,
            is_named: false,
            has_forgotten: false,
        }
    }
}

impl<R: Files<File = File> + AllocGlobal> FolderFiles<R> {
    // No file stays open.
    pub(crate) fn let_go(&mut self) {
        self.kept = None;
    }

    pub(crate) fn path_of(&self, name: &str) -> Result<String, AllocError> {
        joined(&self.rt, self.folder.as_str(), name)
    }
}

impl<R: Files<File = File> + AllocGlobal + Clock> FolderFiles<R> {
    pub(crate) fn length(&self, name: &str) -> Result<Option<u64>, FileFault> {
        self.look_at_way(name)?;
        match self
            .links
            .metadata_of(&self.rt, self.path_of(name)?.as_str())
        {
            Ok(found) if found.is_file() => Ok(Some(found.len())),
            Ok(found) if found.is_dir() => Ok(None),
            Ok(_) => Err(FileFault::NotPlain),
            Err(error) => match error.kind() {
                ErrorKind::NotFound | ErrorKind::NotADirectory => Ok(None),
                _ => Err(FileFault::System(error)),
            },
        }
    }

    pub(crate) fn read(&mut self, name: &str, at: u64, buf: &mut [u8]) -> Result<(), FileFault> {
        let mut file = self.take(name, Access::Reading)?;
        file.look_again(&self.rt, self.links)?;
        file.read(at, buf)?;
        self.kept = Some(file);
        Ok(())
    }

    pub(crate) fn write(&mut self, name: &str, at: u64, piece: &[u8]) -> Result<(), FileFault> {
        let mut file = self.take(name, Access::Writing)?;
        let length = file.look(&self.rt, self.links)?;
        self.unsynced.note(&file, false);
        file.write(length, at, piece)?;
        self.kept = Some(file);
        Ok(())
    }

    // The file that is open, where it serves; else this one, opened. It is kept no more.
    fn take(&mut self, name: &str, wanted: Access) -> Result<OpenedFile, FileFault> {
        match self.kept.take() {
            Some(file) if file.serves(name, wanted) => Ok(file),
            _ => self.open(name, wanted),
        }
    }

    fn open(&self, name: &str, wanted: Access) -> Result<OpenedFile, FileFault> {
        self.look_at_way(name)?;
        let path = self.path_of(name)?;
        let name = String::from_str(self.rt.alloc(), name)?;
        OpenedFile::open(&self.rt, name, path, self.links, wanted)
    }

    // Refuses a name where one of the inner folders that it stands in is a link, or anything else but a folder or a plain file.
    fn look_at_way(&self, name: &str) -> Result<(), FileFault> {
        if self.links == Links::Followed {
            return Ok(());
        }
        for (at, _) in name.match_indices('/') {
            if let Some(folder) = name.get(..at) {
                self.look_at_inner(folder)?;
            }
        }
        Ok(())
    }

    fn look_at_inner(&self, folder: &str) -> Result<(), FileFault> {
        match fs::symlink_metadata(&self.rt, self.path_of(folder)?.as_str()) {
            Ok(found) if found.is_dir() || found.is_file() => Ok(()),
            Ok(_) => {
                let folder = String::from_str(self.rt.alloc(), folder)?;
                Err(FileFault::Behind(folder))
            }
            Err(error) => match error.kind() {
                ErrorKind::NotFound | ErrorKind::NotADirectory => Ok(()),
                _ => Err(FileFault::System(error)),
            },
        }
    }

    // Makes a file of zero bytes, and the folders that it stands in. Where the name is taken, it has to be that of a plain file which may be
    // made anew.
    pub(crate) fn create(&mut self, name: &str, length: u64) -> Result<(), FileFault> {
        let last = self.kept.take();
        self.look_at_way(name)?;
        let path = self.path_of(name)?;
        if let Some((folder, _)) = path.rsplit_once('/') {
            fs::create_dir_all(&self.rt, folder)?;
        }
        let made = self.made(name, length, &last)?;
        self.unsynced.note(&made.file, made.is_new);
        made.clear(length)?;
        self.kept = Some(made.file);
        Ok(())
    }

    fn made(
        &self,
        name: &str,
        wanted: u64,
        last: &Option<OpenedFile>,
    ) -> Result<MadeFile, FileFault> {
        let path = self.path_of(name)?;
        let own = String::from_str(self.rt.alloc(), name)?;
        match OpenedFile::create(&self.rt, own, path) {
            Err(FileFault::System(error)) if error.kind() == ErrorKind::AlreadyExists => {
                self.made_anew(name, wanted, last)
            }
            Ok(file) => Ok(MadeFile { file, is_new: true }),
            Err(fault) => Err(fault),
        }
    }

    // The file under a name that is taken, where it is no ring file, or may be made anew with a length.
    fn made_anew(
        &self,
        name: &str,
        wanted: u64,
        last: &Option<OpenedFile>,
    ) -> Result<MadeFile, FileFault> {
        let file = self.open(name, Access::Writing)?;
        let is_ring = name.ends_with(RING_END);
        if is_ring && !self.may_be_anew(&file, wanted, last)? {
            return Err(FileFault::InTheWay);
        }
        Ok(MadeFile {
            file,
            is_new: is_ring,
        })
    }

    // Whether a ring file may be made anew with a length: it was never whole, or it was there when the names were listed and is of version 1,
    // since such a one is read before a drain makes it anew, and one that came since was not. Before the names are listed only the log of an
    // earlier process is laid. A file that was there then may have any version, since that process may have come as far as its head; it has
    // that length then, and was written behind the log, which is the file of the call before.
    fn may_be_anew(
        &self,
        file: &OpenedFile,
        wanted: u64,
        last: &Option<OpenedFile>,
    ) -> Result<bool, FileFault> {
        let length = file.length_under_name(&self.rt, self.links)?;
        let mut room = [0; FRONT_BYTES];
        let front = file.front(length, &mut room)?;
        if is_unfinished(front) {
            return Ok(true);
        }
        let may_be_laid = !self.is_listed && length == wanted && is_behind(file, last)?;
        Ok((is_old(front) || may_be_laid) && self.was_there(file)?)
    }

    // Whether a file was there, as it is, when the names were listed, or the disk was made where they were not yet.
    fn was_there(&self, file: &OpenedFile) -> Result<bool, FileFault> {
        match self.known {
            Some(moment) => file.was_there(moment),
            None => Ok(false),
        }
    }

    // Makes a file, brings it to the device and removes it, so that a folder which takes no files is found before a point is.
    pub(crate) fn try_folder(&self) -> Result<(), FileFault> {
        fs::create_dir_all(&self.rt, self.folder.as_str())?;
        let path = self.path_of(TRIAL)?;
        // one that a killed run left is no one else's
        let _ = fs::remove_file(&self.rt, path.as_str());
        let mut options = OpenOptions::new();
        options.write(true).create_new(true);
        let mut file = options.open(&self.rt, path.as_str())?;
        file.write_all(b"carbon\n")?;
        file.sync_all()?;
        fs::remove_file(&self.rt, path.as_str())?;
        Ok(())
    }
}

impl<R: Files<File = File> + AllocGlobal + Clone + Drop> FolderFiles<R> {
    // Brings to the device what awaits it. Where the system failed at that once, it may say that all is there though it has forgotten it:
    // each further call fails.
    pub(crate) fn sync(&mut self) -> Result<(), NamedFault> {
        if self.has_forgotten {
            return Err(NamedFault::of_folder(self.rt.alloc(), FileFault::Forgotten));
        }
        let outcome = self.sync_awaited();
        self.has_forgotten = matches!(
            outcome,
            Err(NamedFault {
                fault: FileFault::NotSynced(_),
                ..
            })
        );
        outcome
    }

    fn sync_awaited(&mut self) -> Result<(), NamedFault> {
        self.settle_name()?;
        if self.unsynced.is_more() {
            self.sync_every()?;
        } else {
            self.settle()?;
            self.unsynced
                .sync(&self.rt, self.folder.as_str(), self.links, &self.kept)?;
        }
        self.is_settled = true;
        self.unsynced.clear();
        Ok(())
    }

    // Brings the name of the folder itself to the device, once it is there.
    fn settle_name(&mut self) -> Result<(), NamedFault> {
        if self.is_named || !self.has_folder()? {
            return Ok(());
        }
        match sync_folder(&self.rt, outer_of(self.folder.as_str())) {
            Ok(()) => {
                self.is_named = true;
                Ok(())
            }
            Err(fault) => Err(NamedFault::of_folder(self.rt.alloc(), fault)),
        }
    }

    // Brings to the device what an earlier process may have left, once. Where there is no folder it left nothing.
    fn settle(&self) -> Result<(), NamedFault> {
        if self.is_settled || !self.has_folder()? {
            return Ok(());
        }
        self.sync_every()
    }

    // Whether the folder is there.
    fn has_folder(&self) -> Result<bool, NamedFault> {
        match fs::metadata(&self.rt, self.folder.as_str()) {
            Ok(_) => Ok(true),
            Err(error) if error.kind() == ErrorKind::NotFound => Ok(false),
            Err(error) => Err(NamedFault::of_folder(self.rt.alloc(), FileFault::System(error))),
        }
    }
}

// The folder that a folder stands in.
fn outer_of(folder: &str) -> &str {
    match folder.rsplit_once('/') {
        Some((outer, _)) if outer.is_empty() => "/",
        Some((outer, _)) => outer,
        None => ".",
    }
}

// Whether a file was written no earlier than another.
fn is_behind(file: &OpenedFile, other: &Option<OpenedFile>) -> Result<bool, FileFault> {
    let Some(other) = other else { return Ok(false) };
    Ok(!file.written()?.is_before(other.written()?))
}

// Whether a file that begins so was never whole: it begins with zeros, or has nothing but zeros.
fn is_unfinished(front: &[u8]) -> bool {
    front.iter().all(|byte| *byte == 0)
}

// Whether a file that begins so is of version 1.
fn is_old(front: &[u8]) -> bool {
    match front {
        [0, 0, 0, method, ..] => (1..=LAST_METHOD).contains(method),
        _ => false,
    }
}

pub(crate) fn joined(
    rt: &impl AllocGlobal,
    folder: &str,
    name: &str,
) -> Result<String, AllocError> {
    let mut path = String::with_capacity(rt.alloc(), folder.len() + 1 + name.len())?;
    path.push_str(folder)?;
    path.push('/')?;
    path.push_str(name)?;
    Ok(path)
}

// The names of the files in a folder.
use crate::fault::{FileFault, NamedFault};
use crate::files::{FolderFiles, joined};
use crate::open_file::{sync_file, sync_folder};
use std::alloc::{AllocError, Allocator};
use std::fs;
use std::fs::{DirEntry, File};
use std::io::ErrorKind;
use std::rt::Files;

// The names that were found, and the folders that are still to be looked into.
#[derive(Drop)]
struct Found {
    names: Vec<String>,
    folders: Vec<String>,
}

impl<R: Files<File = File> + AllocGlobal + Clone + Drop> FolderFiles<R> {
    // The names of all files, from the folder inwards. A folder that is not there has none.
    pub(crate) fn names(&self) -> Result<Vec<String>, NamedFault> {
        let alloc = self.rt.alloc();
        let mut found = Found {
            names: Vec::new(alloc),
            folders: Vec::new(alloc),
        };
        let mut next = Some(String::new(alloc));
        for _ in 0..u64::MAX {
            let Some(folder) = next.take() else { break };
            if let Err(fault) = self.list(folder.as_str(), &mut found) {
                return Err(NamedFault {
                    name: folder,
                    fault,
                });
            }
            next = found.folders.pop();
        }
        Ok(found.names)
    }

    // Brings all files and folders to the device.
    pub(crate) fn sync_every(&self) -> Result<(), NamedFault> {
        let alloc = self.rt.alloc();
        let mut found = Found {
            names: Vec::new(alloc),
            folders: Vec::new(alloc),
        };
        let mut next = Some(String::new(alloc));
        for _ in 0..u64::MAX {
            let Some(folder) = next.take() else { break };
            if let Err(fault) = self.sync_inside(folder.as_str(), &mut found) {
                return Err(NamedFault {
                    name: folder,
                    fault,
                });
            }
            next = found.folders.pop();
        }
        Ok(())
    }

    // The files of one folder, and then the folder.
    fn sync_inside(&self, folder: &str, found: &mut Found) -> Result<(), FileFault> {
        self.list(folder, found)?;
        for name in &found.names {
            sync_file(
                &self.rt,
                self.path_of(name.as_str())?.as_str(),
                self.links,
                None,
            )?;
        }
        found.names.clear();
        sync_folder(&self.rt, self.path_in(folder)?.as_str())
    }

    // The path of the folder itself, where the name is empty, or of a folder in it.
    fn path_in(&self, folder: &str) -> Result<String, AllocError> {
        match folder.is_empty() {
            true => self.folder.clone(),
            false => self.path_of(folder),
        }
    }

    // Adds the names of the files and of the folders that stand in one folder.
    fn list(&self, folder: &str, found: &mut Found) -> Result<(), FileFault> {
        let path = self.path_in(folder)?;
        let entries = match fs::read_dir(&self.rt, path.as_str()) {
            Ok(entries) => entries,
            Err(error) if error.kind() == ErrorKind::NotFound => return Ok(()),
            Err(error) => return Err(FileFault::System(error)),
        };
        for entry in entries {
            match entry {
                Ok(entry) => self.add(folder, &entry, found)?,
                // a name that is no text is no name of this disk
                Err(error) if error.kind() == ErrorKind::InvalidFilename => {}
                Err(error) => return Err(FileFault::System(error)),
            }
        }
        Ok(())
    }

    fn add<A: Allocator>(
        &self,
        folder: &str,
        entry: &DirEntry<R, A>,
        found: &mut Found,
    ) -> Result<(), FileFault> {
        let name = match folder.is_empty() {
            true => String::from_str(self.rt.alloc(), entry.file_name())?,
            false => joined(&self.rt, folder, entry.file_name())?,
        };
        let kind = entry.file_type()?;
        if kind.is_file() {
            found.names.push(name)?;
        } else if kind.is_dir() {
            found.folders.push(name)?;
        } else {
            return Err(FileFault::HasOther(name));
        }
        Ok(())
    }
}

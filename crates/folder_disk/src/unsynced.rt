// What awaits a sync.
use crate::fault::{FileFault, NamedFault};
use crate::open_file::{Links, OpenedFile, Place, sync_file, sync_folder};
use std::alloc::Global;
use std::fs::File;
use std::rt::Files;

// The files that were written or made since the last sync. There is room for four, which takes no more memory once it was used; where more
// await a sync, that is all that is kept, and a sync goes over the whole folder.
#[derive(Drop)]
pub(crate) struct Unsynced {
    files: [UnsyncedFile; 4],
    is_more: bool,
}

#[derive(Drop)]
struct UnsyncedFile {
    awaits: bool,
    path: String,
    // which file it was; not known once a sync failed
    place: Option<Place>,
    // whether the folders that it stands in await a sync too
    is_new: bool,
}

impl Unsynced {
    pub(crate) fn none(alloc: Global) -> Unsynced {
        Unsynced {
            files: [
                UnsyncedFile::none(alloc),
                UnsyncedFile::none(alloc),
                UnsyncedFile::none(alloc),
                UnsyncedFile::none(alloc),
            ],
            is_more: false,
        }
    }

    pub(crate) fn is_more(&self) -> bool {
        self.is_more
    }

    // Everything was brought to the device.
    pub(crate) fn clear(&mut self) {
        self.is_more = false;
        for file in &mut self.files {
            file.awaits = false;
        }
    }

    // A file is being written, or was just made.
    pub(crate) fn note(&mut self, file: &OpenedFile, is_new: bool) {
        if self.is_more {
            return;
        }
        if !self.note_again(file, is_new) && !self.note_first(file, is_new) {
            self.is_more = true;
        }
    }

    fn note_again(&mut self, opened: &OpenedFile, is_new: bool) -> bool {
        for file in &mut self.files {
            if file.awaits && file.path.as_str() == opened.path() {
                file.place = Some(opened.place());
                file.is_new = file.is_new || is_new;
                return true;
            }
        }
        false
    }

    fn note_first(&mut self, opened: &OpenedFile, is_new: bool) -> bool {
        for file in &mut self.files {
            if !file.awaits {
                return file.fill(opened, is_new);
            }
        }
        false
    }

    // Brings those files to the device, and the folders of new ones. A file whose name leads to another one now is a fault.
    pub(crate) fn sync<R: Files<File = File> + AllocGlobal>(
        &mut self,
        rt: &R,
        folder: &str,
        links: Links,
        kept: &Option<OpenedFile>,
    ) -> Result<(), NamedFault> {
        for file in &mut self.files {
            if file.awaits {
                if let Err(fault) = file.sync(rt, folder, links, kept) {
                    return Err(NamedFault::of_path(rt.alloc(), folder, file.path.as_str(), fault));
                }
            }
        }
        Ok(())
    }
}

impl UnsyncedFile {
    fn none(alloc: Global) -> UnsyncedFile {
        UnsyncedFile {
            awaits: false,
            path: String::new(alloc),
            place: None,
            is_new: false,
        }
    }

    // Whether there was memory for it.
    fn fill(&mut self, opened: &OpenedFile, is_new: bool) -> bool {
        self.path.clear();
        self.awaits = self.path.push_str(opened.path()).is_ok();
        self.place = Some(opened.place());
        self.is_new = is_new;
        self.awaits
    }

    fn sync<R: Files<File = File>>(
        &mut self,
        rt: &R,
        folder: &str,
        links: Links,
        kept: &Option<OpenedFile>,
    ) -> Result<(), FileFault> {
        let place = self.place.take();
        match kept {
            Some(open) if is_of(open, self.path.as_str(), place) => open.sync(rt, links)?,
            _ => sync_file(rt, self.path.as_str(), links, place)?,
        }
        if self.is_new {
            sync_way(rt, folder, self.path.as_str())?;
        }
        Ok(())
    }
}

// Whether an open file is the one of a path, and of this place where one is known.
fn is_of(open: &OpenedFile, path: &str, place: Option<Place>) -> bool {
    open.path() == path && place.unwrap_or(open.place()) == open.place()
}

// Brings the folders to the device that a file stands in, from the disk's own folder inwards.
fn sync_way<R: Files<File = File>>(rt: &R, folder: &str, path: &str) -> Result<(), FileFault> {
    for (at, _) in path.match_indices('/') {
        if at >= folder.len() {
            if let Some(outer) = path.get(..at) {
                sync_folder(rt, outer)?;
            }
        }
    }
    Ok(())
}

// A file that is open, and whether its name still leads to it.
use crate::fault::FileFault;
use crate::moment::Moment;
use std::fs::{self, File, Metadata, OpenFile, OpenOptions};
use std::io;
use std::io::ErrorKind;
use std::os::unix::fs::{FileExt, MetadataExt};
use std::rt::Files;
use std::time::{Clock, Duration, Instant};

// For so long a look at the name of an open file serves the reads behind it.
const LOOK_MILLIS: u64 = 100;

// So many zero bytes are written at once.
const ZEROS_BYTES: usize = 4096;

// What an open file may be used for.
#[derive(Clone, Copy, PartialEq, Eq)]
pub(crate) enum Access {
    Both,
    Reading,
    Writing,
}

impl Access {
    fn allows(self, wanted: Access) -> bool {
        self == Access::Both || self == wanted
    }
}

// What is done where a name is a link to a file.
#[derive(Clone, Copy, PartialEq, Eq)]
pub(crate) enum Links {
    Refused,
    Followed,
}

impl Links {
    // What stands under a name.
    pub(crate) fn metadata_of(self, rt: &impl Files, path: &str) -> io::Result<Metadata> {
        match self {
            Links::Refused => fs::symlink_metadata(rt, path),
            Links::Followed => fs::metadata(rt, path),
        }
    }
}

// Which file of the system it is.
#[derive(Clone, Copy, PartialEq, Eq)]
pub(crate) struct Place {
    device: u64,
    node: u64,
}

impl Place {
    // That of a plain file.
    fn of(found: &Metadata) -> Result<Place, FileFault> {
        if !found.is_file() {
            return Err(FileFault::NotPlain);
        }
        Ok(Place {
            device: found.dev(),
            node: found.ino(),
        })
    }
}

// An open file of the folder.
#[derive(Drop)]
pub(crate) struct OpenedFile {
    name: String,
    path: String,
    access: Access,
    place: Place,
    file: File,
    // when its name was looked at last, and led to it
    looked: Option<Instant>,
}

impl OpenedFile {
    // Opens the plain file of this path, for reading and writing where the system lets it, else for what is wanted alone. What is no plain
    // file is not opened: the open of a pipe would wait for its other end. What was opened has to be the file that stood under the name
    // itself right before, and not one behind a link that came meanwhile.
    pub(crate) fn open<R: Files<File = File> + Clock>(
        rt: &R,
        name: String,
        path: String,
        links: Links,
        wanted: Access,
    ) -> Result<OpenedFile, FileFault> {
        let looked = Instant::now(rt).ok();
        let place = Place::of(&links.metadata_of(rt, path.as_str())?)?;
        let (access, file) = opened_for(rt, path.as_str(), wanted)?;
        let opened = OpenedFile::of(name, path, access, file, looked)?;
        if opened.place != place {
            return Err(FileFault::Replaced);
        }
        Ok(opened)
    }

    // Makes the file of this path, where nothing has the name.
    pub(crate) fn create<R: Files<File = File> + Clock>(
        rt: &R,
        name: String,
        path: String,
    ) -> Result<OpenedFile, FileFault> {
        let mut options = OpenOptions::new();
        options.read(true).write(true).create_new(true);
        let looked = Instant::now(rt).ok();
        let file = options.open(rt, path.as_str())?;
        OpenedFile::of(name, path, Access::Both, file, looked)
    }

    fn of(
        name: String,
        path: String,
        access: Access,
        file: File,
        looked: Option<Instant>,
    ) -> Result<Self, FileFault> {
        let place = Place::of(&file.metadata()?)?;
        Ok(OpenedFile {
            name,
            path,
            access,
            place,
            file,
            looked,
        })
    }

    pub(crate) fn path(&self) -> &str {
        self.path.as_str()
    }

    pub(crate) fn place(&self) -> Place {
        self.place
    }

    // Brings it to the device.
    pub(crate) fn sync(&self, rt: &impl Files, links: Links) -> Result<(), FileFault> {
        let _length = self.length_under_name(rt, links)?;
        synced(&self.file)
    }

    pub(crate) fn serves(&self, name: &str, wanted: Access) -> bool {
        self.name.as_str() == name && self.access.allows(wanted)
    }

    // Looks at the name, which has to lead to this file, where no look serves any more.
    pub(crate) fn look_again(
        &mut self,
        rt: &(impl Files + Clock),
        links: Links,
    ) -> Result<(), FileFault> {
        if self.is_looked_at(rt) {
            return Ok(());
        }
        let _length = self.look(rt, links)?;
        Ok(())
    }

    // Looks at the name, which has to lead to this file, and says how long that is now.
    pub(crate) fn look(
        &mut self,
        rt: &(impl Files + Clock),
        links: Links,
    ) -> Result<u64, FileFault> {
        self.looked = Instant::now(rt).ok();
        self.length_under_name(rt, links)
    }

    // Whether the last look at the name serves a read.
    fn is_looked_at(&self, rt: &impl Clock) -> bool {
        let Some(looked) = self.looked else {
            return false;
        };
        match looked.elapsed(rt) {
            Ok(since) => since < Duration::from_millis(LOOK_MILLIS),
            Err(_) => false,
        }
    }

    // How long the file is now that stands under the name, which has to be this one.
    pub(crate) fn length_under_name(
        &self,
        rt: &impl Files,
        links: Links,
    ) -> Result<u64, FileFault> {
        let found = found_under(rt, self.path.as_str(), links)?;
        if Place::of(&found)? != self.place {
            return Err(FileFault::Replaced);
        }
        Ok(found.len())
    }

    pub(crate) fn read(&self, at: u64, buf: &mut [u8]) -> Result<(), FileFault> {
        match self.file.read_exact_at(buf, at) {
            Ok(()) => Ok(()),
            Err(error) if error.kind() == ErrorKind::UnexpectedEof => Err(FileFault::Shorter),
            Err(error) => Err(FileFault::System(error)),
        }
    }

    // Puts a piece over bytes that the file has, whose length is given.
    pub(crate) fn write(&self, length: u64, at: u64, piece: &[u8]) -> Result<(), FileFault> {
        if at > length || piece.len() as u64 > length - at {
            return Err(FileFault::Shorter);
        }
        Ok(self.file.write_all_at(piece, at)?)
    }

    // Leaves so many zero bytes. They take no place on the file system until they are written.
    pub(crate) fn clear(&self, length: u64) -> io::Result<()> {
        self.file.set_len(0)?;
        self.file.set_len(length)
    }

    // Leaves so many zero bytes, over the bytes that are there: these keep their place on the file system.
    pub(crate) fn clear_in_place(&self, length: u64) -> io::Result<()> {
        let held = self.file.metadata()?.len();
        write_zeros(&self.file, held.min(length))?;
        if held != length {
            self.file.set_len(length)?;
        }
        Ok(())
    }

    // The bytes that the file begins with, as many as there is room for.
    pub(crate) fn front<'a>(&self, length: u64, room: &'a mut [u8]) -> Result<&'a [u8], FileFault> {
        let count = length.min(room.len() as u64) as usize;
        let Some(front) = room.get_mut(..count) else {
            return Ok(&[]);
        };
        self.read(0, front)?;
        Ok(front)
    }

    // When it was written last.
    pub(crate) fn written(&self) -> Result<Moment, FileFault> {
        Ok(Moment::of_write(&self.file.metadata()?))
    }

    // Whether it is under its name as it was at a moment.
    pub(crate) fn was_there(&self, moment: Moment) -> Result<bool, FileFault> {
        Ok(Moment::of_change(&self.file.metadata()?).is_before(moment))
    }
}

// Writes so many zero bytes at the front of a file.
fn write_zeros(file: &File, count: u64) -> io::Result<()> {
    let zeros = [0; ZEROS_BYTES];
    let pieces = count / ZEROS_BYTES as u64;
    for piece in 0..pieces {
        file.write_all_at(&zeros, piece * ZEROS_BYTES as u64)?;
    }
    let rest = (count % ZEROS_BYTES as u64) as usize;
    file.write_all_at(&zeros[..rest], pieces * ZEROS_BYTES as u64)
}

// What stands under a path; where nothing does, it was removed.
fn found_under(rt: &impl Files, path: &str, links: Links) -> Result<Metadata, FileFault> {
    match links.metadata_of(rt, path) {
        Ok(found) => Ok(found),
        Err(error) if error.kind() == ErrorKind::NotFound => Err(FileFault::Replaced),
        Err(error) => Err(FileFault::System(error)),
    }
}

// Brings the file of a path to the device. It has to be that one, where one is told.
pub(crate) fn sync_file<R: Files<File = File>>(
    rt: &R,
    path: &str,
    links: Links,
    wanted: Option<Place>,
) -> Result<(), FileFault> {
    let place = Place::of(&found_under(rt, path, links)?)?;
    let file = opened(rt, path)?;
    if Place::of(&file.metadata()?)? != place || wanted.unwrap_or(place) != place {
        return Err(FileFault::Replaced);
    }
    synced(&file)
}

// The file of a path, opened for reading and writing where the system lets it, else for what is wanted alone.
fn opened_for<R: Files<File = File>>(
    rt: &R,
    path: &str,
    wanted: Access,
) -> io::Result<(Access, File)> {
    let mut options = OpenOptions::new();
    options.read(true).write(true);
    if let Ok(file) = options.open(rt, path) {
        return Ok((Access::Both, file));
    }
    options
        .read(wanted == Access::Reading)
        .write(wanted == Access::Writing);
    Ok((wanted, options.open(rt, path)?))
}

// A plain file, opened as the system lets it.
fn opened<R: Files<File = File>>(rt: &R, path: &str) -> Result<File, FileFault> {
    let mut options = OpenOptions::new();
    options.read(true);
    if let Ok(file) = options.open(rt, path) {
        return Ok(file);
    }
    options.read(false).write(true);
    Ok(options.open(rt, path)?)
}

// Brings the names in a folder to the device.
pub(crate) fn sync_folder<R: Files<File = File>>(rt: &R, path: &str) -> Result<(), FileFault> {
    let mut options = OpenOptions::new();
    options.read(true);
    synced(&options.open(rt, path)?)
}

fn synced(file: &File) -> Result<(), FileFault> {
    match file.sync_all() {
        Ok(()) => Ok(()),
        Err(error) => Err(FileFault::NotSynced(error)),
    }
}

//! A disk that a run is given.

ghost use Rattle.std.specs.Prelude.{◌≡◌, IfOk, length};
ghost use Rattle.outside_io.specs.Image.{IsWithinFile};

use crate::command::DiskSetting;
use crate::fault::CaseFault;
use crate::ring::{ring_bytes, zeros_behind};
use crate::text::{first_word, number, numbers, unescaped};
use outside_io::{Disk, MemDisk};
use std::alloc::{AllocError, Global};

// So many bytes hold the files of a few metrics.
const ROOM: u64 = 4_000_000;

/// A disk in memory before the run.
#[derive(Drop)]
pub struct DiskCase {
    room: u64,
    failing: Vec<u64>,
    failing_reads: Vec<u64>,
    is_torn: bool,
    files: Vec<HeldFile>,
}

#[derive(Drop)]
struct HeldFile {
    name: String,
    bytes: Vec<u8>,
}

impl DiskCase {
    /// A disk with no file, of which no call fails.
    pub fn new(alloc: Global) -> DiskCase {
        DiskCase {
            room: ROOM,
            failing: Vec::new(alloc),
            failing_reads: Vec::new(alloc),
            is_torn: false,
            files: Vec::new(alloc),
        }
    }

    /// The disk for a run.
    pub fn disk(&self, alloc: Global) -> Result<MemDisk, AllocError> {
        let mut disk = MemDisk::new(alloc, self.room)
            .failing(self.failing.clone()?)
            .failing_reads(self.failing_reads.clone()?);
        if self.is_torn {
            disk = disk.tearing();
        }
        for file in &self.files {
            disk.put_file(file.name.as_str(), file.bytes.clone()?)?;
        }
        Ok(disk)
    }

    /// Does a line about the disk, without its word and the disk's.
    pub fn set(
        &mut self,
        alloc: Global,
        setting: DiskSetting,
        text: &str,
    ) -> Result<(), CaseFault> {
        match setting {
            DiskSetting::Room => self.room = number(text)?,
            DiskSetting::Fail => self.failing = numbers(alloc, text)?,
            DiskSetting::FailRead => self.failing_reads = numbers(alloc, text)?,
            DiskSetting::Tear => self.is_torn = true,
            DiskSetting::File => self.put_text(alloc, text)?,
            DiskSetting::Zeros => self.put_zeros(alloc, text)?,
            DiskSetting::Ring => self.put_ring(alloc, text)?,
        }
        Ok(())
    }

    /// Puts a file on the disk.
    pub fn put(&mut self, alloc: Global, name: &str, bytes: Vec<u8>) -> Result<(), AllocError> {
        let name = String::from_str(alloc, name)?;
        self.files.push(HeldFile { name, bytes })?;
        Ok(())
    }

    fn put_text(&mut self, alloc: Global, text: &str) -> Result<(), CaseFault> {
        let (name, text) = first_word(text);
        let bytes = unescaped(alloc, text)?;
        self.put(alloc, name, bytes)?;
        Ok(())
    }

    fn put_zeros(&mut self, alloc: Global, text: &str) -> Result<(), CaseFault> {
        let (name, text) = first_word(text);
        let bytes = zeros_behind(alloc, text)?;
        self.put(alloc, name, bytes)?;
        Ok(())
    }

    fn put_ring(&mut self, alloc: Global, text: &str) -> Result<(), CaseFault> {
        let (name, text) = first_word(text);
        let bytes = ring_bytes(alloc, text)?;
        self.put(alloc, name, bytes)?;
        Ok(())
    }
}

/// The disk with the files that a disk has, of which no call fails.
pub fn kept(alloc: Global, disk: &mut MemDisk) -> Result<DiskCase, CaseFault> {
    let mut case = DiskCase::new(alloc);
    for name in names_of(disk)? {
        if let Some(bytes) = bytes_of(alloc, disk, name.as_str())? {
            case.put(alloc, name.as_str(), bytes)?;
        }
    }
    Ok(case)
}

/// The names of a disk's files.
pub fn names_of(disk: &mut MemDisk) -> Result<Vec<String>, CaseFault> {
    match disk.names() {
        Ok(names) => Ok(names),
        Err(_) => Err(CaseFault::NoMemory),
    }
}

/// The bytes of a file, where it is there.
pub fn bytes_of<D: Disk>(
    alloc: Global,
    disk: &mut D,
    name: &str,
) -> Result<Option<Vec<u8>>, CaseFault> {
    let size = match disk.length(name) {
        Ok(Some(size)) => size,
        _ => return Ok(None),
    };
    Ok(read_bytes(alloc, disk, name, size as usize)?)
}

// So many bytes from the front of a file, none where the disk failed.
fn read_bytes<D: Disk>(
    alloc: Global,
    disk: &mut D,
    name: &str,
    count: usize,
) -> Result<Option<Vec<u8>>, AllocError>
    requires { IsWithinFile (D.image disk.old) name.now 0 count }
{
    let mut bytes = zeros(alloc, count)?;
    match disk.read_at(name, 0, &mut bytes) {
        Ok(()) => Ok(Some(bytes)),
        Err(_) => Ok(None),
    }
}

// So many zero bytes.
fn zeros(alloc: Global, count: usize) -> Result<Vec<u8>, AllocError>
    ensures { IfOk result (λ bytes. length bytes.items ≡ count) }
{
    vec![in alloc; 0; count]
}

//! Files by name.

use std::alloc::{AllocError, Global};

/// A file.
#[derive(Drop)]
pub struct NamedFile {
    pub name: String,
    pub bytes: Vec<u8>,
}

/// Files, each under a name of its own.
#[derive(Drop)]
pub struct Files {
    alloc: Global,
    items: Vec<NamedFile>,
}

impl Files {
    /// No files.
    pub fn new(alloc: Global) -> Files {
        Files {
            alloc,
            items: Vec::new(alloc),
        }
    }

    /// The same files once more.
    pub fn copy(&self) -> Result<Files, AllocError> {
        let mut copy = Files::new(self.alloc);
        for file in &self.items {
            copy.put(file.name.as_str(), &file.bytes)?;
        }
        Ok(copy)
    }

    /// The bytes of a file.
    pub fn get(&self, name: &str) -> Option<&[u8]> {
        for file in &self.items {
            if file.name.as_str() == name {
                return Some(file.bytes.as_slice());
            }
        }
        None
    }

    /// Puts a file under a name.
    pub fn put(&mut self, name: &str, bytes: &[u8]) -> Result<(), AllocError> {
        let bytes = bytes.to_vec(self.alloc)?;
        for file in &mut self.items {
            if file.name.as_str() == name {
                file.bytes = bytes;
                return Ok(());
            }
        }
        let name = String::from_str(self.alloc, name)?;
        self.items.push(NamedFile { name, bytes })?;
        Ok(())
    }

    /// The same files, one of which has another length. Where it grows, zeros stand behind.
    pub fn with_length(&self, name: &str, len: usize) -> Result<Files, AllocError> {
        let mut files = self.copy()?;
        for file in &mut files.items {
            if file.name.as_str() == name {
                file.bytes.resize(len, 0)?;
            }
        }
        Ok(files)
    }

    /// Puts a piece over the bytes of a file from a place on, as far as it lies in the file. Says
    /// whether all of it does.
    pub fn lay(&mut self, name: &str, at: u64, piece: &[u8]) -> bool {
        for file in &mut self.items {
            if file.name.as_str() == name {
                return lay_over(&mut file.bytes, at as usize, piece);
            }
        }
        false
    }

    /// Fills a buffer with the bytes of a file from a place on, and says whether they are there.
    pub fn read(&self, name: &str, at: u64, buf: &mut [u8]) -> bool {
        match self.get(name) {
            Some(bytes) => copy_from(bytes, at as usize, buf),
            None => false,
        }
    }
}

fn lay_over(file: &mut [u8], at: usize, piece: &[u8]) -> bool {
    let room = file.len().saturating_sub(at);
    let count = piece.len().min(room);
    if count > 0 {
        file[at..at + count].copy_from_slice(&piece[..count]);
    }
    count == piece.len()
}

fn copy_from(bytes: &[u8], at: usize, buf: &mut [u8]) -> bool {
    if at > bytes.len() || buf.len() > bytes.len() - at {
        return false;
    }
    buf.copy_from_slice(&bytes[at..at + buf.len()]);
    true
}

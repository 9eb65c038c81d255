//! What may come of each change that is pending at a crash.

use crate::files::Files;
use std::alloc::{AllocError, Global};

/// A change since the last sync.
#[derive(Drop)]
pub enum Change {
    /// A file was made.
    Created {
        /// Its name.
        name: String,
        /// Its length.
        len: u64,
    },
    /// Bytes were written.
    Wrote {
        /// The name of the file.
        name: String,
        /// Where.
        at: u64,
        /// The bytes.
        bytes: Vec<u8>,
    },
}

// What came of a change.
#[derive(Clone, Copy, PartialEq, Eq)]
enum Fate {
    There,
    Lost,
    Torn,
}

/// How many fates each of so many changes is tried with.
pub fn fates_of(pending: usize) -> u64 {
    if pending <= 3 { 3 } else { 2 }
}

/// How many images so many changes may leave. Beyond sixteen, the first so many of them.
pub fn image_count(pending: usize) -> u64 {
    let mut count: u64 = 1;
    for _ in 0..pending.min(16) {
        count = count.saturating_mul(fates_of(pending));
    }
    count
}

/// The image with a number. The first change has the number's last digit.
pub fn image_of(
    alloc: Global,
    synced: &Files,
    pending: &[Change],
    number: u64,
) -> Result<Files, AllocError> {
    let fates = fates_of(pending.len());
    let mut files = synced.copy()?;
    let mut rest = number;
    for change in pending {
        apply(alloc, &mut files, change, fate_of(rest, fates))?;
        rest = rest.checked_div(fates).unwrap_or(0);
    }
    Ok(files)
}

/// Writes the fates of so many changes in the image with a number: `+` there, `-` lost, `/` torn.
pub fn write_fates(page: &mut String, pending: usize, number: u64) -> Result<(), AllocError> {
    let fates = fates_of(pending);
    let mut rest = number;
    for _ in 0..pending {
        page.push(match fate_of(rest, fates) {
            Fate::There => '+',
            Fate::Lost => '-',
            Fate::Torn => '/',
        })?;
        rest = rest.checked_div(fates).unwrap_or(0);
    }
    Ok(())
}

fn fate_of(number: u64, fates: u64) -> Fate {
    match number.checked_rem(fates) {
        Some(0) => Fate::There,
        Some(1) => Fate::Lost,
        _ => Fate::Torn,
    }
}

fn apply(alloc: Global, files: &mut Files, change: &Change, fate: Fate) -> Result<(), AllocError> {
    match change {
        Change::Created { name, len } => create(alloc, files, name.as_str(), *len, fate),
        Change::Wrote { name, at, bytes } => {
            write(alloc, files, name.as_str(), *at, bytes.as_slice(), fate)
        }
    }
}

fn create(
    alloc: Global,
    files: &mut Files,
    name: &str,
    len: u64,
    fate: Fate,
) -> Result<(), AllocError> {
    let (count, byte) = match fate {
        Fate::Lost => return Ok(()),
        Fate::There => (len as usize, 0),
        Fate::Torn => (len as usize / 2, 255),
    };
    let bytes = vec![in alloc; byte; count]?;
    files.put(name, &bytes)
}

fn write(
    alloc: Global,
    files: &mut Files,
    name: &str,
    at: u64,
    bytes: &[u8],
    fate: Fate,
) -> Result<(), AllocError> {
    let mut piece = bytes.to_vec(alloc)?;
    match fate {
        Fate::Lost => return Ok(()),
        Fate::There => {}
        Fate::Torn => tear(&mut piece),
    }
    let _ = files.lay(name, at, &piece);
    Ok(())
}

// Makes each byte from the middle on 255.
fn tear(bytes: &mut [u8]) {
    let half = bytes.len() / 2;
    bytes[half..].fill(255);
}

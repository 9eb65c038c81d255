//! What is told of a run that has ended.

use crate::command::Question;
use crate::disk_case::{bytes_of, names_of};
use crate::fault::CaseFault;
use crate::ring::write_ring;
use crate::runs::Ran;
use crate::text::{first_word, number};
use outside_io::{Disk, DiskCalls, MemDisk, MemSource, ReadEnd, Source};
use std::alloc::{AllocError, Global};

/// Tells what a line asks of the last run, without its first word.
pub fn answer(
    alloc: Global,
    ran: &mut Ran,
    question: Question,
    text: &str,
    page: &mut String,
) -> Result<(), CaseFault> {
    match question {
        Question::History => Ok(writeln!(page, "history {}", ran.report.history.len())?),
        Question::Left => Ok(write_left(page, &mut ran.source)?),
        _ => {
            let (word, text) = first_word(text);
            answer_of_disk(alloc, disk_of(ran, word)?, question, text, page)
        }
    }
}

// The disk of a class, or the folder of the rule files.
fn disk_of<'a>(ran: &'a mut Ran, word: &str) -> Result<&'a mut MemDisk, CaseFault> {
    if word == "conf" {
        return Ok(&mut ran.conf);
    }
    let class = number(word)?;
    match ran.report.disks.get_mut(class as usize) {
        Some(disk) => Ok(disk),
        None => Err(CaseFault::Malformed),
    }
}

fn answer_of_disk(
    alloc: Global,
    disk: &mut MemDisk,
    question: Question,
    text: &str,
    page: &mut String,
) -> Result<(), CaseFault> {
    match question {
        Question::Show => write_file(alloc, disk, text, page),
        Question::Bytes => write_front(alloc, disk, text, page),
        Question::Names => write_names(disk, page),
        Question::Calls => Ok(write_calls(page, disk.calls())?),
        _ => Ok(writeln!(page, "faults {}", disk.faults())?),
    }
}

// The length, the layout and the cells of a ring file.
fn write_file(
    alloc: Global,
    disk: &mut MemDisk,
    name: &str,
    page: &mut String,
) -> Result<(), CaseFault> {
    match bytes_of(alloc, disk, name)? {
        Some(bytes) => {
            write!(page, "{name} has {} bytes: ", bytes.len())?;
            Ok(write_ring(page, &bytes)?)
        }
        None => Ok(writeln!(page, "{name} is not there")?),
    }
}

// The first bytes of a file.
fn write_front(
    alloc: Global,
    disk: &mut MemDisk,
    text: &str,
    page: &mut String,
) -> Result<(), CaseFault> {
    let (name, count) = first_word(text);
    let count = number(count)?;
    match bytes_of(alloc, disk, name)? {
        Some(bytes) => Ok(write_bytes(page, name, &bytes, count as usize)?),
        None => Ok(writeln!(page, "{name} is not there")?),
    }
}

fn write_bytes(
    page: &mut String,
    name: &str,
    bytes: &[u8],
    count: usize,
) -> Result<(), AllocError> {
    write!(page, "{name} has {} bytes:", bytes.len())?;
    for byte in bytes.iter().take(count) {
        write!(page, " {byte:02x}")?;
    }
    write_rest(page, bytes.get(count..).unwrap_or(&[]))
}

// How many bytes are not shown.
fn write_rest(page: &mut String, bytes: &[u8]) -> Result<(), AllocError> {
    if bytes.is_empty() {
        return page.push('\n');
    }
    let what = if bytes.iter().all(|byte| *byte == 0) {
        "zeros"
    } else {
        "others"
    };
    writeln!(page, " and {} {what}", bytes.len())
}

fn write_names(disk: &mut MemDisk, page: &mut String) -> Result<(), CaseFault> {
    page.push_str("names")?;
    for name in names_of(disk)? {
        page.push(' ')?;
        page.push_str(name.as_str())?;
    }
    page.push('\n')?;
    Ok(())
}

// How many calls told of files, how many made or changed some, and the longest piece that was asked for.
fn write_calls(page: &mut String, calls: DiskCalls) -> Result<(), AllocError> {
    let (reading, writing) = (calls.reading(), calls.writing());
    let longest = calls.longest_read;
    writeln!(
        page,
        "calls {reading} reading {writing} writing, {longest} bytes at most"
    )
}

// How many bytes of the input were not taken.
fn write_left(page: &mut String, source: &mut MemSource) -> Result<(), AllocError> {
    let mut left: usize = 0;
    let mut buffer = [0; 4096];
    for _ in 0..1_000_000 {
        match source.read(&mut buffer) {
            ReadEnd::Got(count) => left = left.saturating_add(count),
            _ => break,
        }
    }
    writeln!(page, "left {left}")
}

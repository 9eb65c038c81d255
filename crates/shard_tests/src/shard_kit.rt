// Ring files on disks in memory, the rules that shards start with, and what a start tells.
use metric_path::MetricPath;
use outside_io::MemDisk;
use schema_rules::Rules;
use shard_core::{Shard, StartFault};
use std::alloc::{AllocError, Global};
use std::test::Fail;

// A file's name, the numbers that it begins with, and its size, up to which it is zero.
pub(crate) type Held = (&'static str, &'static [u32], usize);

// The head of one archive of 10 points of 60 seconds each; its file has 148 bytes.
pub(crate) const SOUND: &[u32] = &[1, 600, 500_000, 1, 28, 60, 10];

// No method has the number 9.
pub(crate) const DAMAGED: &[u32] = &[9, 600, 500_000, 1, 28, 60, 10];

fn push_numbers(bytes: &mut Vec<u8>, numbers: &[u32]) -> Result<(), AllocError> {
    for number in numbers {
        bytes.extend_from_slice(&number.to_be_bytes())?;
    }
    Ok(())
}

pub(crate) fn file_of(alloc: Global, numbers: &[u32], size: usize) -> Result<Vec<u8>, AllocError> {
    let mut bytes = Vec::new(alloc);
    push_numbers(&mut bytes, numbers)?;
    bytes.resize(size, 0)?;
    Ok(bytes)
}

pub(crate) fn put_held(alloc: Global, disk: &mut MemDisk, held: &Held) -> Result<(), AllocError> {
    let (name, numbers, size) = held;
    disk.put_file(name, file_of(alloc, numbers, *size)?)?;
    Ok(())
}

// The rules of a schema file. A function that also has to show what a call requires is proved at
// many times the cost, since the clauses of the rules are searched for it.
pub(crate) fn read_rules(alloc: Global, schemas: &[u8]) -> Result<Rules, Fail> {
    Ok(Rules::read(alloc, schemas, b"")?)
}

fn joined(alloc: Global, paths: &[MetricPath]) -> Result<Vec<u8>, AllocError> {
    let mut text = Vec::new(alloc);
    for path in paths {
        text.extend_from_slice(path.text())?;
    }
    Ok(text)
}

// The paths of a shard, one behind the other.
pub(crate) fn paths_in(alloc: Global, shard: &Shard<MemDisk>) -> Result<Vec<u8>, AllocError> {
    let names = shard.names()?;
    joined(alloc, names.as_slice())
}

// What a refusal tells: the name of a file, or what else it was.
pub(crate) fn text_of(fault: &StartFault) -> &str {
    match fault {
        StartFault::Damaged(name) => name.as_str(),
        StartFault::DiskFault => "disk",
        StartFault::NoMemory => "memory",
    }
}

//! The verbs of the cases.

use crate::{findings, rings};
use case_lines::{Calls, Case, CaseFault, Told, made};
use metric_path::MetricPath;
use outside_io::MemDisk;
use ring_archive::RingFault;
use std::alloc::Global;

/// What is told of ring files.
#[derive(Drop)]
pub struct LookCalls;

impl Calls for LookCalls {
    fn tell(&self, alloc: Global, case: &Case) -> Result<String, CaseFault> {
        let mut told = Told::new(alloc);
        match case.verb() {
            "info" => rings::tell_info(alloc, &mut told, case),
            "fetch" => rings::tell_values(alloc, &mut told, case),
            "finding" => findings::tell_finding(alloc, &mut told, case),
            _ => told.malformed(),
        }
        told.finish()
    }
}

/// The path that the first word says.
pub fn path_of(alloc: Global, case: &Case, told: &mut Told) -> Option<MetricPath> {
    match MetricPath::new(alloc, case.bytes_at(0, told)) {
        Ok(path) => Some(path),
        Err(_) => {
            told.malformed();
            None
        }
    }
}

/// A disk with the file that the word at a place says, and the read behind it that fails.
pub fn disk_of(
    alloc: Global,
    case: &Case,
    at: usize,
    name: &str,
    told: &mut Told,
) -> Option<MemDisk> {
    let failing = case.number_at(at.saturating_add(1), told);
    let bytes = case.bytes_at(at, told);
    made(disk_with(alloc, name, bytes, failing), told)
}

fn disk_with(alloc: Global, name: &str, bytes: &[u8], failing: u64) -> Result<MemDisk, CaseFault> {
    let mut disk = MemDisk::new(alloc, 0);
    if !is_none(bytes) {
        disk.put_file(name, Vec::from_slice(alloc, bytes)?)?;
    }
    Ok(disk.failing_reads(Vec::from_slice(alloc, &[failing])?))
}

fn is_none(bytes: &[u8]) -> bool {
    bytes.starts_with(b"none") && bytes.len() == 4
}

/// Tells a text, or `fault` where a read failed.
pub fn tell_text(told: &mut Told, text: Result<Vec<u8>, RingFault>) {
    match text {
        Ok(text) => tell_bytes(told, &text),
        Err(RingFault::DiskFault) => told.push_str("fault"),
        Err(RingFault::NoMemory) => told.fail(CaseFault::NoMemory),
    }
}

fn tell_bytes(told: &mut Told, text: &[u8]) {
    match str::from_utf8(text) {
        Ok(text) => told.push_str(text),
        Err(_) => told.malformed(),
    }
}

//! Globs.

use crate::given::{glob_of, path_of};
use crate::telling::push_bytes;
use case_lines::{Case, Told};
use path_glob::{Glob, GlobFault};
use std::alloc::Global;

/// `glob TEXT`: the text of the glob, or why the text is none.
pub fn tell_glob(alloc: Global, told: &mut Told, case: &Case) {
    match Glob::new(alloc, case.bytes_at(0, told)) {
        Ok(glob) => push_bytes(told, glob.text()),
        Err(fault) => push_fault(told, fault),
    }
}

/// `glob-front GLOB`: the bytes with which each path begins that it fits.
pub fn tell_literal_front(alloc: Global, told: &mut Told, case: &Case) {
    match glob_of(alloc, case.bytes_at(0, told)) {
        Ok(glob) => push_bytes(told, glob.literal_front()),
        Err(fault) => told.fail(fault),
    }
}

/// `fits GLOB PATH`: whether the glob fits the path, `yes` or `no`.
pub fn tell_fit(alloc: Global, told: &mut Told, case: &Case) {
    let path = case.bytes_at(1, told);
    match glob_of(alloc, case.bytes_at(0, told)) {
        Ok(glob) => push_fit(alloc, told, &glob, path),
        Err(fault) => told.fail(fault),
    }
}

fn push_fit(alloc: Global, told: &mut Told, glob: &Glob, path: &[u8]) {
    match path_of(alloc, path) {
        Ok(path) => told.push_str(if glob.matches(&path) { "yes" } else { "no" }),
        Err(fault) => told.fail(fault),
    }
}

// The words of a fault.
fn push_fault(told: &mut Told, fault: GlobFault) {
    match fault {
        GlobFault::TooLong => told.push_str("too long"),
        GlobFault::EmptyNode(at) => write!(told, "empty node {at}"),
        GlobFault::BadByte(at) => write!(told, "bad byte {at}"),
        GlobFault::Unclosed(at) => write!(told, "unclosed {at}"),
        GlobFault::NoMemory => told.push_str("no memory"),
    }
}

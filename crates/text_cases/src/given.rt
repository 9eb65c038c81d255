//! What the words of a case give.

use case_lines::{Case, CaseFault, Told, made, push_item};
use metric_path::{MetricPath, PathFault};
use path_glob::{Glob, GlobFault};
use std::alloc::Global;

/// The bytes of all words from a place on, with a blank between two: so a text with blanks may stand as it is.
pub fn joined(alloc: Global, case: &Case, at: usize, told: &mut Told) -> Vec<u8> {
    let mut text = Vec::new(alloc);
    for word in case.rest(at) {
        told.keep(text.extend_from_slice(word.as_slice()));
        push_item(&mut text, b' ', told);
    }
    text.pop();
    text
}

/// A text that has to be a path.
pub fn path_of(alloc: Global, text: &[u8]) -> Result<MetricPath, CaseFault> {
    match MetricPath::new(alloc, text) {
        Ok(path) => Ok(path),
        Err(PathFault::NoMemory) => Err(CaseFault::NoMemory),
        Err(_) => Err(CaseFault::Malformed),
    }
}

/// Texts that have to be paths.
pub fn paths_of(alloc: Global, texts: &[Vec<u8>], told: &mut Told) -> Vec<MetricPath> {
    let mut names = Vec::new(alloc);
    for text in texts {
        if let Some(name) = made(path_of(alloc, text.as_slice()), told) {
            push_item(&mut names, name, told);
        }
    }
    names
}

/// A text that has to be a glob.
pub fn glob_of(alloc: Global, text: &[u8]) -> Result<Glob, CaseFault> {
    match Glob::new(alloc, text) {
        Ok(glob) => Ok(glob),
        Err(GlobFault::NoMemory) => Err(CaseFault::NoMemory),
        Err(_) => Err(CaseFault::Malformed),
    }
}

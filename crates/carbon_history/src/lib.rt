//! The entries of the history: what was put, drained and asked, and which disks failed.
#![tactic(auto)]

mod entry;

pub use entry::{Entry, PutEnd};

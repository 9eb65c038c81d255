#![tactic(auto)]
//! Metric paths: nodes joined by dots, as `servers.web1.cpu`.
//!
//! A node is 1 to 240 bytes of 0x21 to 0x7E, without the bytes `. / ; * ? [ ] { } ( ) , " ' \ |`. A path has
//! at most 1,024 bytes.

mod check;
mod class;
mod file_name;
mod path;

pub use check::{fault_of, legal_front};
pub use path::{CLASSES, MetricPath, PathFault};
pub use std::alloc::AllocError as NoMemory;

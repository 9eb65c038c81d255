#![tactic(auto)]
//! Whole lines out of a stream of bytes that comes in any pieces.
//!
//! A line is what stands before a line feed (LF, the byte 10): every other byte, CR and NUL too,
//! is a byte of the line. A line has at most 16,384 bytes, and one with more is handed out as too
//! long, without its bytes.
//! What follows the last LF is no line.

mod framer;

pub use framer::{Framed, Framer, MOST_LINE_BYTES};
pub use std::alloc::AllocError as NoMemory;

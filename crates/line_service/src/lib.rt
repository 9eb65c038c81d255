//! A service of lines: reads a source, frames its lines, and serves one after the other, whatever a line means.
//!
//! A line is what stands before a line feed. What follows the last line feed is no line, and is not served. In what
//! pieces the source gives its bytes changes nothing.
#![tactic(auto)]

mod ends;
mod serve;
mod server;
mod waiting;

pub use ends::{ServiceEnd, Stop};
pub use serve::{MOST_INPUT_BYTES, serve_lines};
pub use server::{LineServer, WaitingServer};
pub use waiting::serve_each;

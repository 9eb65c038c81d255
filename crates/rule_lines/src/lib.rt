#![tactic(auto)]
//! What the rule files have in common: their lines, the blanks in these, and which say nothing.
//!
//! A line ends with a line feed, before which one carriage return is dropped; the last line needs no
//! line feed. A blank is a space or a tab.

mod blanks;
mod lines;

pub use blanks::{is_blank, trimmed, without_first_blanks, without_last_blanks};
pub use lines::{FirstLine, is_passed_over, next_line, text_in};

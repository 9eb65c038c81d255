//! Cases as lines of text: what a call is given, and what it has to tell.
//!
//! A program of cases reads lines from its standard input, each of which is one of these, or empty:
//!
//! | Line | What it says |
//! |---|---|
//! | `# NAME` | the name of the cases below it |
//! | `VERB WORD.. => WANTED` | one case: the call, what it is given, and the text that it has to tell |
//!
//! Words are separated by one blank each, and `""` is one without bytes. In a word and in `WANTED` stand the escapes `\n`, `\r`, `\t`,
//! `\s` for a blank, `\\`, `\xff` for a byte, and `\(9ab)` for nine times the bytes `ab`. `WANTED` is all that stands behind `=> `, blanks too.
//!
//! The program prints the two texts of each case where they differ, and last how many cases of each verb there were.
#![tactic(auto)]

mod case;
mod cases;
mod escapes;
mod fault;
mod readings;
mod session;
mod told;

pub use case::{Case, read_case};
pub use cases::Cases;
pub use escapes::{escaped, unescaped};
pub use fault::CaseFault;
pub use readings::{
    halves, number_in, read_number, read_signed, read_small, read_small_signed, read_text,
    small_in, string_of,
};
pub use session::{Calls, run_cases};
pub use told::{Told, made, push_item};

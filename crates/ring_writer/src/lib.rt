//! Writing a patch to its ring file, run by run.
//!
//! A patch lays cells over the slots of a file's archives. They are written in rising archive and slot, and
//! slots that lie side by side in the file in one run, which is one call of the disk.
#![tactic(auto)]

mod laws;
mod run_writing;

pub use laws::{a_file_with_no_run_left_stands_alone, every_drain_may_begin};
pub use run_writing::write_run;

//! The redo log: a patch stands whole in a log before its file is touched, so that a stop at any moment loses
//! no part of it.
//!
//! The log is the file `redo.log`, and the gate is the file `redo.gate`. What the log holds counts where the
//! gate is open: then a start lays it over the file of its path again.
#![tactic(auto)]

mod arming;
mod body;
mod calling;
mod entries;
mod last_run;
mod laws;
mod layout_reading;
mod log_calls;
mod looking;
mod next_step;
mod numbers;
mod piece;
mod reading;
mod recovery;
mod redo;
mod redo_fault;
mod redo_step;
mod steps;
#[cfg(test)]
mod tests;

pub use arming::arm;
pub use body::{PIECE_BYTES, body_len};
pub use laws::{a_body_has_one_patch, a_patch_that_was_put_is_ready};
pub use log_calls::{GATE_NAME, LOG_NAME};
pub use next_step::NextStep;
pub use reading::{BodyFault, read_body};
pub use recovery::recover;
pub use redo::Redo;
pub use redo_fault::RedoFault;
pub use redo_step::RedoStep;

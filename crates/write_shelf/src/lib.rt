//! The shelf: the patch of a drain that was begun, handed out run by run.
//!
//! A drain's writing is cut into runs, each of which is one call of the disk. Between two runs other work is
//! done; the patch stays whole on the shelf until its last run is written, so that a file that is written in
//! part can be read through it at every moment. Nothing here takes memory.
#![tactic(auto)]

mod drain;
mod laws;
mod run;
mod run_bytes;
mod run_cells;
mod run_search;
mod shelf;

pub use laws::{each_cell_has_its_bytes, runs_are_those_of_their_patch};
pub use run::Run;
pub use shelf::Shelf;

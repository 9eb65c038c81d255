//! Ring files read through a patch: the value of a bucket in an archive, as it stands once the patch's cells
//! are laid over the file.
//!
//! The first slot of an archive holds its base, and a bucket stands as many slots behind it as steps lie
//! between the two, round the ring. A slot that holds another bucket tells nothing: that is Whisper's rule.
#![tactic(auto)]

mod cells;
mod fault;
mod laws;
mod near;
mod raw;
mod round;
mod stale;
mod view;

pub use fault::RingFault;
pub use laws::laid_cells_hide_those_of_the_file;
pub use view::{BasedArchive, RingView};

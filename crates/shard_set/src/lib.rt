//! The shards of all classes, started from their disks and handed back as disks.
#![tactic(auto)]

mod laws;
mod opening;
mod refused;
mod setup;
mod started;

pub use laws::{started_shards_open_a_run, started_shards_stand_for_the_opening};
pub use opening::{hand_back, start_all};
pub use refused::{Refusal, Refused};
pub use setup::Setup;
pub use started::Started;

//! One class of metrics over its disk: pending points in memory, drained points in ring files, and
//! between them the drain that is being written, run by run.
#![tactic(auto)]

mod desk;
mod fault;
mod files;
mod laws;
mod look_count;
mod looked;
mod looking;
mod next_metric;
mod opening;
mod planned;
mod planning;
mod putting;
mod reading;
mod shard;
mod starting;
mod stepping;
mod work;
mod writing;

pub use desk::Desk;
pub use fault::StartFault;
pub use files::Files;
pub use laws::{
    a_shard_replays_its_answers, a_started_shard_stands_for_an_opening,
    what_was_looked_at_may_be_read_later,
};
pub use look_count::count_found;
pub use looked::{LookCount, LookFault, Looked};
pub use metric_table::{FoundMetric, SearchedNames, Verdicts};
pub use next_metric::NextMetric;
pub use planned::{Planned, Wrote};
pub use planning::NextDrain;
pub use shard::{Apart, Shard};

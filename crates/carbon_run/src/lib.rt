//! The top call of carbon.
#![tactic(auto)]

mod conf;
mod fault_lines;
mod laws;
mod line;
mod report;
mod rule_line;
mod samples;
mod scripts;
mod serving;
mod tally_line;
mod top;

pub use laws::{
    a_run_of_a_server_has_one_history, what_a_drained_run_left_has_no_drain_on_its_way,
};
pub use report::Report;
pub use top::run;

//! Metric lines: a path, a value and a time each, as Graphite's plaintext protocol sends them.
#![tactic(auto)]

mod datum;
mod fault;
mod fields;
mod laws;
mod line;
mod plain;
mod stamp;

pub use datum::Datum;
pub use fault::LineFault;
pub use laws::{
    only_minus_one_depends_on_now, refusals_do_not_depend_on_now, want_of_memory_is_no_fault,
};
pub use line::{read_line, read_line_over};
pub use stamp::StampFault;

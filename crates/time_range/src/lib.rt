//! The times and spans of Graphite's render API: `now-1h30min`, `20231114`, `12:00_20231114`,
//! seconds since the Unix epoch, and spans such as `-1d`. Nothing here takes memory.
#![tactic(auto)]

mod columns;
mod date;
mod difference;
mod fault;
mod laws;
mod span;
mod spans;
mod time;
mod unit;

pub use fault::TimeFault;
pub use laws::{dates_are_a_day_apart, spans_add_up};
pub use span::{LATEST, Span, read_span};
pub use time::read_time;

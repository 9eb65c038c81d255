//! Links that bring HTTP requests: the series that a query asks for, and the names of metrics, are found in the store, and each request has its
//! reply.
#![tactic(auto)]

mod browse;
mod buffers;
mod ends;
mod listing;
mod outcome;
mod query_fault;
mod renderer;
mod replying;
mod serve;

pub use ends::HttpEnd;
pub use outcome::Outcome;
pub use serve::serve_http;

//! What a question about one metric shows: the buckets, and the values in them, of pending points and of the ring
//! file alike.
#![tactic(auto)]

mod fetching;
mod laying;
mod points;
mod range;

pub use fetching::fetch;
pub use range::{Window, window_of};

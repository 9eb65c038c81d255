//! Reads of a link that contracts see: which were made, one after the other.
#![tactic(auto)]

mod reads;

pub use reads::{ReadNote, Reads};

//! What the needs of a query find in a state, as definitions that the contracts of a store and of what it answers cite, and the
//! laws of these definitions.
#![tactic(auto)]

mod laws;

pub use laws::{queries_end_in_one_way, what_needs_find_is_one_list};

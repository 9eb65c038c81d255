#![tactic(auto)]
//! The names of metrics as a tree, as Graphite's `/metrics/find`, `/metrics/expand` and
//! `/metrics/index.json` tell it to a browser of names.
//!
//! A name is a leaf of the tree, and each front of it that a dot follows is a branch. A glob of n nodes finds
//! the leaves and branches of n nodes that it fits.

mod fault;
mod find;
mod laws;
mod node;
mod query;
mod text;

pub use fault::FindFault;
pub use laws::branches_are_the_first_nodes;
pub use query::read_queries;
pub use text::{expand_text, find_text, index_text};

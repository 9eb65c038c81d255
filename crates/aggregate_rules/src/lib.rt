#![tactic(auto)]
//! The rules of Graphite's `aggregation-rules.conf`: `OUTPUT (SECONDS) = METHOD PATTERN`. A rule's
//! pattern covers a path in one way at most, and its output makes another path of what it found.

mod bytes;
mod cut;
mod fault;
mod laws;
mod names;
mod node;
mod node_text;
mod output;
mod output_text;
mod pattern;
mod places;
mod reading;
mod rule;
mod rule_index;
mod rule_list;
mod rule_text;
mod rules;
mod text;
mod words;

pub use fault::{AggCause, AggFault};
pub use laws::a_path_is_read_in_one_way;
pub use places::Places;
pub use rule::Rule;
pub use rules::AggRules;

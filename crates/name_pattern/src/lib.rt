//! Regular expressions that are searched in names, and whose matches are replaced there.
#![tactic(auto)]

mod classes;
mod match_count;
mod name_test;
mod pattern;
mod pattern_text;
mod plain;
mod substitution;
mod weight;

pub use classes::classes_in;
pub use match_count::MatchCount;
pub use name_test::NameTest;
pub use pattern::{Pattern, Search};
pub use pattern_text::PatternText;
pub use weight::Weight;

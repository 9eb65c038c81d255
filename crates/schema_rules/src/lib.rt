//! The layouts of metrics by Graphite's two rule files: `storage-schemas.conf` says for which paths which
//! archives are kept, and `storage-aggregation.conf` by which method finer values become coarser ones.
//!
//! Both files are sections of keys. What can't be used is refused by its line or its section, before a
//! point is taken.
#![tactic(auto)]

mod aggregation;
mod fault;
mod file;
mod laws;
mod lists;
mod retention;
mod rules;
mod schema;
mod section;
mod unit;

pub use fault::{RuleCause, RuleFault, RuleFile};
pub use laws::archives_are_those_of_the_pieces;
pub use rules::Rules;

#![tactic(auto)]
//! The metrics that are known, by path, and those of them that a glob finds.

mod copying;
mod finding;
mod front;
mod hit;
mod index;
mod searched;
mod verdicts;

pub use hit::Hit;
pub use index::Index;
pub use searched::SearchedNames;
pub use verdicts::Verdicts;

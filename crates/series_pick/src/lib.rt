//! The functions of the render language that choose, order and name series.
#![tactic(auto)]

mod choosing;
mod filtering;
mod kinds;
mod matching;
mod measures;
mod naming;
mod sorting;
mod substitution;
mod words;
mod work;

pub use choosing::choose;
pub use kinds::Choose;
pub use words::{Name, SignedNodes};

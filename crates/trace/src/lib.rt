//! What happened, in order, for contracts alone: it takes no memory, and its calls do nothing at run time.
#![tactic(auto)]

mod trace;

pub use trace::Trace;

//! That a query has one answer, as laws of the definitions of what a plan and a state are answered: a reply that differs from one that may be given
//! is wrong.
#![tactic(auto)]

mod laws;

pub use laws::{a_state_leaves_one_answer, rows_leave_one_answer};

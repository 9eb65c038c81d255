//! What carbon answers to a query of Graphite's render API: the series that a state has, in the form that is asked, or the reason why not.
#![tactic(auto)]

mod answer;
mod answering;
mod refusal;

pub use answer::{Answer, Text};
pub use answering::{ANSWER_BYTES, answer_rows, answer_within};
pub use refusal::Refusal;

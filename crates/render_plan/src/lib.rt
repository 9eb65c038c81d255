//! A query of Graphite's render API, read once: the series that it needs, and what it makes of them.
#![tactic(auto)]

mod answer;
mod apply;
mod argument;
mod check;
mod choice;
mod fault;
mod form;
mod function;
mod laws;
mod needs;
mod operation;
mod plan;
mod settings;
mod shape;
mod target;
mod targets;
mod value;
mod work;

pub use fault::{QueryFault, TargetCause};
pub use laws::the_last_text_of_a_parameter_holds;
pub use plan::RenderPlan;
pub use render_need::Need;
pub use settings::Format;

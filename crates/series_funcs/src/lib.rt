//! The functions of the render language that combine, shape and group series, exactly and in thousandths.
#![tactic(auto)]

mod changing;
mod combining;
mod dividing;
mod group_name;
mod kinds;
mod laws;
mod looking_back;
mod naming;
mod node_numbers;
mod node_texts;
mod quotients;
mod regrouping;
mod shaping;
mod summary;
mod work;

pub use combining::combine;
pub use dividing::divide;
pub use kinds::{Combine, Gather, Regroup, Shape};
pub use laws::{quotient_is_rounded_down, signs_cancel_in_quotients};
pub use naming::CallName;
pub use node_numbers::NodeNumbers;
pub use regrouping::regroup;
pub use shaping::shape;

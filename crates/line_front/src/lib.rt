//! Links that bring metric lines: each line that is read as a point is put into the store, and each
//! other one is counted by the reason. Rules may gather the points of a link: what they emit is put
//! too, by the same pass.
#![tactic(auto)]

mod batch;
mod bringing;
mod counts;
mod emitting;
mod ends;
mod laws;
mod room;
mod serve;
mod session;
mod sink;
mod waiting;

pub use counts::Counts;
pub use ends::LineCause;
pub use laws::what_is_put_beside_points_is_what_rules_emit;
pub use serve::{Served, serve_lines};

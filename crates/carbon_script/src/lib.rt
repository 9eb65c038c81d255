//! Scripts: metric lines and commands in, replies and a summary out.
#![tactic(auto)]

mod behind;
mod command;
mod counts;
mod no_sink;
mod parse;
mod reply;
mod round;
mod say;
mod serve;
mod session;
mod summary;
mod text;

pub use behind::script_behind;
pub use counts::Counts;
pub use serve::{ScriptEnd, Scripted, script};

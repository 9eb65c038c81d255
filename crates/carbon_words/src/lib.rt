//! The words of the command line, and what they say. Which words are commands is said by `clap`.
#![tactic(auto)]

mod app;
mod arguments;
mod command;
mod host_reading;
mod hosts;
mod reading;

pub use arguments::words;
pub use command::{Command, DrainOptions, Options, PortHosts, SampleOptions, ServeOptions};
pub use hosts::{Hosts, MOST_HOSTS};
pub use reading::{WordsFault, read_words};

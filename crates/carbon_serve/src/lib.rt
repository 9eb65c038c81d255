//! A store that is served by many threads: some put what links of metric lines bring, some answer
//! links of HTTP requests, and some drain what is pending. Once the net is closed all is drained,
//! and the store ends.
#![tactic(auto)]

mod crew;
mod drainers;
mod laws;
mod pace;
mod pacing;
mod serving;
mod workers;

pub use crew::{Crew, Duties};
pub use laws::{
    a_server_has_one_history, every_point_is_put_once, every_reply_is_of_the_one_history,
};
pub use pace::Pace;
pub use serving::{Served, serve};

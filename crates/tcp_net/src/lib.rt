#![tactic(auto)]
//! The network and the clock of the system, for a daemon that serves two ports: metric lines on one, HTTP on the
//! other.
//!
//! Nothing is told of what a socket gives or takes. What is proved is that each call keeps to its trait: a count of
//! faults rises wherever a call answers a fault, and never falls.

mod exchange;
mod faults;
mod hang_up;
mod head_end;
mod keep_alive;
mod linger;
mod listeners;
mod net_closer;
mod net_settings;
mod pace;
mod patience;
mod port;
mod question;
mod questions_told;
mod readiness;
mod shared;
mod system_clock;
mod tcp_link;
mod tcp_net;
mod timed_stream;

pub use listeners::MOST_ADDRESSES;
pub use net_closer::NetCloser;
pub use net_settings::NetSettings;
pub use port::{BoundPorts, net_descriptors};
pub use system_clock::SystemClock;
pub use tcp_link::TcpLink;
pub use tcp_net::TcpNet;

#[cfg(test)]
mod tests;

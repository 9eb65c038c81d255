//! Links, disks and a network in memory whose calls may be made to wait for one another, to try what runs in many threads.
//!
//! Only the disk tells contracts its image; links and networks tell them nothing of content.
#![tactic(auto)]

mod faults;
mod flag;
mod gate;
mod gate_disk;
mod gate_link;
mod mem_net;
mod sent;

pub use flag::Flag;
pub use gate::Gate;
pub use gate_disk::GateDisk;
pub use gate_link::GateLink;
pub use mem_net::{Bound, MemNet};
pub use sent::Sent;

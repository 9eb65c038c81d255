#![tactic(auto)]
//! The outside of a storage daemon for metrics, as traits: where bytes come from and go to, disks, clocks and
//! networks, with bodies in memory for tests and bodies over the real system.
//!
//! Every trait keeps a count of faults that never falls. A call answers a fault only where its count rose in
//! that call; a count that has come to 2^64 - 1 stays there, and then says no more.

mod calls;
mod clock;
mod closed_net;
mod disk;
mod disk_calls;
mod disk_log;
mod disk_state;
mod faults;
mod fixed_clock;
mod link;
mod mem_disk;
mod mem_link;
mod mem_sink;
mod mem_source;
mod net;
mod sink;
mod source;
mod std_streams;

pub use calls::FailingCalls;
pub use clock::Clock;
pub use closed_net::ClosedNet;
pub use disk::{Disk, DiskFailed, NamesFault};
pub use disk_calls::DiskCalls;
pub use fixed_clock::FixedClock;
pub use link::Link;
pub use mem_disk::MemDisk;
pub use mem_link::MemLink;
pub use mem_sink::MemSink;
pub use mem_source::MemSource;
pub use net::{Net, NetFailed};
pub use sink::{Sink, WriteEnd, WriteFault, write_all};
pub use source::{ReadEnd, Source};
pub use std_streams::{StdSink, StdSource};

// Where links come from.
ghost use Rattle.std.specs.Prelude.{◌≡◌, ℕ, ◌≤◌, None, OnErr};
ghost use Rattle.outside_io.specs.Faults.{Rose};

use crate::link::Link;
use thiserror::Error;

/// A port could not be had.
#[derive(Clone, Copy, Debug, PartialEq, Eq, Error)]
#[error("a port could not be had")]
pub struct NetFailed;

/// A network with two ports, one for metric lines and one for HTTP.
pub trait Net {
    type L: Link;

    ghost faults: { Self → ℕ };

    /// It closes while it is used: one of its calls for a link was answered by none.
    ghost closes: { Self → Type 0 };

    /// How many calls have failed. The count never falls, and stays at 2^64 - 1.
    fn faults(&self) -> u64
        ensures { result ≡ Self.faults self.now };

    /// Opens the two ports. Each closes after it gave so many links; 0 means never.
    fn bind(&mut self, line_port: u16, http_port: u16, links: u64) -> Result<(), NetFailed>
        ensures later { Self.faults self.old ≤ Self.faults self.new }
        ensures cause { OnErr result (Rose (Self.faults self.old) (Self.faults self.new)) };

    /// The next link of the port for metric lines, or `None` where the net is closed, and then always.
    fn next_lines(&self) -> Option<Self::L>
        ensures closed { result ≡ None → Self.closes self.now };

    /// The next link of the port for HTTP, or `None` where the net is closed, and then always.
    fn next_http(&self) -> Option<Self::L>
        ensures closed { result ≡ None → Self.closes self.now };
}

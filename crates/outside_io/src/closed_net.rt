// A network that gives no link.
ghost use Rattle.std.specs.Prelude.{IsNone, IsOk, ⊤};

use crate::mem_link::MemLink;
use crate::net::{Net, NetFailed};

/// A network that is closed from the start. Its ports can be had, and no link comes.
#[derive(Clone, Copy, Debug)]
pub struct ClosedNet;

impl Net for ClosedNet {
    type L = MemLink;

    ghost faults = { λ _. 0 };

    ghost closes = { λ _. ⊤ };

    fn faults(&self) -> u64 {
        0
    }

    fn bind(&mut self, _line_port: u16, _http_port: u16, _links: u64) -> Result<(), NetFailed>
        ensures { IsOk result }
    {
        Ok(())
    }

    fn next_lines(&self) -> Option<MemLink>
        ensures { IsNone result }
    {
        None
    }

    fn next_http(&self) -> Option<MemLink>
        ensures { IsNone result }
    {
        None
    }
}

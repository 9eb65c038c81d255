// A network in memory.
ghost use Rattle.std.specs.Prelude.{◌≡◌, ⊤};

use crate::faults::raised;
use outside_io::{Link, Net, NetFailed};
use std::sync::{Mutex, Wait};

/// What the ports of a network were opened by.
#[derive(Clone, Copy, Debug, PartialEq, Eq)]
pub struct Bound {
    pub line_port: u16,
    pub http_port: u16,
    pub links: u64,
}

/// A network that gives the links of two lists, and is closed where none is left.
#[derive(Drop)]
pub struct MemNet<L: Link, R: Wait> {
    rt: R,
    lines: Mutex<Vec<L>>,
    http: Mutex<Vec<L>>,
    fails: bool,
    faults: u64,
    bound: Option<Bound>,
}

impl<L: Link, R: Wait> MemNet<L, R> {
    /// A network that gives these links for metric lines and these for HTTP, each list from its front.
    pub fn new(rt: R, lines: Vec<L>, http: Vec<L>) -> MemNet<L, R> {
        let mut lines = lines;
        let mut http = http;
        lines.reverse();
        http.reverse();
        MemNet {
            rt,
            lines: Mutex::new(lines),
            http: Mutex::new(http),
            fails: false,
            faults: 0,
            bound: None,
        }
    }

    /// What the ports were opened by, where they are open.
    pub fn bound(&self) -> Option<Bound> {
        self.bound
    }

    /// The same network, whose ports cannot be had.
    pub fn failing(mut self) -> MemNet<L, R> {
        self.fails = true;
        self
    }
}

impl<L: Link, R: Wait> Net for MemNet<L, R> {
    type L = L;

    ghost faults = { λ net. net.faults };

    ghost closes = { λ _. ⊤ };

    fn faults(&self) -> u64 {
        self.faults
    }

    fn bind(&mut self, line_port: u16, http_port: u16, links: u64) -> Result<(), NetFailed> {
        if self.fails {
            self.faults = raised(self.faults);
            return Err(NetFailed);
        }
        self.bound = Some(Bound {
            line_port,
            http_port,
            links,
        });
        Ok(())
    }

    fn next_lines(&self) -> Option<L> {
        self.lines.lock(&self.rt).pop()
    }

    fn next_http(&self) -> Option<L> {
        self.http.lock(&self.rt).pop()
    }
}

//! The addresses of the machine at which a port is open.
ghost use Rattle.std.specs.Prelude.{◌≡◌, take};
ghost use Rattle.carbon_words.specs.HostTexts.{all_hosts};

use std::net::Ipv4Addr;

/// How many addresses a port has at most.
pub const MOST_HOSTS: usize = 16;

/// The addresses of the machine at which a port is open, at most 16.
#[derive(Clone, Copy, Debug, PartialEq, Eq)]
pub struct Hosts {
    // the first `count` of them
    pub(crate) list: [Ipv4Addr; MOST_HOSTS],
    pub(crate) count: usize,
}

impl Hosts {
    /// All addresses of the machine.
    pub(crate) fn all() -> Hosts
        ensures { result ≡ all_hosts }
    {
        Hosts {
            list: [Ipv4Addr::UNSPECIFIED; MOST_HOSTS],
            count: 1,
        }
    }

    /// The addresses, in the order of the words.
    pub fn addresses(&self) -> &[Ipv4Addr]
        ensures { result.now ≡ take self.now.count self.now.list }
    {
        self.list.get(..self.count).unwrap_or(&self.list)
    }
}

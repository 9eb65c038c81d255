//! The ports of the system, and their clean stop.
ghost use Rattle.std.specs.Prelude.{◌≡◌, ⊤};

use carbon_words::{Hosts, ServeOptions};
use outside_io::{Net, NetFailed};
use std::alloc::{AllocError, Global};
use std::io::{BufRead, ErrorKind};
use std::net::IpAddr;
use std::thread;
use std::time::Duration;
use tcp_net::{NetCloser, NetSettings, TcpLink, TcpNet};

/// How long the listener for the stop waits where it has no memory.
const MEMORY_PAUSE_MILLIS: u64 = 50;

/// What the words say of the ports.
pub(crate) fn net_settings(
    alloc: Global,
    options: &ServeOptions,
) -> Result<NetSettings, AllocError> {
    Ok(NetSettings {
        line_addresses: addresses_of(alloc, &options.hosts.lines)?,
        http_addresses: addresses_of(alloc, &options.hosts.http)?,
        line_patience: options.line_patience,
    })
}

fn addresses_of(alloc: Global, hosts: &Hosts) -> Result<Vec<IpAddr>, AllocError> {
    let mut addresses = Vec::new(alloc);
    for address in hosts.addresses() {
        addresses.push(IpAddr::V4(*address))?;
    }
    Ok(addresses)
}

/// The two ports of a server. A command that serves nothing has none, and its net binds nothing.
///
/// Once the ports are bound a line on standard error tells their numbers.
#[derive(Drop)]
pub(crate) struct HostNet {
    rt: HostRuntime,
    net: Option<TcpNet<HostRuntime>>,
    faults: u64,
}

impl HostNet {
    /// The net with these ports.
    pub(crate) fn new(rt: HostRuntime, net: Option<TcpNet<HostRuntime>>) -> HostNet {
        HostNet { rt, net, faults: 0 }
    }
}

impl Net for HostNet {
    type L = TcpLink<HostRuntime>;

    ghost faults = { λ net. net.faults };

    ghost closes = { λ _. ⊤ };

    fn faults(&self) -> u64 {
        self.faults
    }

    fn bind(&mut self, line_port: u16, http_port: u16, links: u64) -> Result<(), NetFailed> {
        if let Some(net) = &mut self.net {
            if net.bind(line_port, http_port, links).is_ok() {
                if let Some(ports) = net.ports() {
                    let _ = eprintln!(self.rt;
                        "carbon: lines on {}, HTTP on {}",
                        ports.lines, ports.http
                    );
                }
                return Ok(());
            }
        }
        self.faults = self.faults.saturating_add(1);
        Err(NetFailed)
    }

    fn next_lines(&self) -> Option<TcpLink<HostRuntime>> {
        self.net.as_ref()?.next_lines()
    }

    fn next_http(&self) -> Option<TcpLink<HostRuntime>> {
        self.net.as_ref()?.next_http()
    }
}

/// Closes the ports at a line `stop` on standard input, and at its end where that is a stop too.
pub(crate) fn close_at_stop(rt: HostRuntime, closer: NetCloser, stops_at_end: bool) {
    if is_stop_read(&rt) || stops_at_end {
        let _ = eprintln!(rt; "carbon: stopping");
        closer.close(&rt);
    }
}

// Reads lines up to `stop`, or to the end of the input. A line that is no text is passed over. Where there is no memory for the rest of a line
// it is read again after a pause, behind what has come of it; the one reader keeps what it has taken.
fn is_stop_read(rt: &HostRuntime) -> bool {
    let mut input = rt.reader();
    let mut line = String::new(rt.alloc());
    for _ in 0..u64::MAX {
        match input.read_line(&mut line) {
            Ok(count) => {
                let is_stop = line.as_str().trim_end() == "stop";
                if is_stop || count == 0 {
                    return is_stop;
                }
                line.clear();
            }
            Err(error) if error.kind() == ErrorKind::InvalidData => line.clear(),
            Err(error) if error.kind() == ErrorKind::OutOfMemory => {
                thread::sleep(rt, Duration::from_millis(MEMORY_PAUSE_MILLIS));
            }
            Err(_) => return false,
        }
    }
    false
}

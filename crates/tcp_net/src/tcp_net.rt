// The network of the system.
ghost use Rattle.std.specs.Prelude.{◌≡◌, IfOk, ⊤};

use crate::faults::raised;
use crate::keep_alive::keep_alive;
use crate::net_closer::{NetCloser, StopTimes};
use crate::net_settings::NetSettings;
use crate::patience::Patience;
use crate::port::{BoundPorts, Port};
use crate::shared::{Ports, Shared};
use crate::tcp_link::TcpLink;
use crate::timed_stream::TimedStream;
use outside_io::{Net, NetFailed};
use std::alloc::{AllocError, Global};
use std::io;
use std::io::{Eprint, ErrorKind};
use std::net::{IpAddr, TcpListener, TcpStream};
use std::os::fd::AsRawFd;
use std::sync::Arc;
use std::time::Clock;

/// Two TCP ports, one for metric lines and one for HTTP, each at addresses of its own.
///
/// Any number of threads may wait for the next link of a port at once, each in a call of its own. Each link then has
/// its thread to itself: while as many links are open as there are threads, further connections wait, at most 128 at
/// each address of a port, and a connection past these is made to wait by the system of its sender. The addresses of a
/// port take turns. An accept that fails, as for want of descriptors, is tried again every 50 milliseconds, and is no
/// fault of the net: only a `bind` that fails is.
#[derive(Drop)]
pub struct TcpNet<R> {
    rt: R,
    alloc: Global,
    settings: NetSettings,
    shared: Arc<Shared>,
    faults: u64,
}

impl<R: std::net::Net<Listener = TcpListener, Stream = TcpStream> + Clock + Copy + Eprint> TcpNet<
    R,
> {
    /// A net with these settings, and with no port bound yet. It takes two descriptors, each address of a port and each
    /// link one more, and so at the stop does each connection that waits: `net_descriptors` at most beside the links.
    pub fn new(alloc: Global, rt: R, settings: NetSettings) -> io::Result<Self>
        ensures { IfOk result (λ net. ⟦<TcpNet<R> as Net>⟧.faults net ≡ 0) }
    {
        TcpNet::with_times(alloc, rt, settings, StopTimes::usual())
    }

    pub(crate) fn with_times(
        alloc: Global,
        rt: R,
        settings: NetSettings,
        times: StopTimes,
    ) -> io::Result<Self>
        ensures { IfOk result (λ net. ⟦<TcpNet<R> as Net>⟧.faults net ≡ 0) }
    {
        let shared = Shared::new(&rt, times)?;
        Ok(TcpNet {
            shared: Arc::new(alloc, shared)?,
            rt,
            alloc,
            settings,
            faults: 0,
        })
    }

    /// What closes this net from another thread.
    pub fn closer(&self) -> Result<NetCloser, AllocError> {
        Ok(NetCloser::new(Arc::try_clone(&self.shared)?))
    }

    /// The ports, once they are bound: those that `bind` was told, and for 0 the one that the system chose.
    pub fn ports(&self) -> Option<BoundPorts> {
        self.shared.bound()
    }

    fn open(&self, addresses: &[IpAddr], number: u16, links: u64) -> io::Result<Port> {
        Port::open(&self.rt, self.alloc, addresses, number, links)
    }

    fn open_both(&self, line_port: u16, http_port: u16, links: u64) -> io::Result<()> {
        let lines = self.open(&self.settings.line_addresses, line_port, links)?;
        let http = self.open(&self.settings.http_addresses, http_port, links)?;
        if self.shared.keep(Ports { lines, http }) {
            Ok(())
        } else {
            Err(io::Error::from(ErrorKind::AlreadyExists))
        }
    }
}

impl<R: std::net::Net<Listener = TcpListener, Stream = TcpStream> + Clock + Copy + Eprint> Net
    for TcpNet<R> {
    type L = TcpLink<R>;

    ghost faults = { λ net. net.faults };

    ghost closes = { λ _. ⊤ };

    fn faults(&self) -> u64 {
        self.faults
    }

    /// Opens the two ports; 0 is any free one of the port's first address, and then that one of its others, which `ports`
    /// tells. Where one of them cannot be had at one of its addresses, neither stays open, and the call may be made again.
    /// So it is where a port has no address, or more than 16. Once both are open, a further call fails and changes nothing
    /// else.
    fn bind(&mut self, line_port: u16, http_port: u16, links: u64) -> Result<(), NetFailed> {
        if self.open_both(line_port, http_port, links).is_ok() {
            return Ok(());
        }
        self.faults = raised(self.faults);
        Err(NetFailed)
    }

    fn next_lines(&self) -> Option<TcpLink<R>> {
        let shared = Arc::try_clone(&self.shared).ok()?;
        let stream = self.shared.ports()?.lines.next_stream(&self.rt)?;
        keep_alive(stream.as_raw_fd());
        let patience = Patience::for_lines(self.settings.line_patience);
        Some(TcpLink::new(TimedStream::new(self.rt, stream, shared, patience)))
    }

    fn next_http(&self) -> Option<TcpLink<R>> {
        let shared = Arc::try_clone(&self.shared).ok()?;
        let stream = self.shared.ports()?.http.next_stream(&self.rt)?;
        Some(TcpLink::new(TimedStream::new(self.rt, stream, shared, Patience::for_http())))
    }
}

// The sockets of a port, one for each of its addresses.
use crate::readiness::{Readiness, asked_for, wait_for};
use libc::net::{POLLIN, SHUT_RDWR, shutdown};
use libc::types::pollfd;
use std::alloc::Global;
use std::io;
use std::io::ErrorKind;
use std::net::{IpAddr, Net, SocketAddr, TcpListener, TcpStream};
use std::os::fd::AsRawFd;
use std::sync::atomic::{AtomicUsize, Ordering};
use std::time::Duration;

/// How many addresses a port has at most.
pub const MOST_ADDRESSES: usize = 16;

// What is looked at where no socket is. The system passes it over.
const NO_SOCKET: pollfd = pollfd {
    fd: -1,
    events: 0,
    revents: 0,
};

// Several threads may wait for their connections at once. With one socket its accept waits. Several have none that
// waits: a thread waits until one of them has a connection, and then asks them in turn.
#[derive(Drop)]
pub(crate) struct Listeners {
    sockets: Vec<TcpListener>,
    number: u16,
    // how many calls have asked the sockets in turn
    turn: AtomicUsize,
}

impl Listeners {
    // Listens at each of these addresses, of which there is one at least. Number 0 is any free one of the first address,
    // and then that one of the others.
    pub(crate) fn open<R: Net<Listener = TcpListener, Stream = TcpStream>>(
        rt: &R,
        alloc: Global,
        addresses: &[IpAddr],
        number: u16,
    ) -> io::Result<Self> {
        if addresses.is_empty() || MOST_ADDRESSES < addresses.len() {
            return Err(io::Error::from(ErrorKind::InvalidInput));
        }
        let mut listeners = Listeners {
            sockets: Vec::with_capacity(alloc, addresses.len())?,
            number,
            turn: AtomicUsize::new(0),
        };
        for address in addresses {
            listeners.add(rt, *address)?;
        }
        if 1 < addresses.len() {
            listeners.wait_no_more()?;
        }
        Ok(listeners)
    }

    fn add<R: Net<Listener = TcpListener, Stream = TcpStream>>(
        &mut self,
        rt: &R,
        address: IpAddr,
    ) -> io::Result<()> {
        let socket = TcpListener::bind(rt, SocketAddr::from((address, self.number)))?;
        self.number = socket.local_addr()?.port();
        self.sockets.push(socket)?;
        Ok(())
    }

    pub(crate) fn number(&self) -> u16 {
        self.number
    }

    pub(crate) fn count(&self) -> usize {
        self.sockets.len()
    }

    // From now on no accept waits.
    pub(crate) fn wait_no_more(&self) -> io::Result<()> {
        for socket in &self.sockets {
            socket.set_nonblocking(true)?;
        }
        Ok(())
    }

    // The next connection of any of them.
    pub(crate) fn accept(&self) -> io::Result<TcpStream> {
        if self.sockets.len() == 1 {
            return self.accept_at_once();
        }
        for _ in 0..u64::MAX {
            if self.wait_for_connection(None) == Readiness::Failed {
                break;
            }
            match self.accept_at_once() {
                Err(fault) if fault.kind() == ErrorKind::WouldBlock => {}
                ended => return ended,
            }
        }
        Err(io::Error::from(ErrorKind::Other))
    }

    // A connection of the first socket that has one, or a fault of one before it. Each call begins with another socket,
    // so that none keeps the connections of the others waiting.
    pub(crate) fn accept_at_once(&self) -> io::Result<TcpStream> {
        let count = self.sockets.len();
        let turn = self.turn.fetch_add(1, Ordering::SeqCst);
        let first = turn.checked_rem(count).unwrap_or(0);
        for place in (first..count).chain(0..first) {
            let Some(socket) = self.sockets.get(place) else {
                continue;
            };
            match socket.accept() {
                Ok((stream, _)) => return Ok(stream),
                Err(fault) if fault.kind() == ErrorKind::WouldBlock => {}
                Err(fault) => return Err(fault),
            }
        }
        Err(io::Error::from(ErrorKind::WouldBlock))
    }

    // Waits until one of them has a connection, for so long at most, or for ever.
    pub(crate) fn wait_for_connection(&self, limit: Option<Duration>) -> Readiness {
        let mut asked = [NO_SOCKET; MOST_ADDRESSES];
        for (place, socket) in asked.iter_mut().zip(&self.sockets) {
            *place = asked_for(socket, POLLIN);
        }
        wait_for(&mut asked, limit)
    }

    // From now on they refuse, and each thread that waits for a connection is woken. Those that stand in the system's
    // queues are lost.
    pub(crate) fn refuse(&self) {
        for socket in &self.sockets {
            shutdown(socket.as_raw_fd(), SHUT_RDWR);
        }
    }
}

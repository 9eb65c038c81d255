// A port that gives links.
ghost use Rattle.std.specs.Prelude.{◌≡◌, ◌+◌, ◌*◌};

use crate::listeners::Listeners;
use crate::readiness::Readiness;
use std::alloc::Global;
use std::collections::VecDeque;
use std::io::ErrorKind;
use std::net::{IpAddr, Net, TcpListener, TcpStream};
use std::sync::Mutex;
use std::sync::atomic::{AtomicBool, AtomicU64, Ordering};
use std::time::{Clock, Duration};
use std::{io, thread};

// How long a thread waits after an accept that failed. Want of descriptors, say, is answered at once, and may pass only
// as another link ends.
const FAULT_PAUSE_MILLIS: u64 = 50;

// How long a thread waits for another one that takes one of the last links.
const TURN_PAUSE_MILLIS: u64 = 1;

// How many connections a port that closes takes from the system for each of its addresses, at which the system keeps so
// many waiting, and how often it looks for one.
const MOST_LAST: u64 = 129;

const MOST_LAST_LOOKS: u64 = 1_024;

/// How many descriptors a net takes at most whose ports have so many addresses together, beside one for each link that is
/// open: two of its own, and for each address its socket and the connections that are taken from the system at the stop.
pub fn net_descriptors(addresses: u32) -> u64
    ensures { result ≡ 2 + 130 * addresses }
{
    2 + (1 + MOST_LAST) * u64::from(addresses)
}

/// The ports that are open.
#[derive(Clone, Copy, Debug, PartialEq, Eq)]
pub struct BoundPorts {
    /// The port for metric lines.
    pub lines: u16,
    /// The port for HTTP.
    pub http: u16,
}

// What a port knows of connections that nobody has taken yet.
#[derive(Clone, Copy, PartialEq, Eq)]
pub(crate) enum Demand {
    // There is none.
    None,
    // A thread is free for the next one.
    Served,
    // None is.
    Unserved,
}

// A port, open or closed. Several threads may wait for its links at once.
#[derive(Drop)]
pub(crate) struct Port {
    listeners: Listeners,
    // how many links it gives before it closes; 0: it never does
    links: u64,
    // how many calls have set out to give a link, and how many links have come
    begun: AtomicU64,
    given: AtomicU64,
    // how many threads wait for a link, or end one for the sake of another
    free: AtomicU64,
    closing: AtomicBool,
    closed: AtomicBool,
    // the links that nobody had taken when the port closed
    last: Mutex<VecDeque<TcpStream>>,
}

impl Port {
    // Opens a port at these addresses; number 0 is any free one of the first, and then that one of the others.
    pub(crate) fn open<R: Net<Listener = TcpListener, Stream = TcpStream>>(
        rt: &R,
        alloc: Global,
        addresses: &[IpAddr],
        number: u16,
        links: u64,
    ) -> io::Result<Self> {
        Ok(Port {
            listeners: Listeners::open(rt, alloc, addresses, number)?,
            links,
            begun: AtomicU64::new(0),
            given: AtomicU64::new(0),
            free: AtomicU64::new(0),
            closing: AtomicBool::new(false),
            closed: AtomicBool::new(false),
            last: Mutex::new(VecDeque::new(alloc)),
        })
    }

    pub(crate) fn number(&self) -> u16 {
        self.listeners.number()
    }

    // The next link, or `None` where the port is closed and nothing is left of its queue, or all its links are given or
    // waited for. An accept that fails is tried again after a pause.
    pub(crate) fn next_stream(&self, rt: &impl Clock) -> Option<TcpStream> {
        if !self.begin_link() {
            return None;
        }
        self.free.fetch_add(1, Ordering::SeqCst);
        let stream = self.wait_for_stream(rt);
        self.free.fetch_sub(1, Ordering::SeqCst);
        stream
    }

    fn wait_for_stream(&self, rt: &impl Clock) -> Option<TcpStream> {
        for _ in 0..u64::MAX {
            if self.is_closed() {
                return self.next_last(rt);
            }
            if let Ok(stream) = self.listeners.accept().and_then(as_link) {
                self.count_given();
                return Some(stream);
            }
            if !self.is_closed() {
                thread::sleep(rt, Duration::from_millis(FAULT_PAUSE_MILLIS));
            }
        }
        None
    }

    // The next of the links that nobody had taken when the port closed.
    fn next_last(&self, rt: &impl Clock) -> Option<TcpStream> {
        for _ in 0..u64::MAX {
            if let Some(mut last) = self.last.try_lock() {
                return last.pop_front();
            }
            thread::sleep(rt, Duration::from_millis(TURN_PAUSE_MILLIS));
        }
        None
    }

    // Whether a connection waits, and whether a thread is free for it. Where none is, that of the caller is from now on,
    // until its link ends.
    pub(crate) fn demand(&self) -> Demand {
        if self.is_closed() || !self.has_waiting() {
            return Demand::None;
        }
        match self
            .free
            .compare_exchange(0, 1, Ordering::SeqCst, Ordering::SeqCst)
        {
            Ok(_) => Demand::Unserved,
            Err(_) => Demand::Served,
        }
    }

    // A link that ended for the sake of another is over.
    pub(crate) fn count_ended(&self) {
        self.free.fetch_sub(1, Ordering::SeqCst);
    }

    fn has_waiting(&self) -> bool {
        self.listeners.wait_for_connection(Some(Duration::ZERO)) == Readiness::Ready
    }

    // Whether one more link may be waited for.
    fn begin_link(&self) -> bool {
        if self.links == 0 {
            return true;
        }
        self.begun.load(Ordering::SeqCst) < self.links
            && self.begun.fetch_add(1, Ordering::SeqCst) < self.links
    }

    fn count_given(&self) {
        let before = self.given.fetch_add(1, Ordering::SeqCst);
        if 0 < self.links && self.links <= before.saturating_add(1) {
            self.refuse();
        }
    }

    // Takes the links that wait in the system's queue, so that they are given now or later, and then refuses.
    pub(crate) fn close(&self) {
        if self.closing.swap(true, Ordering::SeqCst) || self.is_closed() {
            return;
        }
        self.empty_queue();
        self.refuse();
    }

    // A connection that has failed while it waited is passed over. What comes meanwhile is not waited for without end.
    fn empty_queue(&self) {
        if self.listeners.wait_no_more().is_err() {
            return;
        }
        let count = self.listeners.count() as u64;
        let mut left = MOST_LAST.saturating_mul(count);
        for _ in 0..MOST_LAST_LOOKS.saturating_mul(count) {
            match self.listeners.accept_at_once().and_then(as_link) {
                Ok(stream) => self.keep(stream),
                Err(fault) if fault.kind() == ErrorKind::WouldBlock => return,
                Err(_) => continue,
            }
            left = left.saturating_sub(1);
            if left == 0 {
                return;
            }
        }
    }

    // Keeps one of the last links. Nobody else has the lock while the port is not closed. Without memory it is lost.
    fn keep(&self, stream: TcpStream) {
        if let Some(mut last) = self.last.try_lock() {
            let _ = last.push_back(stream);
        }
    }

    // From now on the port refuses, and each thread that waits for a link of it is woken. Links that stand in the
    // system's queues are lost.
    fn refuse(&self) {
        self.closed.store(true, Ordering::SeqCst);
        self.listeners.refuse();
    }

    fn is_closed(&self) -> bool {
        self.closed.load(Ordering::SeqCst)
    }
}

// A stream whose calls answer at once where they would have to wait, and whose small pieces are sent at once.
fn as_link(stream: TcpStream) -> io::Result<TcpStream> {
    stream.set_nonblocking(true)?;
    let _ = stream.set_nodelay(true);
    Ok(stream)
}

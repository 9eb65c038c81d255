// The end of all links at once.
use crate::readiness::asked_for;
use libc::net::POLLIN;
use libc::types::pollfd;
use std::io;
use std::net::{Net, Shutdown};
use std::os::unix::net::UnixStream;
use std::sync::OnceLock;
use std::time::Duration;

// A signal that is given once and then stands. A link sees it, and a link that waits is woken by it: the watched end of
// a pair of sockets becomes ready as the other one is shut down, and stays so.
#[derive(Drop)]
pub(crate) struct HangUp {
    // the moment when it was given
    given: OnceLock<Duration>,
    // how long a link may go on then
    rest: Duration,
    signal: UnixStream,
    watched: UnixStream,
}

impl HangUp {
    pub(crate) fn new(rt: &impl Net, rest: Duration) -> io::Result<Self> {
        let (signal, watched) = UnixStream::pair(rt)?;
        Ok(HangUp {
            given: OnceLock::new(),
            rest,
            signal,
            watched,
        })
    }

    // Gives it at this moment.
    pub(crate) fn give(&self, now: Duration) {
        let _ = self.given.try_set(now);
        let _ = self.signal.shutdown(Shutdown::Both);
    }

    pub(crate) fn is_given(&self) -> bool {
        self.given.get().is_some()
    }

    // When the last link ends, once it was given.
    pub(crate) fn deadline(&self) -> Option<Duration> {
        Some(self.given.get()?.saturating_add(self.rest))
    }

    // What a link that waits looks at beside its own socket.
    pub(crate) fn watched(&self) -> pollfd {
        asked_for(&self.watched, POLLIN)
    }
}

// A clean stop.
use crate::port::BoundPorts;
use crate::shared::Shared;
use std::sync::Arc;
use std::thread;
use std::time::{Clock, Duration};

// The times of a stop.
#[derive(Clone, Copy)]
pub(crate) struct StopTimes {
    // how long links go on after their ports were closed
    pub(crate) grace: Duration,
    // how long they have then for what has come, and for what is being written
    pub(crate) rest: Duration,
}

impl StopTimes {
    // Those that `NetCloser::close` tells.
    pub(crate) fn usual() -> Self {
        StopTimes {
            grace: Duration::from_secs(1),
            rest: Duration::from_secs(5),
        }
    }
}

/// Closes a `TcpNet`, from any thread.
#[derive(Drop)]
pub struct NetCloser {
    shared: Arc<Shared>,
}

impl NetCloser {
    pub(crate) fn new(shared: Arc<Shared>) -> Self {
        NetCloser { shared }
    }

    /// Closes the net for good. It returns a second later, when all links were told to end.
    ///
    /// First the connections that nobody has taken yet are taken from the system; they are given as links to the calls
    /// that want one, those that wait and later ones. Then both ports refuse, and a call that finds no such link left
    /// answers that there is none.
    ///
    /// For one second more each link goes on as before. Then it gives what has come already, and its source is at its
    /// end, in the middle of a line or a request too; so it is with links that are given later. What is written to a
    /// link is sent, so a reply that is under way is finished. Five seconds after the links were told to end, six
    /// after the call began, no source gives any more, and a write that has to wait fails.
    ///
    /// A net that is closed before `bind` binds, and gives no link. A second call changes nothing.
    pub fn close(&self, rt: &impl Clock) {
        self.shared.close_ports();
        thread::sleep(rt, self.shared.grace);
        // A clock that cannot be read has no five seconds.
        let now = rt.monotonic().unwrap_or(Duration::ZERO);
        self.shared.hang_up.give(now);
    }

    /// The ports, once they are bound.
    pub fn ports(&self) -> Option<BoundPorts> {
        self.shared.bound()
    }
}

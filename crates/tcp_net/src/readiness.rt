// Waiting until a socket has bytes or room.
use libc::net::poll;
use libc::types::pollfd;
use std::os::fd::AsRawFd;
use std::time::Duration;

// What a wait came to.
#[derive(Clone, Copy, PartialEq, Eq)]
pub(crate) enum Readiness {
    // One of the sockets is ready, or is at its end.
    Ready,
    // So much time went by.
    TimedOut,
    // The system could not wait.
    Failed,
}

// A socket, and what it is to be ready for.
pub(crate) fn asked_for(socket: &impl AsRawFd, events: i16) -> pollfd {
    pollfd {
        fd: socket.as_raw_fd(),
        events,
        revents: 0,
    }
}

// Waits until one of the sockets is ready for what it is asked for, at most so long: in whole milliseconds, and up to
// 2^31 - 1 of them. With no limit it waits for ever.
pub(crate) fn wait_for(asked: &mut [pollfd], limit: Option<Duration>) -> Readiness {
    let millis = match limit {
        Some(limit) => i32::try_from(limit.as_millis()).unwrap_or(i32::MAX),
        None => -1,
    };
    match poll(asked, millis) {
        0 => Readiness::TimedOut,
        count if 0 < count => Readiness::Ready,
        _ => Readiness::Failed,
    }
}

// The end of a connection whose other end may still be sending.
use crate::readiness::{Readiness, asked_for, wait_for};
use libc::net::POLLIN;
use std::io;
use std::io::{ErrorKind, Read};
use std::net::{Shutdown, TcpStream};
use std::time::{Clock, Duration};

const LINGER_SECONDS: u64 = 1;

const LOOK_MILLIS: u64 = 100;

// Says that no more will be sent, and drops what still comes until the other end is at its end too, for about a second
// at most, and not past the deadline. Were a connection closed over bytes that nobody has read, the system would reset
// it, and the other end could lose the last bytes that it was sent.
pub(crate) fn linger(
    rt: &impl Clock,
    stream: &TcpStream,
    deadline: Option<Duration>,
) -> io::Result<()> {
    stream.shutdown(Shutdown::Write)?;
    let until = rt
        .monotonic()?
        .saturating_add(Duration::from_secs(LINGER_SECONDS));
    let until = deadline.map_or(until, |deadline| until.min(deadline));
    for _ in 0..u64::MAX {
        let at_end = drop_bytes(stream)?;
        if at_end || rt.monotonic()? >= until {
            break;
        }
    }
    Ok(())
}

// Drops the next bytes, and says whether none will come any more. Where there are none now it waits a little.
fn drop_bytes(mut stream: &TcpStream) -> io::Result<bool> {
    let mut dropped = [0u8; 4096];
    match stream.read(&mut dropped) {
        Ok(count) => return Ok(count == 0),
        Err(fault) if fault.kind() == ErrorKind::WouldBlock => {}
        Err(fault) => return Err(fault),
    }
    let limit = Duration::from_millis(LOOK_MILLIS);
    let waited = wait_for(&mut [asked_for(stream, POLLIN)], Some(limit));
    Ok(waited == Readiness::Failed)
}

// A TCP stream whose other end has to keep its times.
ghost use Rattle.std.specs.Prelude.{◌≡◌, ◌≤◌, length};
ghost use Rattle.std.specs.Io.{ReadsAtMost, WritesAtMost};

use crate::exchange::Exchange;
use crate::linger::linger;
use crate::pace::Pace;
use crate::patience::Patience;
use crate::port::Demand;
use crate::readiness::{Readiness, asked_for, wait_for};
use crate::shared::Shared;
use libc::net::{POLLIN, POLLOUT};
use std::io;
use std::io::{Eprint, ErrorKind, Read, Write};
use std::net::TcpStream;
use std::sync::Arc;
use std::time::{Clock, Duration};

// How soon a link looks again where a connection waits that another thread is about to take.
const SOON_MILLIS: u64 = 5;

// How often a write that waits for room tries anew.
const ROOM_SECONDS: u64 = 1;

// Its calls give up where the other end has been waited for too long, and all after the hang-up.
#[derive(Drop)]
pub(crate) struct TimedStream<R: Clock + Copy> {
    rt: R,
    pub(crate) stream: TcpStream,
    shared: Arc<Shared>,
    pub(crate) patience: Patience,
    // where requests come
    exchange: Option<Exchange>,
    // whether it ends for the sake of another one
    gives_way: bool,
}

impl<R: Clock + Copy> TimedStream<R> {
    // The calls of the stream answer `WouldBlock` where they would have to wait.
    pub(crate) fn new(rt: R, stream: TcpStream, shared: Arc<Shared>, patience: Patience) -> Self {
        TimedStream {
            rt,
            stream,
            shared,
            patience,
            exchange: patience.for_exchange.map(Exchange::new),
            gives_way: false,
        }
    }

    // The next bytes, at least one; 0 is the end. After the hang-up no bytes are waited for.
    pub(crate) fn receive(&mut self, buf: &mut [u8]) -> io::Result<usize>
        ensures { ReadsAtMost result buf.new }
    {
        for _ in 0..u64::MAX {
            let waits = !self.shared.hang_up.is_given();
            match (&self.stream).read(buf) {
                Ok(count) if 0 < count => return self.take_in_time(count, buf),
                Err(fault) if fault.kind() == ErrorKind::WouldBlock => {}
                ended => return ended,
            }
            if !waits {
                return Ok(0);
            }
            match self.wait_for_bytes()? {
                Readiness::Ready => {}
                Readiness::TimedOut => return Ok(0),
                Readiness::Failed => break,
            }
        }
        Err(io::Error::from(ErrorKind::Other))
    }

    // So many bytes, or the end where they come too late.
    fn take_in_time(&mut self, count: usize, buf: &[u8]) -> io::Result<usize>
        requires { count ≤ length buf.now }
        ensures { ReadsAtMost result buf.now }
    {
        if let Some(exchange) = &mut self.exchange {
            exchange.note_read(&buf[..count], self.rt.monotonic()?);
        }
        match self.time_to_read()? {
            Some(Duration::ZERO) => Ok(0),
            _ => Ok(count),
        }
    }

    // How much longer bytes may come; none: there is no end to it.
    fn time_to_read(&self) -> io::Result<Option<Duration>> {
        let request = self.pace().and_then(Pace::deadline);
        match least(request, self.shared.hang_up.deadline()) {
            Some(deadline) => Ok(Some(deadline.saturating_sub(self.rt.monotonic()?))),
            None => Ok(None),
        }
    }

    // Waits until bytes have come, or the hang-up.
    fn wait_for_bytes(&mut self) -> io::Result<Readiness> {
        let limit = least(self.time_to_read()?, self.patience.for_bytes);
        Ok(match (self.pause_of_looks(), limit) {
            (Some(pause), Some(limit)) => self.wait_for_request(pause, limit),
            _ => self.wait_for(limit),
        })
    }

    fn wait_for(&self, limit: Option<Duration>) -> Readiness {
        let mut asked = [
            asked_for(&self.stream, POLLIN),
            self.shared.hang_up.watched(),
        ];
        wait_for(&mut asked, limit)
    }

    // How often a link without a request looks whether its thread is wanted.
    fn pause_of_looks(&self) -> Option<Duration> {
        let idle = self.patience.idle?;
        let pace = self.pace()?;
        match (pace.is_reading(), pace.is_replying()) {
            (true, _) => None,
            (false, true) => Some(idle.next),
            (false, false) => Some(idle.first),
        }
    }

    // Waits for so long at most, and not past a look at which a connection waits that has no thread: that one gets the
    // thread of this link.
    fn wait_for_request(&mut self, pause: Duration, limit: Duration) -> Readiness {
        let mut next = pause.min(limit);
        let mut left = limit;
        for _ in 0..u64::MAX {
            let readiness = self.wait_for(Some(next));
            left = left.saturating_sub(next);
            if readiness != Readiness::TimedOut || left == Duration::ZERO {
                return readiness;
            }
            match self.shared.http_demand() {
                Demand::None => next = pause.min(left),
                Demand::Served => next = Duration::from_millis(SOON_MILLIS).min(left),
                Demand::Unserved => {
                    self.gives_way = true;
                    return Readiness::TimedOut;
                }
            }
        }
        Readiness::Failed
    }

    fn pace(&self) -> Option<&Pace> {
        Some(&self.exchange.as_ref()?.pace)
    }

    // Sends a front of the piece. Where there is no time left to wait for room it has tried once more.
    pub(crate) fn send(&mut self, piece: &[u8]) -> io::Result<usize>
        ensures { WritesAtMost result piece.now }
    {
        let mut left = self.patience.for_room;
        for _ in 0..u64::MAX {
            match (&self.stream).write(piece) {
                Ok(count) => return Ok(self.count_sent(count)),
                Err(fault) if fault.kind() == ErrorKind::WouldBlock && !left.is_zero() => {}
                Err(fault) => return Err(fault),
            }
            left = self.wait_for_room(left)?;
        }
        Err(io::Error::from(ErrorKind::Other))
    }

    fn count_sent(&mut self, count: usize) -> usize
        ensures { result ≡ count }
    {
        if let Some(exchange) = &mut self.exchange {
            exchange.pace.note_write(count);
        }
        count
    }

    // Waits so long at most until the system takes bytes again, or the hang-up where that is still to come, and no longer
    // than a second, since the system says that there is room only once there is much of it. Tells how long may be waited
    // still.
    fn wait_for_room(&mut self, left: Duration) -> io::Result<Duration> {
        let begun = self.rt.monotonic()?;
        let limit = least(Some(left), self.time_to_write(begun)).unwrap_or(left);
        let readiness = self.poll_room(limit.min(Duration::from_secs(ROOM_SECONDS)));
        if readiness == Readiness::Failed {
            return Err(io::Error::from(ErrorKind::Other));
        }
        let waited = self.rt.monotonic()?.saturating_sub(begun);
        if let Some(exchange) = &mut self.exchange {
            exchange.pace.note_wait(waited);
        }
        Ok(limit.saturating_sub(waited))
    }

    fn poll_room(&self, limit: Duration) -> Readiness {
        let room = asked_for(&self.stream, POLLOUT);
        let hang_up = &self.shared.hang_up;
        if hang_up.is_given() {
            wait_for(&mut [room], Some(limit))
        } else {
            wait_for(&mut [room, hang_up.watched()], Some(limit))
        }
    }

    // How much longer writes may wait at this moment; none: there is no end to it.
    fn time_to_write(&self, now: Duration) -> Option<Duration> {
        let reply = self.pace().map(Pace::wait_left);
        let deadline = self.shared.hang_up.deadline();
        least(reply, deadline.map(|deadline| deadline.saturating_sub(now)))
    }

    // The link is over.
    pub(crate) fn count_ended(&self) {
        if self.gives_way {
            self.shared.count_ended();
        }
    }

    // Ends the connection so that the last bytes that were sent arrive.
    pub(crate) fn linger(&self) -> io::Result<()> {
        linger(&self.rt, &self.stream, self.shared.hang_up.deadline())
    }
}

impl<R: Clock + Copy + Eprint> TimedStream<R> {
    // Tells an operator where the piece, which is about to be sent, is the reply that there was no memory for a question.
    pub(crate) fn tell_unanswered(&self, piece: &[u8]) {
        let Some(exchange) = &self.exchange else {
            return;
        };
        if let Some(unanswered) = exchange.unanswered(piece) {
            self.shared.questions.tell(&self.rt, unanswered);
        }
    }
}

// The lesser of two times, of which each may be none.
fn least(one: Option<Duration>, other: Option<Duration>) -> Option<Duration> {
    match (one, other) {
        (Some(one), Some(other)) => Some(one.min(other)),
        (one, None) => one,
        (None, other) => other,
    }
}

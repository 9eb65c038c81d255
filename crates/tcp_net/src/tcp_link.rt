// A link over a TCP connection.
ghost use Rattle.std.specs.Prelude.{◌≡◌, None};

use crate::faults::raised;
use crate::timed_stream::TimedStream;
use outside_io::{Link, ReadEnd, Sink, Source, WriteEnd};
use std::io::Eprint;
use std::time::Clock;

/// A TCP connection. It tells nothing of its bytes. Bytes are sent without delay, also where they are few.
///
/// **Lines.** A link for metric lines ends where no byte comes for as long as the settings say: its source is at its
/// end. The system asks a sender that is silent for a minute whether it is still there, and the link fails once it has
/// not answered for another minute.
///
/// **Requests.** The source of a link for HTTP is at its end
/// - where no byte comes for 75 seconds,
/// - where no byte of a request comes for a quarter of a second, or for a second behind a reply, and another connection
///   waits on the port while no thread waits for one: of several such links one ends for each connection,
/// - where a head is not whole 20 seconds after its first byte, which is the first one of the link or behind a write;
///   it is whole once its blank line has come,
/// - and where the link goes on to bring bytes behind the head, with no write, for more than 60 seconds and one more
///   for each 1,024 bytes.
///
/// **Replies.** A write fails where the other end takes no byte for 75 seconds. On a link for HTTP writes may wait for 20
/// seconds behind a read, and for one more for each 1,024 bytes that the system takes of them, but never for more than 75
/// from any moment on: one that has to wait longer fails. So a reply is taken at a kilobyte a second at least, and what
/// lies in the buffers of the system counts as 75 seconds at most, however large they are. The time that carbon itself
/// takes does not count.
///
/// **Questions without memory.** Where the reply to a request has the status 503, standard error is told so with the
/// first 200 bytes of its first line and its body, at most once a minute for all links of a net.
///
/// **The stop.** A second after the net was closed the links are told to end. A source then gives the bytes that have
/// come already, and is at its end once there are none, and after five seconds whatever comes. Writes go on for five
/// seconds; one that has to wait longer fails.
///
/// **Resets.** A connection that the other end resets is a read that fails, and a write that does: it is no end.
///
/// Dropping a link closes it. A link that was written to, and whose source is not at its end, first waits for the end
/// of the other side, for about a second at most, and drops what comes: so the last reply arrives.
pub struct TcpLink<R: Clock + Copy> {
    pub(crate) timed: TimedStream<R>,
    // whether bytes were sent that the other end may lose if the connection is closed at once
    lingers: bool,
    read_faults: u64,
    write_faults: u64,
}

impl<R: Clock + Copy> TcpLink<R> {
    pub(crate) fn new(timed: TimedStream<R>) -> Self {
        TcpLink {
            timed,
            lingers: false,
            read_faults: 0,
            write_faults: 0,
        }
    }
}

impl<R: Clock + Copy> Source for TcpLink<R> {
    ghost left = { λ _. None };

    ghost read_faults = { λ link. link.read_faults };

    ghost beside_read = { λ link. (None, link.write_faults) };

    fn read_faults(&self) -> u64 {
        self.read_faults
    }

    fn read(&mut self, buf: &mut [u8]) -> ReadEnd {
        match self.timed.receive(buf) {
            Ok(0) => {
                self.lingers = false;
                ReadEnd::End
            }
            Ok(count) => ReadEnd::Got(count),
            Err(_) => {
                self.lingers = false;
                self.read_faults = raised(self.read_faults);
                ReadEnd::Failed
            }
        }
    }
}

impl<R: Clock + Copy + Eprint> Sink for TcpLink<R> {
    ghost written = { λ _. None };

    ghost write_faults = { λ link. link.write_faults };

    ghost beside_write = { λ link. (None, link.read_faults) };

    fn write_faults(&self) -> u64 {
        self.write_faults
    }

    fn write(&mut self, piece: &[u8]) -> WriteEnd {
        self.timed.tell_unanswered(piece);
        match self.timed.send(piece) {
            Ok(count) if 0 < count => {
                self.lingers = true;
                WriteEnd::Took(count)
            }
            _ => {
                self.lingers = false;
                self.write_faults = raised(self.write_faults);
                WriteEnd::Failed
            }
        }
    }
}

impl<R: Clock + Copy + Eprint> Link for TcpLink<R> {
    ghost use Rattle.std.specs.Prelude.{refl};

    ghost reads_apart = { λ _. refl };

    ghost writes_apart = { λ _. refl };
}

impl<R: Clock + Copy> Drop for TcpLink<R> {
    fn drop(self) {
        let TcpLink {
            timed,
            lingers,
            read_faults: _,
            write_faults: _,
        } = self;
        if lingers {
            let _ = timed.linger();
        }
        timed.count_ended();
    }
}

//! Lines that come in pieces, and a service of lines.
ghost use Rattle.std.specs.Prelude.{⊤};

use crate::given::joined;
use crate::telling::push_bytes;
use case_lines::{Case, CaseFault, Told};
use line_frame::{Framed, Framer};
use line_service::{LineServer, ServiceEnd, Stop, WaitingServer, serve_each, serve_lines};
use outside_io::{MemSink, MemSource, Sink, write_all};
use std::alloc::{AllocError, Global};

/// `frames SIZE STREAM`: the lines of the stream in pieces of this size, a bar behind each and `?` for one that is too long.
pub fn tell_frames(alloc: Global, told: &mut Told, case: &Case) {
    let size = case.number_at(0, told) as usize;
    let stream = joined(alloc, case, 1, told);
    let mut framer = Framer::new(alloc);
    for piece in stream.chunks(size.max(1)) {
        told.keep(framer.feed(piece));
        push_lines(&mut framer, told);
    }
}

// Hands out all lines that wait.
fn push_lines(framer: &mut Framer, told: &mut Told) {
    for _ in 0..u64::MAX {
        match framer.next_line() {
            Some(Framed::Line) => push_bytes(told, framer.line()),
            Some(Framed::TooLong) => told.push('?'),
            None => return,
        }
        told.push('|');
    }
}

/// `served MOST READ TEXT`: how the service of the text ends, of which so many bytes come at once at most and of which the read
/// with that number fails (0: none does), and the replies, which are the lines as `frames` tells them. At the line `stop` it stops.
pub fn tell_served(alloc: Global, told: &mut Told, case: &Case) {
    let most = case.number_at(0, told) as usize;
    let failing = case.number_at(1, told);
    let text = joined(alloc, case, 2, told);
    match source_of(alloc, &text, most, failing) {
        Ok(input) => push_served(alloc, told, input),
        Err(_) => told.fail(CaseFault::NoMemory),
    }
}

fn source_of(
    alloc: Global,
    text: &[u8],
    most: usize,
    failing: u64,
) -> Result<MemSource, AllocError> {
    let calls = vec![in alloc; failing]?;
    let text = Vec::from_slice(alloc, text)?;
    Ok(
        MemSource::new(alloc, text)
            .at_most(most.max(1))
            .failing(calls),
    )
}

fn push_served(alloc: Global, told: &mut Told, input: MemSource) {
    let mut input = input;
    let mut out = MemSink::new(alloc);
    let end = serve_lines(&mut Echo, alloc, &mut input, &mut out);
    told.push_str(end_text(end));
    push_bytes(told, out.bytes());
}

fn end_text(end: ServiceEnd) -> &'static str {
    match end {
        ServiceEnd::Closed => "closed ",
        ServiceEnd::ReadFault => "read fault ",
        ServiceEnd::Limit => "limit ",
        ServiceEnd::NoMemory => "no memory ",
        ServiceEnd::Stopped(Stop::Spent) => "spent ",
        ServiceEnd::Stopped(_) => "stopped ",
    }
}

// Writes each line, or a question mark for one that was too long, and a bar behind it. It stops at the line `stop`.
#[derive(Drop)]
struct Echo;

impl LineServer for Echo {
    ghost serves = { λ _ _ _ _ _. ⊤ };

    ghost stops = { λ _ _ _ _ _ _. ⊤ };

    fn serve_line<K: Sink>(&mut self, line: &[u8], out: &mut K) -> Result<(), Stop> {
        if line == b"stop".as_slice() {
            return Err(Stop::Spent);
        }
        match write_all(out, line) {
            Ok(()) => {}
            Err(_) => return Err(Stop::WriteFault),
        }
        match write_all(out, b"|") {
            Ok(()) => Ok(()),
            Err(_) => Err(Stop::WriteFault),
        }
    }

    fn serve_long<K: Sink>(&mut self, out: &mut K) -> Result<(), Stop> {
        match write_all(out, b"?|") {
            Ok(()) => Ok(()),
            Err(_) => Err(Stop::WriteFault),
        }
    }
}

impl WaitingServer for Echo {
    fn serve_waiting<K: Sink>(&mut self, framer: &mut Framer, out: &mut K) -> Result<(), Stop> {
        serve_each(self, framer, out)
    }
}

// The loop that reads, frames and serves.
ghost use Rattle.std.specs.Prelude.{◌≡◌, ◌<◌, length, [], OnOk, IfOk, IfErr, Err};
ghost use Rattle.outside_io.specs.Frames.{CountsReads, CountsWrites};
ghost use Rattle.line_service.specs.Service.{Service, StepOf, standing};
ghost use Rattle.line_service.specs.Standing.{BreaksOff, TakesPiece};

use crate::ends::{ServiceEnd, Stop};
use crate::server::WaitingServer;
use line_frame::Framer;
use outside_io::{ReadEnd, Sink, Source};
use std::alloc::{AllocError, Global};

/// The most bytes that a service takes.
pub const MOST_INPUT_BYTES: u64 = 1 << 40;

// How many bytes a read asks for.
const PIECE_BYTES: usize = 65_536;

// Why the lines that a piece ends were not all served.
#[derive(Clone, Copy, Debug, PartialEq, Eq)]
enum PieceFault {
    NoMemory,
    Stopped(Stop),
}

/// Reads the input to its end, or as much of it as is taken at most, and serves its lines in order. What follows the last
/// line feed is no line.
#[tactic(auto, using(crate::proofs::StandingLemmas::ends_at_once))]
pub fn serve_lines<L: WaitingServer, S: Source, K: Sink>(
    server: &mut L,
    alloc: Global,
    input: &mut S,
    out: &mut K,
) -> ServiceEnd
    ensures service { Service L.serves L.stops result (S.left input.old)
        (standing K.Sink server.old out.old) (S.left input.new)
        (standing K.Sink server.new out.new) }
    ensures reads { CountsReads S.Source input.old input.new (result ≡ ServiceEnd.ReadFault) }
    ensures beside { S.beside_read input.new ≡ S.beside_read input.old }
    ensures writes { CountsWrites K.Sink out.old out.new
        (result ≡ ServiceEnd.Stopped Stop.WriteFault) }
{
    match zeros(alloc, PIECE_BYTES) {
        Ok(mut buffer) => serve_input(server, alloc, input, out, &mut buffer),
        Err(_) => ServiceEnd::NoMemory,
    }
}

// So many bytes, all zero.
fn zeros(alloc: Global, count: usize) -> Result<Vec<u8>, AllocError>
    ensures { IfOk result (λ bytes. length bytes.items ≡ count) }
{
    vec![in alloc; 0; count]
}

// Serves the lines of the input, which is read into the buffer.
#[tactic(auto, using(crate::proofs::StandingLemmas::ends_closed, crate::proofs::StandingLemmas::ends_failed))]
fn serve_input<L: WaitingServer, S: Source, K: Sink>(
    server: &mut L,
    alloc: Global,
    input: &mut S,
    out: &mut K,
    buffer: &mut [u8],
) -> ServiceEnd
    requires { 0 < length buffer.old }
    ensures service { Service L.serves L.stops result (S.left input.old)
        (standing K.Sink server.old out.old) (S.left input.new)
        (standing K.Sink server.new out.new) }
    ensures reads { CountsReads S.Source input.old input.new (result ≡ ServiceEnd.ReadFault) }
    ensures beside { S.beside_read input.new ≡ S.beside_read input.old }
    ensures writes { CountsWrites K.Sink out.old out.new
        (result ≡ ServiceEnd.Stopped Stop.WriteFault) }
{
    let mut framer = Framer::new(alloc);
    let mut taken = 0;
    while taken < MOST_INPUT_BYTES {
        let most = (MOST_INPUT_BYTES - taken).min(buffer.len() as u64) as usize;
        let room = &mut buffer[..most];
        match input.read(room) {
            ReadEnd::Got(count) => match serve_piece(server, &mut framer, &room[..count], out) {
                Ok(()) => taken += count as u64,
                Err(PieceFault::NoMemory) => return ServiceEnd::NoMemory,
                Err(PieceFault::Stopped(stop)) => return ServiceEnd::Stopped(stop),
            },
            ReadEnd::End => return ServiceEnd::Closed,
            ReadEnd::Failed => return ServiceEnd::ReadFault,
        }
    }
    ServiceEnd::Limit
}

// Serves the lines that a piece of the input ends.
#[tactic(auto, using(crate::proofs::StandingLemmas::breaks_stop))]
fn serve_piece<L: WaitingServer, K: Sink>(
    server: &mut L,
    framer: &mut Framer,
    piece: &[u8],
    out: &mut K,
) -> Result<(), PieceFault>
    ensures takes { OnOk result
        (TakesPiece (StepOf L.serves) framer.old
        (standing K.Sink server.old out.old) piece.now framer.new
        (standing K.Sink server.new out.new)) }
    ensures breaks { IfErr result
        (λ fault. BreaksOff L.serves L.stops fault framer.old
        (standing K.Sink server.old out.old) piece.now (standing K.Sink server.new out.new)) }
    ensures writes { CountsWrites K.Sink out.old out.new
        (result ≡ Err (PieceFault.Stopped Stop.WriteFault)) }
{
    match framer.feed(piece) {
        Ok(()) => match server.serve_waiting(framer, out) {
            Ok(()) => Ok(()),
            Err(stop) => Err(PieceFault::Stopped(stop)),
        },
        Err(_) => Err(PieceFault::NoMemory),
    }
}

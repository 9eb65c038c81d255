//! Serving the lines that wait in a framer.
ghost use Rattle.std.specs.Prelude.{◌≡◌, [], OnOk, IfErr, Err};
ghost use Rattle.outside_io.specs.Frames.{CountsWrites};
ghost use Rattle.line_service.specs.Service.{StepOf, StopsAt, standing};
ghost use Rattle.line_service.specs.Standing.{IsHandedOut, ServesFramed, ServesTo, StopsFramed};

use crate::ends::Stop;
use crate::server::LineServer;
use line_frame::{Framed, Framer};
use outside_io::Sink;

/// Serves the lines that wait, one after the other.
pub fn serve_each<L: LineServer, K: Sink>(
    server: &mut L,
    framer: &mut Framer,
    out: &mut K,
) -> Result<(), Stop>
    ensures serves { OnOk result
        (ServesTo (StepOf L.serves) framer.old (standing K.Sink server.old out.old) framer.new
        (standing K.Sink server.new out.new)) }
    ensures all { OnOk result (framer.new.waiting ≡ []) }
    ensures stops { IfErr result
        (λ stop. StopsAt L.serves L.stops stop
        (standing K.Sink server.old out.old) framer.old.waiting
        (standing K.Sink server.new out.new)) }
    ensures writes { CountsWrites K.Sink out.old out.new (result ≡ Err Stop.WriteFault) }
{
    while let Some(framed) = framer.next_line() {
        match serve_framed(server, framer, framed, out) {
            Ok(()) => {}
            Err(stop) => return Err(stop),
        }
    }
    Ok(())
}

// Serves the line that was handed out.
fn serve_framed<L: LineServer, K: Sink>(
    server: &mut L,
    framer: &Framer,
    framed: Framed,
    out: &mut K,
) -> Result<(), Stop>
    requires { IsHandedOut framed framer.now }
    ensures serves { OnOk result
        (ServesFramed L.serves framed framer.now (standing K.Sink server.old out.old)
        (standing K.Sink server.new out.new)) }
    ensures stops { IfErr result
        (λ stop. StopsFramed L.stops stop framed framer.now (standing K.Sink server.old out.old)
        (standing K.Sink server.new out.new)) }
    ensures writes { CountsWrites K.Sink out.old out.new (result ≡ Err Stop.WriteFault) }
{
    match framed {
        Framed::Line => server.serve_line(framer.line(), out),
        Framed::TooLong => server.serve_long(out),
    }
}

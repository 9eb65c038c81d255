// What serves lines.
ghost use Rattle.std.specs.Prelude.{◌≡◌, ℕ, ◌≤◌, List, [], length, Option, OnOk, IfErr, Err};
ghost use Rattle.line_frame.specs.Lines.{Line, Whole, TooLong, most_line_bytes};
ghost use Rattle.outside_io.specs.Frames.{CountsWrites};
ghost use Rattle.line_service.specs.declared.ends.Stop.{Stop};
ghost use Rattle.line_service.specs.Service.{StepOf, StopsAt, standing};
ghost use Rattle.line_service.specs.Standing.{ServesTo};

use crate::ends::Stop;
use line_frame::Framer;
use outside_io::Sink;

/// Serves one line after the other, and may write a reply to each.
pub trait LineServer {
    // What a line may make of the server and of what was written, where the service goes on.
    ghost serves: { Self → Line → Option (List ℕ) → Self → Option (List ℕ) → Type 0 };

    // The same where the service stops at the line.
    ghost stops: { Self → Line → Option (List ℕ) → Stop → Self → Option (List ℕ) → Type 0 };

    /// Serves a line.
    fn serve_line<K: Sink>(&mut self, line: &[u8], out: &mut K) -> Result<(), Stop>
        requires { length line.now ≤ most_line_bytes }
        ensures serves { OnOk result
            (Self.serves self.old (Whole line.now) (K.written out.old) self.new
            (K.written out.new)) }
        ensures stops { IfErr result
            (λ stop. Self.stops self.old (Whole line.now) (K.written out.old) stop self.new
            (K.written out.new)) }
        ensures writes { CountsWrites K.Sink out.old out.new (result ≡ Err Stop.WriteFault) };

    /// Serves a line of more bytes than a line may have.
    fn serve_long<K: Sink>(&mut self, out: &mut K) -> Result<(), Stop>
        ensures serves { OnOk result
            (Self.serves self.old TooLong (K.written out.old) self.new (K.written out.new)) }
        ensures stops { IfErr result
            (λ stop. Self.stops self.old TooLong (K.written out.old) stop self.new
            (K.written out.new)) }
        ensures writes { CountsWrites K.Sink out.old out.new (result ≡ Err Stop.WriteFault) };
}

/// Serves the lines that wait in a framer: each as [`LineServer`] serves it, and in order, though it may do for many at once what it
/// would do for each.
pub trait WaitingServer: LineServer {
    /// Serves the lines that wait, up to the first at which it stops. [`serve_each`](crate::serve_each) serves one after the other.
    fn serve_waiting<K: Sink>(&mut self, framer: &mut Framer, out: &mut K) -> Result<(), Stop>
        ensures serves { OnOk result
            (ServesTo (StepOf Self.serves) framer.old (standing K.Sink self.old out.old) framer.new
            (standing K.Sink self.new out.new)) }
        ensures all { OnOk result (framer.new.waiting ≡ []) }
        ensures stops { IfErr result
            (λ stop. StopsAt Self.serves Self.stops stop
            (standing K.Sink self.old out.old) framer.old.waiting
            (standing K.Sink self.new out.new)) }
        ensures writes { CountsWrites K.Sink out.old out.new (result ≡ Err Stop.WriteFault) };
}

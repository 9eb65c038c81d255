//! Scripts of which the replies to the first lines are not written.
ghost use Rattle.std.specs.Prelude.{◌≡◌};
ghost use Rattle.outside_io.specs.Faults.{Rose};
ghost use Rattle.outside_io.specs.Frames.{CountsReads, CountsWrites};
ghost use Rattle.shared_history.specs.Parts.{IsNewPass};
ghost use Rattle.carbon_script.specs.Alone.{IsOnly};
ghost use Rattle.carbon_script.specs.Behind.{EndsBehind, EndsBehindWith};
ghost use Rattle.carbon_script.specs.Script.{opening};
ghost use Rattle.carbon_script.specs.Sessions.{Means};

use crate::no_sink::NoSink;
use crate::serve::{ScriptEnd, Scripted, end_of, serve};
use crate::session::Session;
use line_service::{ServiceEnd, serve_lines};
use outside_io::{Disk, Sink, Source};
use shared_history::Pass;
use shared_store::{Named, Store};
use std::alloc::Global;
use std::sync::Wait;

/// Runs a script over a store, by the one pass of the store, as `script` does. Its input comes in two parts, each of whole lines: what the lines of
/// `front` say is not written, and what follows them is.
pub fn script_behind<R: Wait, D: Disk, N: Named, F: Source, S: Source, K: Sink>(
    rt: &R,
    alloc: Global,
    store: &Store<D, N>,
    pass: Pass,
    front: &mut F,
    input: &mut S,
    out: &mut K,
) -> Scripted
    requires alone { N.passes ≡ 1 }
    requires new { IsNewPass N.table 0 pass }
    ensures ends { EndsBehindWith N.told N.start result (F.left front.old) (S.left input.old)
        (K.written out.old) (S.left input.new) (K.written out.new) }
    ensures only { IsOnly N.table N.start result.pass }
    ensures reads { CountsReads S.Source input.old input.new
        ((result.end ≡ ScriptEnd.ReadFault)
        × (Rose (F.read_faults front.old) (F.read_faults front.new) → ⊥)) }
    ensures writes { CountsWrites K.Sink out.old out.new (result.end ≡ ScriptEnd.WriteFault) }
{
    let mut session = Session::new(rt, alloc, store, pass);
    let end = serve_behind(&mut session, alloc, front, input, out);
    Scripted {
        end,
        pass: session.into_pass(),
    }
}

fn serve_behind<R: Wait, D: Disk, N: Named, F: Source, S: Source, K: Sink>(
    session: &mut Session<'_, R, D, N>,
    alloc: Global,
    front: &mut F,
    input: &mut S,
    out: &mut K,
) -> ScriptEnd
    requires { Means N.start session.old (opening N.start) }
    ensures ends { EndsBehind N.told N.start result (F.left front.old) (S.left input.old)
        (K.written out.old) (S.left input.new) session.new (K.written out.new) }
    ensures reads { CountsReads S.Source input.old input.new
        ((result ≡ ScriptEnd.ReadFault)
        × (Rose (F.read_faults front.old) (F.read_faults front.new) → ⊥)) }
    ensures writes { CountsWrites K.Sink out.old out.new (result ≡ ScriptEnd.WriteFault) }
{
    let mut dropped = NoSink;
    match serve_lines(session, alloc, front, &mut dropped) {
        ServiceEnd::Closed => serve(session, alloc, input, out),
        ServiceEnd::ReadFault => ScriptEnd::ReadFault,
        ServiceEnd::Limit => ScriptEnd::InputLimit,
        ServiceEnd::NoMemory => ScriptEnd::NoMemory,
        ServiceEnd::Stopped(stop) => end_of(stop),
    }
}

//! Scripts, served to their end.
ghost use Rattle.std.specs.Prelude.{◌≡◌};
ghost use Rattle.outside_io.specs.Frames.{CountsReads, CountsWrites};
ghost use Rattle.shared_history.specs.Parts.{IsNewPass};
ghost use Rattle.carbon_script.specs.Alone.{IsOnly};
ghost use Rattle.carbon_script.specs.Ends.{end_of};
ghost use Rattle.carbon_script.specs.Script.{Machine};
ghost use Rattle.carbon_script.specs.Sessions.{EndsFrom, Means};
ghost use Rattle.carbon_script.specs.Scripts.{EndsWith};

use crate::session::Session;
use line_service::{ServiceEnd, Stop, serve_lines};
use outside_io::{Disk, Sink, Source};
use shared_history::Pass;
use shared_store::{Named, Store};
use std::alloc::Global;
use std::sync::Wait;

/// How a script ended.
#[derive(Clone, Copy, Debug, PartialEq, Eq)]
pub enum ScriptEnd {
    /// The input was read to its end, and the summary was written. The pass has room for another call.
    Done,
    /// A read failed, before as many bytes were taken as a script may have. All lines of what was taken were served.
    ReadFault,
    /// A write failed.
    WriteFault,
    /// The disk of this class failed in the drain of all that was pending at the end of the input.
    DiskFault(u32),
    /// As many bytes as a script may have were taken, and all their lines were served.
    InputLimit,
    /// The pass has no room for what a call may enter.
    Spent,
    /// Memory ran out.
    NoMemory,
}

/// A script that was served: how it ended, and its pass.
#[derive(Drop)]
pub struct Scripted {
    /// How it ended.
    pub end: ScriptEnd,
    /// The pass, which has made all entries of the script.
    pub pass: Pass,
}

/// Runs a script over a store, by the one pass of the store: serves the lines of the input in order, and at its end drains what is still
/// pending and writes the summary. What follows the last line feed is no line. A script that ends otherwise makes no such drain.
pub fn script<R: Wait, D: Disk, N: Named, S: Source, K: Sink>(
    rt: &R,
    alloc: Global,
    store: &Store<D, N>,
    pass: Pass,
    input: &mut S,
    out: &mut K,
) -> Scripted
    requires alone { N.passes ≡ 1 }
    requires new { IsNewPass N.table 0 pass }
    ensures ends { EndsWith N.told N.start result (S.left input.old) (K.written out.old)
        (S.left input.new) (K.written out.new) }
    ensures only { IsOnly N.table N.start result.pass }
    ensures reads { CountsReads S.Source input.old input.new (result.end ≡ ScriptEnd.ReadFault) }
    ensures writes { CountsWrites K.Sink out.old out.new (result.end ≡ ScriptEnd.WriteFault) }
{
    let mut session = Session::new(rt, alloc, store, pass);
    let end = serve(&mut session, alloc, input, out);
    Scripted {
        end,
        pass: session.into_pass(),
    }
}

// Serves the lines of the input and finishes the script, from whatever machine the session stands for.
pub(crate) fn serve<R: Wait, D: Disk, N: Named, S: Source, K: Sink>(
    session: &mut Session<'_, R, D, N>,
    alloc: Global,
    input: &mut S,
    out: &mut K,
) -> ScriptEnd
    ensures ends { (from : Machine) → Means N.start session.old from
        → EndsFrom N.told N.start from result (S.left input.old) (K.written out.old)
        (S.left input.new) session.new (K.written out.new) }
    ensures reads { CountsReads S.Source input.old input.new (result ≡ ScriptEnd.ReadFault) }
    ensures writes { CountsWrites K.Sink out.old out.new (result ≡ ScriptEnd.WriteFault) }
{
    match serve_lines(session, alloc, input, out) {
        ServiceEnd::Closed => match session.finish(out) {
            Ok(()) => ScriptEnd::Done,
            Err(stop) => end_of(stop),
        },
        ServiceEnd::ReadFault => ScriptEnd::ReadFault,
        ServiceEnd::Limit => ScriptEnd::InputLimit,
        ServiceEnd::NoMemory => ScriptEnd::NoMemory,
        ServiceEnd::Stopped(stop) => end_of(stop),
    }
}

/// The end that a stop is.
pub(crate) fn end_of(stop: Stop) -> ScriptEnd
    ensures { result ≡ end_of stop }
{
    match stop {
        Stop::WriteFault => ScriptEnd::WriteFault,
        Stop::DiskFault(class) => ScriptEnd::DiskFault(class),
        Stop::Spent => ScriptEnd::Spent,
        Stop::NoMemory => ScriptEnd::NoMemory,
    }
}

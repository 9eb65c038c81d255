//! Writing what a script says.
ghost use Rattle.std.specs.Prelude.{◌≡◌, Err};
ghost use Rattle.outside_io.specs.Frames.{CountsWrites};
ghost use Rattle.line_service.specs.declared.ends.Stop.TheVariants.{WriteFault};
ghost use Rattle.carbon_script.specs.Replies.{Says, SaysText};
ghost use Rattle.carbon_script.specs.Sessions.{AppendsSome};
ghost use Rattle.carbon_script.specs.Texts.{bad_command};

use crate::reply::{Reply, Shortage};
use line_service::Stop;
use outside_io::{Sink, write_all};

/// Writes a reply, if there is one.
pub fn say<K: Sink>(out: &mut K, reply: Result<Reply, Shortage>) -> Result<(), Stop>
    ensures says { Says reply result (K.written out.old) (K.written out.new) }
    ensures some { AppendsSome (K.written out.old) (K.written out.new) }
    ensures writes { CountsWrites K.Sink out.old out.new (result ≡ Err WriteFault) }
{
    match reply {
        Ok(reply) => say_text(out, reply.as_slice()),
        Err(Shortage::Room) => Err(Stop::Spent),
        Err(Shortage::Memory) => Err(Stop::NoMemory),
    }
}

/// Writes the reply to a line that says nothing known.
#[tactic(auto, unfolding(crate::specs::Texts::bad_command))]
pub fn refuse<K: Sink>(out: &mut K) -> Result<(), Stop>
    ensures says { SaysText bad_command result (K.written out.old) (K.written out.new) }
    ensures some { AppendsSome (K.written out.old) (K.written out.new) }
    ensures writes { CountsWrites K.Sink out.old out.new (result ≡ Err WriteFault) }
{
    say_text(out, b"bad command\n")
}

fn say_text<K: Sink>(out: &mut K, text: &[u8]) -> Result<(), Stop>
    ensures says { SaysText text.now result (K.written out.old) (K.written out.new) }
    ensures some { AppendsSome (K.written out.old) (K.written out.new) }
    ensures writes { CountsWrites K.Sink out.old out.new (result ≡ Err WriteFault) }
{
    match write_all(out, text) {
        Ok(()) => Ok(()),
        Err(_) => Err(Stop::WriteFault),
    }
}

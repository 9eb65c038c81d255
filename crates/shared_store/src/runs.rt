//! What is written of the drains of a class.
ghost use Rattle.std.specs.Prelude.{◌≡◌, if◌then◌else◌};
ghost use Rattle.shared_history.specs.Parts.{tail_ran, tail_settled};
ghost use Rattle.shared_store.specs.Tails.{Owes, OwesBegun, OwesRun, tail_begun, tail_wrote};

use shard_core::{Planned, Wrote};
use shared_history::{Tail, ran, settle};

/// A drain that was begun and has nothing to write is settled.
pub(crate) fn settle_begun(tail: &mut Tail, planned: &Planned, shelved: bool)
    requires { OwesBegun planned.now tail.old }
    ensures { tail.new ≡ tail_begun planned.now shelved tail.old }
{
    match planned {
        Planned::Took(_) => settle_unless(tail, shelved),
        Planned::Busy | Planned::Idle | Planned::DiskFault | Planned::NoMemory => {}
    }
}

fn settle_unless(tail: &mut Tail, shelved: bool)
    requires { Owes tail.old }
    ensures { tail.new ≡ if shelved then tail.old else tail_settled tail.old }
{
    if !shelved {
        settle(tail);
    }
}

/// A run that was written is counted, and with the last one of a drain the drain is settled.
pub(crate) fn count_run(tail: &mut Tail, wrote: Wrote)
    requires { OwesRun wrote tail.old }
    ensures { tail.new ≡ tail_wrote wrote tail.old }
{
    match wrote {
        Wrote::Run => ran(tail),
        Wrote::Finished => finish(tail),
        Wrote::Nothing | Wrote::DiskFault => {}
    }
}

fn finish(tail: &mut Tail)
    requires { Owes tail.old }
    ensures { tail.new ≡ tail_settled (tail_ran tail.old) }
{
    ran(tail);
    settle(tail);
}

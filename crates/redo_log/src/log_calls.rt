//! The calls of the disk that write the log and the gate.
ghost use Rattle.std.specs.Prelude.{◌≡◌, ◌≢◌, ◌∷◌, [], IfSome, IsErr, None, OnErr, OnOk, length};
ghost use Rattle.outside_io.specs.Crash.{Follows, OnlyKnown};
ghost use Rattle.outside_io.specs.Image.{ChangesOnly, Creates, IsWithinFile, SameImage, Tears, WhereKnown, Writes};
ghost use Rattle.ring_writer.specs.PartWritten.{AwaitsNext, CrashesNext, FailsNext, WritesNext};
ghost use Rattle.redo_log.specs.Body.{body_bytes};
ghost use Rattle.redo_log.specs.Steps.{gate_name, log_name};
ghost use Rattle.redo_log.specs.Frame.{GoesOn};

use crate::body::body_len;
use outside_io::{Disk, DiskFailed};
use ring_format::Patch;
use ring_writer::write_run;
use write_shelf::Shelf;

/// The name of the log.
pub const LOG_NAME: &str = "redo.log";

/// The name of the gate.
pub const GATE_NAME: &str = "redo.gate";

// Creates the log with the length of the body.
#[tactic(auto, unfolding(crate::specs::Steps::log_name))]
pub(crate) fn create_log<D: Disk>(disk: &mut D, patch: &Patch) -> Result<(), DiskFailed>
    ensures ok { OnOk result (WhereKnown (D.image disk.old) (D.image disk.new)
        (λ before after. Creates before after log_name (length (body_bytes patch.now)))) }
    ensures err { OnErr result (WhereKnown (D.image disk.old) (D.image disk.new)
        (λ before after. ChangesOnly before after log_name)) }
    ensures crash { Follows (λ before after. ChangesOnly before after log_name)
        (D.may_leave disk.old) (D.may_leave disk.new) }
    ensures frame { GoesOn D.Disk disk.old disk.new (IsErr result) }
{
    disk.create(LOG_NAME, body_len(patch))
}

// Writes a piece into the log.
#[tactic(auto, unfolding(crate::specs::Steps::log_name))]
pub(crate) fn write_log<D: Disk>(disk: &mut D, at: u64, piece: &[u8]) -> Result<(), DiskFailed>
    requires { IsWithinFile (D.image disk.old) log_name at (length piece.now) }
    ensures ok { OnOk result (WhereKnown (D.image disk.old) (D.image disk.new)
        (λ before after. Writes before after log_name at piece.now)) }
    ensures err { OnErr result (WhereKnown (D.image disk.old) (D.image disk.new)
        (λ before after. Tears before after log_name at (length piece.now))) }
    ensures crash { Follows (λ before after. Tears before after log_name at (length piece.now))
        (D.may_leave disk.old) (D.may_leave disk.new) }
    ensures frame { GoesOn D.Disk disk.old disk.new (IsErr result) }
{
    disk.write_at(LOG_NAME, at, piece)
}

// Sets the gate's byte.
#[tactic(auto, unfolding(crate::specs::Steps::gate_name))]
pub(crate) fn set_gate<D: Disk>(disk: &mut D, byte: u8) -> Result<(), DiskFailed>
    requires { IsWithinFile (D.image disk.old) gate_name 0 1 }
    ensures ok { OnOk result (WhereKnown (D.image disk.old) (D.image disk.new)
        (λ before after. Writes before after gate_name 0 (byte ∷ []))) }
    ensures err { OnErr result (WhereKnown (D.image disk.old) (D.image disk.new)
        (λ before after. Tears before after gate_name 0 1)) }
    ensures crash { Follows (λ before after. Tears before after gate_name 0 1)
        (D.may_leave disk.old) (D.may_leave disk.new) }
    ensures frame { GoesOn D.Disk disk.old disk.new (IsErr result) }
{
    disk.write_at(GATE_NAME, 0, &[byte])
}

// Brings to the device what was written.
pub(crate) fn sync_disk<D: Disk>(disk: &mut D) -> Result<(), DiskFailed>
    ensures durable { OnOk result (OnlyKnown (D.image disk.new) (D.may_leave disk.new)) }
    ensures kept { D.image disk.new ≡ D.image disk.old }
    ensures crash { Follows SameImage (D.may_leave disk.old) (D.may_leave disk.new) }
    ensures frame { GoesOn D.Disk disk.old disk.new (IsErr result) }
{
    disk.sync()
}

// Writes the next run of a shelf to the file of its patch.
pub(crate) fn write_next<D: Disk>(disk: &mut D, name: &str, shelf: &Shelf) -> Result<(), DiskFailed>
    requires some { shelf.now ≢ None }
    requires file { IfSome (D.image disk.old) (λ image. AwaitsNext shelf.now (image name.now)) }
    ensures ok { OnOk result (WhereKnown (D.image disk.old) (D.image disk.new)
        (WritesNext shelf.now name.now)) }
    ensures err { OnErr result (WhereKnown (D.image disk.old) (D.image disk.new)
        (FailsNext shelf.now name.now)) }
    ensures crash { Follows (CrashesNext shelf.now name.now)
        (D.may_leave disk.old) (D.may_leave disk.new) }
    ensures frame { GoesOn D.Disk disk.old disk.new (IsErr result) }
{
    write_run(disk, name, shelf)
}

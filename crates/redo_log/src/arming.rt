//! Making the files of the log.
ghost use Rattle.std.specs.Prelude.{◌≡◌, IfSome, IsErr, None, OnErr, OnOk, true};
ghost use Rattle.outside_io.specs.Crash.{Follows, LeavesOnly, OnlyKnown};
ghost use Rattle.outside_io.specs.Frames.{CountsFaults};
ghost use Rattle.outside_io.specs.Image.{ChangesOnly, Creates, WhereKnown};
ghost use Rattle.redo_log.specs.Arm.{ArmImage, ArmLeaves, HasNothing, IsShut, LeavesGate, LeavesWithin, MakesNothing, MayArm, MayChange, has_byte};
ghost use Rattle.redo_log.specs.Frame.{LooksOnly};
ghost use Rattle.redo_log.specs.Rows.{InRow};
ghost use Rattle.redo_log.specs.Steps.{gate_name};

use crate::log_calls::{GATE_NAME, LOG_NAME};
use crate::looking::has_gate;
use crate::numbers::NUMBERS_BYTES;
use outside_io::{Disk, DiskFailed};

/// Makes the log of nothing, and then a closed gate, where there is no gate or an empty one. The gate has to be
/// closed. No memory is taken.
pub fn arm<D: Disk>(disk: &mut D) -> Result<(), DiskFailed>
    requires shut { IfSome (D.image disk.old) (λ image. IsShut (image gate_name)) }
    ensures image { ArmImage result (D.image disk.old) (D.image disk.new) }

    // Where there is a gate, nothing is written.
    ensures kept { IfSome (D.image disk.old) (λ image. has_byte (image gate_name) ≡ true
        → LooksOnly D.Disk disk.old disk.new (IsErr result)) }
    ensures made { OnOk result (WhereKnown (D.image disk.old) (D.image disk.new) MakesNothing) }

    // What a crash behind it leaves, also where not all that had been written was on the device.
    ensures behind { OnOk result (LeavesGate (D.image disk.old) (D.may_leave disk.old)
        → InRow None (D.image disk.new) (D.may_leave disk.new)) }

    // What one behind it leaves, and at each moment of it.
    ensures leaves { MayArm (D.image disk.old) (D.may_leave disk.old)
        → ArmLeaves result (D.image disk.old) (D.image disk.new) (D.may_leave disk.new) }
    ensures moments { MayArm (D.image disk.old) (D.may_leave disk.old)
        → LeavesOnly D.moment D.left_since disk.old disk.new (LeavesWithin (D.image disk.old)) }
    ensures frame { CountsFaults D.Disk disk.old disk.new (IsErr result) }
{
    match has_gate(disk) {
        Ok(true) => return Ok(()),
        Ok(false) => {}
        Err(fault) => return Err(fault),
    }
    match make_files(disk) {
        Ok(()) => return Ok(()),
        Err(fault) => return Err(fault),
    }
}

// Makes both files.
#[tactic(auto, unfolding(crate::specs::Steps::gate_name, crate::specs::Steps::log_name))]
fn make_files<D: Disk>(disk: &mut D) -> Result<(), DiskFailed>
    requires shut { IfSome (D.image disk.old) (λ image. IsShut (image gate_name)) }
    ensures image { ArmImage result (D.image disk.old) (D.image disk.new) }
    ensures made { OnOk result (WhereKnown (D.image disk.old) (D.image disk.new)
        (λ before after. HasNothing after)) }
    ensures behind { OnOk result (InRow None (D.image disk.new) (D.may_leave disk.new)) }
    ensures leaves { OnlyKnown (D.image disk.old) (D.may_leave disk.old)
        → ArmLeaves result (D.image disk.old) (D.image disk.new) (D.may_leave disk.new) }
    ensures moments { OnlyKnown (D.image disk.old) (D.may_leave disk.old)
        → LeavesOnly D.moment D.left_since disk.old disk.new (LeavesWithin (D.image disk.old)) }
    ensures frame { CountsFaults D.Disk disk.old disk.new (IsErr result) }
{
    match make_file(disk, LOG_NAME, NUMBERS_BYTES as u64) {
        Ok(()) => {}
        Err(fault) => return Err(fault),
    }
    match make_file(disk, GATE_NAME, 1) {
        Ok(()) => return Ok(()),
        Err(fault) => return Err(fault),
    }
}

// Creates a file, and brings it to the device.
fn make_file<D: Disk>(disk: &mut D, name: &str, len: u64) -> Result<(), DiskFailed>
    ensures ok { OnOk result (WhereKnown (D.image disk.old) (D.image disk.new)
        (λ before after. Creates before after name.now len)) }
    ensures err { OnErr result (WhereKnown (D.image disk.old) (D.image disk.new)
        (λ before after. ChangesOnly before after name.now)) }
    ensures durable { OnOk result (OnlyKnown (D.image disk.new) (D.may_leave disk.new)) }
    ensures crash { OnErr result (Follows (λ before after. ChangesOnly before after name.now)
        (D.may_leave disk.old) (D.may_leave disk.new)) }
    ensures moments { LeavesOnly D.moment D.left_since disk.old disk.new
        (MayChange (D.may_leave disk.old) name.now) }
    ensures frame { CountsFaults D.Disk disk.old disk.new (IsErr result) }
{
    match disk.create(name, len) {
        Ok(()) => {}
        Err(fault) => return Err(fault),
    }
    disk.sync()
}

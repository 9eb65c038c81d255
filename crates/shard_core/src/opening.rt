//! Opening the disk of a class.
ghost use Rattle.std.specs.Prelude.{◌≡◌, ◌⊎◌, IfErr, IfOk, IfSome, IsErr, IsErrAnd, IsOk, None, OnErr, OnOk, false, is_ok, true};
ghost use Rattle.outside_io.specs.Crash.{LeavesOnly};
ghost use Rattle.outside_io.specs.Frames.{CountsFaults};
ghost use Rattle.outside_io.specs.Image.{WhereKnown};
ghost use Rattle.redo_log.specs.Arm.{IsShut, LeavesGate, LeavesNothing, LeavesWithin, MakesNothing, MayArm, has_byte};
ghost use Rattle.redo_log.specs.Recovery.{RecoverCrashes, Recovers};
ghost use Rattle.redo_log.specs.Rows.{InRow, KeepsRings};
ghost use Rattle.redo_log.specs.Steps.{gate_name, log_name};
ghost use Rattle.shard_core.specs.Opened.{IsOpened};
ghost use Rattle.shard_core.specs.Opening.{IsLogRefused, OpensDisk, RefusesDisk};
ghost use Rattle.shard_core.specs.StartCrashes.{HadGate, StartCrashes};
ghost use Rattle.shard_core.specs.StartFaults.{IsDiskFault};
ghost use Rattle.shard_core.specs.Starting.{OnDamaged};
ghost use Rattle.shard_core.specs.Work.{HoldsLog, no_work};

use crate::fault::StartFault;
use crate::starting::read_table;
use metric_table::MetricTable;
use outside_io::{Disk, DiskFailed};
use redo_log::{LOG_NAME, RedoFault, arm, recover};
use std::alloc::Global;

/// Lays what an open gate holds, reads the heads of the files of the class, and makes the log where
/// drains are to go through it.
pub(crate) fn open_disk<D: Disk>(
    alloc: Global,
    disk: &mut D,
    class: u32,
    is_logged: bool,
) -> Result<MetricTable, StartFault>
    ensures opens { IfOk result
        (OpensDisk class is_logged (D.image disk.old) (D.image disk.new)) }
    ensures opened { IfOk result (IsOpened class) }
    ensures refused { IfErr result
        (λ fault. RefusesDisk fault class (D.image disk.old) (D.image disk.new)) }
    ensures crash { StartCrashes D.Disk is_logged disk.old disk.new (is_ok result) }
    ensures frame { CountsFaults D.Disk disk.old disk.new (IsErrAnd result IsDiskFault) }
{
    match lay_log(alloc, disk) {
        Ok(()) => {}
        Err(fault) => return Err(fault),
    }
    let table = match read_table(alloc, disk, class) {
        Ok(table) => table,
        Err(fault) => return Err(fault),
    };
    match make_log(disk, is_logged) {
        Ok(()) => return Ok(table),
        Err(DiskFailed) => return Err(StartFault::DiskFault),
    }
}

// Lays what an open gate holds.
fn lay_log<D: Disk>(alloc: Global, disk: &mut D) -> Result<(), StartFault>
    ensures laid { OnOk result (WhereKnown (D.image disk.old) (D.image disk.new) Recovers) }
    ensures refused { IfErr result
        (λ fault. IsLogRefused fault (D.image disk.old) (D.image disk.new)) }
    ensures crash { RecoverCrashes D.Disk disk.old disk.new (IsOk result) }
    ensures frame { CountsFaults D.Disk disk.old disk.new (IsErrAnd result IsDiskFault) }
{
    match recover(alloc, disk) {
        Ok(()) => return Ok(()),
        Err(RedoFault::Damaged) => return Err(damaged_log(alloc)),
        Err(RedoFault::DiskFault) => return Err(StartFault::DiskFault),
        Err(RedoFault::NoMemory) => return Err(StartFault::NoMemory),
    }
}

// The fault of a damaged log.
#[tactic(auto, unfolding(redo_log::specs::Steps::log_name))]
fn damaged_log(alloc: Global) -> StartFault
    ensures named { OnDamaged result (λ name. name ≡ log_name) }
    ensures sound { IsDiskFault result → ⊥ }
{
    match String::from_str(alloc, LOG_NAME) {
        Ok(name) => StartFault::Damaged(name),
        Err(_) => StartFault::NoMemory,
    }
}

// Makes the log, where drains are to go through it.
fn make_log<D: Disk>(disk: &mut D, is_logged: bool) -> Result<(), DiskFailed>
    requires shut { IfSome (D.image disk.old) (λ image. IsShut (image gate_name)) }
    ensures rings { OnOk result (WhereKnown (D.image disk.old) (D.image disk.new) KeepsRings) }
    ensures left { OnErr result (WhereKnown (D.image disk.old) (D.image disk.new) LeavesNothing) }
    ensures log { OnOk result (HoldsLog (no_work is_logged).log (D.image disk.new)) }
    ensures bare { is_logged ≡ false → D.image disk.new ≡ D.image disk.old }
    ensures kept { IfSome (D.image disk.old) (λ image. has_byte (image gate_name) ≡ true
        → D.image disk.new ≡ D.image disk.old) }
    ensures made { OnOk result (is_logged ≡ true
        → WhereKnown (D.image disk.old) (D.image disk.new) MakesNothing) }
    ensures behind { OnOk result ((is_logged ≡ true) ⊎ HadGate (D.image disk.old)
        → LeavesGate (D.image disk.old) (D.may_leave disk.old)
        → InRow None (D.image disk.new) (D.may_leave disk.new)) }
    ensures moments { MayArm (D.image disk.old) (D.may_leave disk.old)
        → LeavesOnly D.moment D.left_since disk.old disk.new (LeavesWithin (D.image disk.old)) }
    ensures frame { CountsFaults D.Disk disk.old disk.new (IsErr result) }
{
    if !is_logged {
        return Ok(());
    }
    match arm(disk) {
        Ok(()) => return Ok(()),
        Err(fault) => return Err(fault),
    }
}

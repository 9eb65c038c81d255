//! Laying what an open gate holds.
ghost use Rattle.std.specs.Prelude.{◌≡◌, ◌≢◌, ◌↔◌, All, IfOk, IfSome, IsErr, IsErrOf, IsOk, IsTrue, None, OnOk, Option, Some};
ghost use Rattle.outside_io.specs.Crash.{LeavesOnly, OnlyKnown};
ghost use Rattle.outside_io.specs.Frames.{CountsFaults};
ghost use Rattle.metric_path.specs.FileName.{file_name_of};
ghost use Rattle.ring_format.specs.Patch.{PatchValue};
ghost use Rattle.redo_log.specs.Body.{Fits};
ghost use Rattle.redo_log.specs.Frame.{LooksOnly};
ghost use Rattle.redo_log.specs.Recovery.{HasRing, Holds, IsBehindGate, IsDamaged, IsFound, IsHeldBy, IsSettled, LayEnds, OpensAs, RecoverCrashes, RecoverEnds, resumed};
ghost use Rattle.redo_log.specs.Rows.{InRow};
ghost use Rattle.redo_log.specs.declared.redo_fault.RedoFault.TheVariants.{Damaged, DiskFault};

use crate::log_calls::{set_gate, sync_disk};
use crate::looking::{has_ring, is_gate_open, read_log};
use crate::reading::{BodyFault, read_body};
use crate::redo::Redo;
use crate::redo_fault::RedoFault;
use crate::redo_step::RedoStep;
use outside_io::{Disk, DiskFailed};
use ring_format::Patch;
use std::alloc::Global;

/// Lays the patch that the log holds behind an open gate, and closes the gate; with a closed one nothing is
/// written. What is read of them is brought to the device first, since an earlier process may have left it
/// unsynced. A crash at any moment leaves what the next start makes the same of.
pub fn recover<D: Disk>(alloc: Global, disk: &mut D) -> Result<(), RedoFault>
    ensures ends { RecoverEnds result (D.image disk.old) (D.image disk.new) }
    ensures damaged { IsErrOf result Damaged → IfSome (D.image disk.old) IsDamaged }
    ensures kept { IsErrOf result Damaged → D.image disk.new ≡ D.image disk.old }
    ensures crash { RecoverCrashes D.Disk disk.old disk.new (IsOk result) }
    ensures frame { CountsFaults D.Disk disk.old disk.new (IsErrOf result DiskFault) }
{
    let redo = match find_redo(alloc, disk) {
        Ok(Some(redo)) => redo,
        Ok(None) => return Ok(()),
        Err(fault) => return Err(fault),
    };
    match lay(disk, redo) {
        Ok(()) => return Ok(()),
        Err(DiskFailed) => return Err(RedoFault::DiskFault),
    }
}

// The redo of what an open gate holds, or none where the gate is not open.
fn find_redo<D: Disk>(alloc: Global, disk: &mut D) -> Result<Option<Redo>, RedoFault>
    ensures found { IfOk result (IsFound (D.image disk.old)) }
    ensures damaged { IsErrOf result Damaged → IfSome (D.image disk.old) IsDamaged }
    ensures settled { OnOk result (IsSettled (D.image disk.old) (D.may_leave disk.new)) }
    ensures frame { LooksOnly D.Disk disk.old disk.new (IsErrOf result DiskFault) }
{
    match is_gate_open(disk) {
        Ok(true) => {}
        Ok(false) => return Ok(None),
        Err(DiskFailed) => return Err(RedoFault::DiskFault),
    }
    match held_redo(alloc, disk) {
        Ok(redo) => return Ok(Some(redo)),
        Err(fault) => return Err(fault),
    }
}

// The redo of what the log holds.
fn held_redo<D: Disk>(alloc: Global, disk: &mut D) -> Result<Redo, RedoFault>
    ensures held { IfOk result (IsHeldBy (D.image disk.old)) }
    ensures damaged { IsErrOf result Damaged → IfSome (D.image disk.old)
        (λ image. (patch : Option PatchValue) → Holds patch image → ⊥) }
    ensures frame { LooksOnly D.Disk disk.old disk.new (IsErrOf result DiskFault) }
{
    let bytes = match read_log(alloc, disk) {
        Ok(bytes) => bytes,
        Err(fault) => return Err(fault),
    };
    match read_body(alloc, &bytes) {
        Ok(Some(patch)) => return redo_of(disk, patch),
        Ok(None) => return Ok(Redo::empty()),
        Err(BodyFault::Damaged) => return Err(RedoFault::Damaged),
        Err(BodyFault::NoMemory) => return Err(RedoFault::NoMemory),
    }
}

// The redo of a patch that is to be laid.
fn redo_of<D: Disk>(disk: &mut D, patch: Patch) -> Result<Redo, RedoFault>
    requires { All Fits patch.cells }
    ensures value { IfOk result (λ redo. redo ≡ resumed (Some patch)) }
    ensures ring { OnOk result (IfSome (D.image disk.old) (HasRing patch)) }
    ensures damaged { IsErrOf result Damaged
        → IfSome (D.image disk.old) (λ image. HasRing patch image → ⊥) }
    ensures frame { LooksOnly D.Disk disk.old disk.new (IsErrOf result DiskFault) }
{
    let name = match patch.path().file_name() {
        Ok(name) => name,
        Err(_) => return Err(RedoFault::NoMemory),
    };
    match is_there(disk, name.as_str(), &patch) {
        Ok(true) => return Ok(Redo::behind_gate(patch, name)),
        Ok(false) => return Err(RedoFault::Damaged),
        Err(DiskFailed) => return Err(RedoFault::DiskFault),
    }
}

// Whether the file of a patch is there, or to be created.
fn is_there<D: Disk>(disk: &mut D, name: &str, patch: &Patch) -> Result<bool, DiskFailed>
    requires named { name.now ≡ file_name_of patch.now.path }
    ensures value { IfOk result (λ there. IfSome (D.image disk.old)
        (λ image. IsTrue there ↔ HasRing patch.now image)) }
    ensures frame { LooksOnly D.Disk disk.old disk.new (IsErr result) }
{
    if patch.fresh() {
        return Ok(true);
    }
    has_ring(disk, name, &patch.layout())
}

// Lays it, and closes the gate.
fn lay<D: Disk>(disk: &mut D, redo: Redo) -> Result<(), DiskFailed>
    requires held { IsBehindGate (D.image disk.old) redo }
    requires settled { OnlyKnown (D.image disk.old) (D.may_leave disk.old) }
    ensures ends { LayEnds result (D.image disk.old) (D.image disk.new) }
    ensures row { OnOk result (InRow None (D.image disk.new) (D.may_leave disk.new)) }
    ensures leaves { LeavesOnly D.moment D.left_since disk.old disk.new
        (λ left. IfSome (D.image disk.old) (λ before. OpensAs before left)) }
    ensures frame { CountsFaults D.Disk disk.old disk.new (IsErr result) }
{
    if redo.is_empty() {
        return close_gate(disk);
    }
    take_all(disk, redo)
}

// Closes the gate before which there is nothing to lay.
fn close_gate<D: Disk>(disk: &mut D) -> Result<(), DiskFailed>
    requires held { IsBehindGate (D.image disk.old) None }
    requires settled { OnlyKnown (D.image disk.old) (D.may_leave disk.old) }
    ensures ends { LayEnds result (D.image disk.old) (D.image disk.new) }
    ensures row { OnOk result (InRow None (D.image disk.new) (D.may_leave disk.new)) }
    ensures leaves { LeavesOnly D.moment D.left_since disk.old disk.new
        (λ left. IfSome (D.image disk.old) (λ before. OpensAs before left)) }
    ensures frame { CountsFaults D.Disk disk.old disk.new (IsErr result) }
{
    match set_gate(disk, 0) {
        Ok(()) => {}
        Err(fault) => return Err(fault),
    }
    match sync_disk(disk) {
        Ok(()) => return Ok(()),
        Err(fault) => return Err(fault),
    }
}

// Takes the steps of a redo behind an open gate to the end.
fn take_all<D: Disk>(disk: &mut D, redo: Redo) -> Result<(), DiskFailed>
    requires some { redo ≢ None }
    requires held { IsBehindGate (D.image disk.old) redo }
    requires settled { OnlyKnown (D.image disk.old) (D.may_leave disk.old) }
    ensures ends { LayEnds result (D.image disk.old) (D.image disk.new) }
    ensures row { OnOk result (InRow None (D.image disk.new) (D.may_leave disk.new)) }
    ensures leaves { LeavesOnly D.moment D.left_since disk.old disk.new
        (λ left. IfSome (D.image disk.old) (λ before. OpensAs before left)) }
    ensures frame { CountsFaults D.Disk disk.old disk.new (IsErr result) }
{
    let mut redo = redo;
    loop {
        match redo.step(disk) {
            RedoStep::Run => {}
            RedoStep::Finished => return Ok(()),
            RedoStep::Nothing => unreachable!(),
            RedoStep::DiskFault => return Err(DiskFailed),
        }
    }
}

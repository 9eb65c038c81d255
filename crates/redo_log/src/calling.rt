//! The call of the disk that each step makes.
ghost use Rattle.std.specs.Prelude.{◌≡◌, ◌≢◌, All, IfSome, IsErr, None};
ghost use Rattle.redo_log.specs.Body.{Fits, IsSound};
ghost use Rattle.redo_log.specs.Rows.{KeepsRow};
ghost use Rattle.redo_log.specs.Steps.{HasWritten, IsGateStep, IsNamed, IsReady, IsSyncStep, StepEnds, behind_cells, behind_run, on_way};
ghost use Rattle.redo_log.specs.declared.next_step.NextStep.TheVariants.{CreateLog, FirstPiece, Piece, Run};
ghost use Rattle.write_shelf.specs.Shelf.{IsRunOf, OfNext};
ghost use Rattle.redo_log.specs.Frame.{GoesOn};

use crate::body::{ENTRY_BYTES, PIECE_BYTES, cells_are_few, leading_len};
use crate::last_run::is_last;
use crate::log_calls::{create_log, set_gate, sync_disk, write_log, write_next};
use crate::next_step::NextStep;
use crate::piece::{put_first_piece, put_next_piece};
use outside_io::{Disk, DiskFailed};
use ring_format::Patch;
use write_shelf::Shelf;

// The patch of a shelf with one.
pub(crate) fn patch_of(shelf: &Shelf) -> &Patch
    requires { shelf.now ≢ None }
    ensures { IfSome shelf.now (λ drain. result.now ≡ drain.patch) }
{
    let Some(patch) = shelf.patch() else {
        unreachable!()
    };
    patch
}

// Creates the log.
pub(crate) fn create_step<D: Disk>(
    disk: &mut D,
    shelf: &Shelf,
    name: &str,
) -> Result<Option<NextStep>, DiskFailed>
    requires some { shelf.now ≢ None }
    requires named { IsNamed shelf.now name.now }
    requires ready { IfSome (D.image disk.old)
        (IsReady (on_way shelf.now name.now CreateLog)) }
    ensures ends { StepEnds (on_way shelf.now name.now CreateLog) result
        (D.image disk.old) (D.image disk.new) }
    ensures row { KeepsRow (on_way shelf.now name.now CreateLog) result (D.image disk.old)
        (D.image disk.new) (D.may_leave disk.old) (D.may_leave disk.new) }
    ensures frame { GoesOn D.Disk disk.old disk.new (IsErr result) }
{
    let _ = name;
    match create_log(disk, patch_of(shelf)) {
        Ok(()) => Ok(Some(NextStep::FirstPiece)),
        Err(fault) => Err(fault),
    }
}

// The step behind a piece.
fn behind_cells(patch: &Patch, written: usize) -> NextStep
    ensures { result ≡ behind_cells patch.now written }
{
    if written == patch.cell_count() {
        return NextStep::SyncBody;
    }
    NextStep::Piece { written }
}

// Writes the first piece of the body, and answers the step behind it.
pub(crate) fn first_piece_step<D: Disk>(
    disk: &mut D,
    shelf: &Shelf,
    name: &str,
) -> Result<Option<NextStep>, DiskFailed>
    requires some { shelf.now ≢ None }
    requires named { IsNamed shelf.now name.now }
    requires ready { IfSome (D.image disk.old)
        (IsReady (on_way shelf.now name.now FirstPiece)) }
    ensures ends { StepEnds (on_way shelf.now name.now FirstPiece) result
        (D.image disk.old) (D.image disk.new) }
    ensures row { KeepsRow (on_way shelf.now name.now FirstPiece) result (D.image disk.old)
        (D.image disk.new) (D.may_leave disk.old) (D.may_leave disk.new) }
    ensures frame { GoesOn D.Disk disk.old disk.new (IsErr result) }
{
    let _ = name;
    let patch = patch_of(shelf);
    let mut bytes = [0; PIECE_BYTES];
    let piece = put_first_piece(patch, &mut bytes);
    match write_log(disk, 0, &bytes[..piece.len]) {
        Ok(()) => Ok(Some(behind_cells(patch, piece.cells))),
        Err(fault) => Err(fault),
    }
}

// Writes a later piece, behind so many cells, and answers the step behind it.
pub(crate) fn next_piece_step<D: Disk>(
    disk: &mut D,
    shelf: &Shelf,
    name: &str,
    written: usize,
) -> Result<Option<NextStep>, DiskFailed>
    requires some { shelf.now ≢ None }
    requires named { IsNamed shelf.now name.now }
    requires written { IfSome shelf.now (λ drain. HasWritten drain.patch (Piece written)) }
    requires ready { IfSome (D.image disk.old)
        (IsReady (on_way shelf.now name.now (Piece written))) }
    ensures ends { StepEnds (on_way shelf.now name.now (Piece written)) result
        (D.image disk.old) (D.image disk.new) }
    ensures row { KeepsRow (on_way shelf.now name.now (Piece written)) result (D.image disk.old)
        (D.image disk.new) (D.may_leave disk.old) (D.may_leave disk.new) }
    ensures frame { GoesOn D.Disk disk.old disk.new (IsErr result) }
{
    let _ = name;
    let patch = patch_of(shelf);
    cells_are_few(patch);
    let mut bytes = [0; PIECE_BYTES];
    let at = leading_len(patch) + ENTRY_BYTES * written;
    let piece = put_next_piece(patch, written, &mut bytes);
    match write_log(disk, at as u64, &bytes[..piece.len]) {
        Ok(()) => Ok(Some(behind_cells(patch, written + piece.cells))),
        Err(fault) => Err(fault),
    }
}

// A patch whose cells fit is one that a body may have. The function does nothing: what it ensures
// is the law.
fn is_sound(patch: &Patch)
    requires { All Fits patch.now.cells }
    ensures { IsSound patch.now }
{
    let _ = patch.cells();
    let _ = patch.path().text();
    let _ = patch.layout().archives();
}

// Brings to the device what a step before wrote.
pub(crate) fn sync_step<D: Disk>(
    disk: &mut D,
    shelf: &Shelf,
    name: &str,
    now: NextStep,
    behind: Option<NextStep>,
) -> Result<Option<NextStep>, DiskFailed>
    requires some { shelf.now ≢ None }
    requires named { IsNamed shelf.now name.now }
    requires step { IsSyncStep now behind }
    requires written { IfSome shelf.now (λ drain. HasWritten drain.patch now) }
    requires ready { IfSome (D.image disk.old) (IsReady (on_way shelf.now name.now now)) }
    ensures ends { StepEnds (on_way shelf.now name.now now) result
        (D.image disk.old) (D.image disk.new) }
    ensures row { KeepsRow (on_way shelf.now name.now now) result (D.image disk.old)
        (D.image disk.new) (D.may_leave disk.old) (D.may_leave disk.new) }
    ensures frame { GoesOn D.Disk disk.old disk.new (IsErr result) }
{
    let _ = name;
    let _ = now;
    is_sound(patch_of(shelf));
    match sync_disk(disk) {
        Ok(()) => Ok(behind),
        Err(fault) => Err(fault),
    }
}

// Sets the gate's byte.
pub(crate) fn gate_step<D: Disk>(
    disk: &mut D,
    shelf: &Shelf,
    name: &str,
    byte: u8,
    now: NextStep,
    behind: Option<NextStep>,
) -> Result<Option<NextStep>, DiskFailed>
    requires named { IsNamed shelf.now name.now }
    requires some { shelf.now ≢ None }
    requires step { IsGateStep byte now behind }
    requires written { IfSome shelf.now (λ drain. HasWritten drain.patch now) }
    requires ready { IfSome (D.image disk.old) (IsReady (on_way shelf.now name.now now)) }
    ensures ends { StepEnds (on_way shelf.now name.now now) result
        (D.image disk.old) (D.image disk.new) }
    ensures row { KeepsRow (on_way shelf.now name.now now) result (D.image disk.old)
        (D.image disk.new) (D.may_leave disk.old) (D.may_leave disk.new) }
    ensures frame { GoesOn D.Disk disk.old disk.new (IsErr result) }
{
    let _ = shelf;
    let _ = name;
    let _ = now;
    match set_gate(disk, byte) {
        Ok(()) => Ok(behind),
        Err(fault) => Err(fault),
    }
}

// Writes the next run to the file, and answers the step behind it.
pub(crate) fn run_step<D: Disk>(
    disk: &mut D,
    shelf: &Shelf,
    name: &str,
) -> Result<Option<NextStep>, DiskFailed>
    requires some { shelf.now ≢ None }
    requires named { IsNamed shelf.now name.now }
    requires written { IfSome shelf.now (λ drain. HasWritten drain.patch Run) }
    requires ready { IfSome (D.image disk.old) (IsReady (on_way shelf.now name.now Run)) }
    ensures ends { StepEnds (on_way shelf.now name.now Run) result
        (D.image disk.old) (D.image disk.new) }
    ensures row { KeepsRow (on_way shelf.now name.now Run) result (D.image disk.old)
        (D.image disk.new) (D.may_leave disk.old) (D.may_leave disk.new) }
    ensures frame { GoesOn D.Disk disk.old disk.new (IsErr result) }
{
    let next = behind_run(shelf);
    match write_next(disk, name, shelf) {
        Ok(()) => Ok(Some(next)),
        Err(fault) => Err(fault),
    }
}

// The step behind a run.
fn behind_run(shelf: &Shelf) -> NextStep
    requires { shelf.now ≢ None }
    ensures next { IfSome shelf.now (λ drain. result ≡ behind_run drain) }
    ensures sound { OfNext shelf.now IsRunOf }
{
    if is_last(shelf) {
        return NextStep::SyncRuns;
    }
    NextStep::Run
}

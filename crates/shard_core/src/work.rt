//! The drain that is being written.
ghost use Rattle.std.specs.Prelude.{◌≡◌, ◌<◌, IfSome, None, length, option_map, string_bytes};
ghost use Rattle.outside_io.specs.Frames.{CountsFaults};
ghost use Rattle.metric_path.specs.FileName.{file_name_of};
ghost use Rattle.write_shelf.specs.Runs.{runs_of};
ghost use Rattle.write_shelf.specs.Shelf.{drain_with};
ghost use Rattle.redo_log.specs.Count.{steps_left};
ghost use Rattle.redo_log.specs.Ends.{redo_with};
ghost use Rattle.redo_log.specs.Frame.{GoesOn, StaysInRows};
ghost use Rattle.redo_log.specs.Rows.{InRow};
ghost use Rattle.redo_log.specs.Steps.{IsReady};
ghost use Rattle.shard_core.specs.Shard.{patch_on};
ghost use Rattle.shard_core.specs.Work.{AwaitsRuns, GoesStraight, GoesThrough, HoldsLog, StaysInRow, WorkGoes, drain_of, no_work, step_of, work_of};

use crate::planned::Wrote;
use outside_io::{Disk, DiskFailed};
use redo_log::{Redo, RedoStep};
use ring_format::Patch;
use ring_writer::write_run;
use std::marker::Model;
use write_shelf::Shelf;

/// The drain that is being written. Where there is a redo it goes through that, one step of it after the other,
/// and the shelf stays empty; else its runs go straight to its file.
#[derive(Drop)]
pub struct Work {
    shelf: Shelf,
    // The name of the file that is being written.
    name: Option<String>,
    redo: Option<Redo>,
}

impl Model for Work {
    ghost use Rattle.std.specs.Prelude.{◌≡◌, option_map, string_bytes};
    ghost use Rattle.metric_path.specs.FileName.{file_name_of};
    ghost use Rattle.shard_core.specs.Work.{WorkValue, work_of};

    ghost Value = { WorkValue };

    ghost view = { λ w. work_of w.shelf w.redo };

    ghost invariant = { λ w. option_map string_bytes w.name
        ≡ option_map (λ drain. file_name_of drain.patch.path) w.shelf };
}

impl Work {
    /// Nothing is being written. Drains go through the log where that is said.
    pub(crate) fn none(is_logged: bool) -> Work
        ensures { result ≡ no_work is_logged }
    {
        if is_logged {
            return Work::of(Some(Redo::empty()));
        }
        Work::of(None)
    }

    // An empty shelf, and this redo.
    fn of(redo: Option<Redo>) -> Work
        ensures { result ≡ work_of None redo }
    {
        Work {
            shelf: Shelf::empty(),
            name: None,
            redo,
        }
    }

    /// The patch that is being written, or `None` where none is.
    #[tactic(auto, using(crate::proofs::WorkLemmas::patch_of, crate::proofs::WorkLemmas::none_going))]
    pub(crate) fn patch(&self) -> Option<&Patch>
        ensures value { option_map (λ patch. patch.now) result ≡ patch_on self.now.shelf }
        ensures empty { self.now.shelf ≡ None → IfSome self.now.log (λ redo. redo ≡ None) }
    {
        match &self.redo {
            Some(redo) => return redo.patch(),
            None => return self.shelf.patch(),
        }
    }

    /// Puts a patch, with the name of its file, where none is being written, with all its runs to be written. One
    /// without runs leaves it so.
    #[tactic(auto, using(crate::proofs::WorkLemmas::put_logged, crate::proofs::WorkLemmas::put_few))]
    pub(crate) fn put(&mut self, patch: Patch, name: String)
        requires empty { self.old.shelf ≡ None }
        requires named { string_bytes name ≡ file_name_of patch.path }
        ensures shelf { self.new.shelf ≡ drain_with patch (runs_of patch) }
        ensures runs { length (runs_of patch) < 5000000 }
        ensures steps { self.new.steps < 5000000 }
        ensures was { IfSome self.old.log (λ redo. redo ≡ None) }
        ensures log { self.new.log ≡ option_map
            (λ redo. redo_with patch (string_bytes name) (runs_of patch)) self.old.log }
    {
        let Some(redo) = &mut self.redo else {
            put_straight(&mut self.shelf, &mut self.name, patch, name);
            return;
        };
        put_through(redo, patch, name);
    }

    /// Takes the next step: writes the next run, or goes on through the log, in one call of the disk. No memory is
    /// taken. After a failed call the step may be taken again.
    #[tactic(auto, using(crate::proofs::WorkLemmas::goes_straight, crate::proofs::WorkLemmas::goes_logged))]
    pub(crate) fn step<D: Disk>(&mut self, disk: &mut D) -> Wrote
        requires runs { IfSome (D.image disk.old) (AwaitsRuns self.old.shelf) }
        requires log { HoldsLog self.old.log (D.image disk.old) }
        ensures goes { WorkGoes result self.old self.new (D.image disk.old) (D.image disk.new) }
        ensures rows { StaysInRow D.Disk self.old.log self.new.log disk.old disk.new }
        ensures frame { CountsFaults D.Disk disk.old disk.new (result ≡ Wrote.DiskFault) }
    {
        match &mut self.redo {
            Some(redo) => return step_through(redo, disk),
            None => return write_straight(&mut self.shelf, &mut self.name, disk),
        }
    }
}

// Puts a patch into an empty redo.
#[tactic(auto, using(crate::proofs::WorkLemmas::none_going))]
fn put_through(redo: &mut Redo, patch: Patch, name: String)
    requires empty { drain_of redo.old ≡ None }
    requires named { string_bytes name ≡ file_name_of patch.path }
    ensures value { redo.new ≡ redo_with patch (string_bytes name) (runs_of patch) }
    ensures runs { length (runs_of patch) < 5000000 }
    ensures steps { steps_left redo.new < 5000000 }
    ensures was { redo.old ≡ None }
{
    // One that is not empty has the drain of its patch.
    let _ = redo.patch();
    redo.put(patch, name);
}

// Puts a patch on the empty shelf.
fn put_straight(shelf: &mut Shelf, held: &mut Option<String>, patch: Patch, name: String)
    requires empty { shelf.old ≡ None }
    requires named { string_bytes name ≡ file_name_of patch.path }
    ensures shelf { shelf.new ≡ drain_with patch (runs_of patch) }
    ensures runs { length (runs_of patch) < 5000000 }
    ensures named { option_map string_bytes held.new
        ≡ option_map (λ drain. file_name_of drain.patch.path) shelf.new }
{
    shelf.put(patch);
    *held = name_where_shelved(shelf, name);
}

// The name of a file, where something is on the shelf.
fn name_where_shelved(shelf: &Shelf, name: String) -> Option<String>
    ensures { option_map string_bytes result
        ≡ option_map (λ drain. string_bytes name) shelf.now }
{
    match shelf.patch() {
        Some(_) => Some(name),
        None => None,
    }
}

// Takes the next step of a redo.
fn step_through<D: Disk>(redo: &mut Redo, disk: &mut D) -> Wrote
    requires ready { IfSome redo.old (λ r. IfSome (D.image disk.old) (IsReady r)) }
    ensures goes { GoesThrough result redo.old redo.new (D.image disk.old) (D.image disk.new) }
    ensures rows { InRow redo.old (D.image disk.old) (D.may_leave disk.old)
        → StaysInRows D.Disk redo.old redo.new disk.old disk.new }
    ensures frame { GoesOn D.Disk disk.old disk.new (result ≡ Wrote.DiskFault) }
{
    // Its next run is one of its patch, before the step and behind it.
    let _ = redo.patch();
    let end = redo.step(disk);
    let _ = redo.patch();
    wrote_by(end)
}

// How a step ended.
fn wrote_by(end: RedoStep) -> Wrote
    ensures step { step_of result ≡ end }
    ensures fault { result ≡ Wrote.DiskFault → end ≡ RedoStep.DiskFault }
{
    match end {
        RedoStep::Run => Wrote::Run,
        RedoStep::Finished => Wrote::Finished,
        RedoStep::Nothing => Wrote::Nothing,
        RedoStep::DiskFault => Wrote::DiskFault,
    }
}

// Writes the next run on the shelf to its file.
fn write_straight<D: Disk>(shelf: &mut Shelf, held: &mut Option<String>, disk: &mut D) -> Wrote
    requires named { option_map string_bytes held.old
        ≡ option_map (λ drain. file_name_of drain.patch.path) shelf.old }
    requires runs { IfSome (D.image disk.old) (AwaitsRuns shelf.old) }
    ensures goes { GoesStraight result shelf.old shelf.new (D.image disk.old) (D.image disk.new) }
    ensures named { option_map string_bytes held.new
        ≡ option_map (λ drain. file_name_of drain.patch.path) shelf.new }
    ensures frame { CountsFaults D.Disk disk.old disk.new (result ≡ Wrote.DiskFault) }
{
    if shelf.next_run().is_none() {
        return Wrote::Nothing;
    }
    let Some(name) = &*held else { unreachable!() };
    match write_run(disk, name, shelf) {
        Ok(()) => {}
        Err(DiskFailed) => return Wrote::DiskFault,
    }
    shelf.mark_written();
    if shelf.next_run().is_some() {
        return Wrote::Run;
    }
    *held = None;
    Wrote::Finished
}

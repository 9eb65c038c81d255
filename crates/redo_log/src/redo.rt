//! The redo.
ghost use Rattle.std.specs.Prelude.{◌≡◌, ◌↔◌, ◌+◌, ◌<◌, All, IfSome, IsTrue, None, length, option_and_then, option_map, string_bytes};
ghost use Rattle.metric_path.specs.FileName.{file_name_of};
ghost use Rattle.write_shelf.specs.Runs.{runs_of};
ghost use Rattle.redo_log.specs.Body.{Fits};
ghost use Rattle.redo_log.specs.Count.{StepsFall, pieces_of, steps_left};
ghost use Rattle.redo_log.specs.Recovery.{at_runs};
ghost use Rattle.redo_log.specs.Ends.{RedoEnds, redo_with, rest_of};
ghost use Rattle.redo_log.specs.Steps.{IsGoing, IsReady};
ghost use Rattle.redo_log.specs.Rows.{InRow};
ghost use Rattle.redo_log.specs.declared.redo_step.RedoStep.TheVariants.{DiskFault};
ghost use Rattle.redo_log.specs.Frame.{GoesOn, StaysInRows};

use crate::redo_step::RedoStep;
use crate::steps::Steps;
use outside_io::Disk;
use ring_format::Patch;
use std::marker::Model;
use write_shelf::Shelf;

/// A patch on its way through the log to its file, one call of the disk a step: the log is created, the body is
/// written, and both are brought to the device; then the gate is opened, the runs are written, and the gate is
/// closed, each brought to the device before the next.
#[derive(Drop)]
pub struct Redo {
    steps: Option<Steps>,
}

impl Model for Redo {
    ghost use Rattle.std.specs.Prelude.{Option};
    ghost use Rattle.redo_log.specs.Steps.{RedoValue};

    ghost Value = { Option RedoValue };

    ghost view = { λ a. a.steps };
}

impl Redo {
    /// A redo without a patch.
    pub fn empty() -> Redo
        ensures { result ≡ None }
    {
        Redo { steps: None }
    }

    /// Puts a patch, with the name of its file, into an empty redo. It has fewer than 5,000,000 steps. A patch
    /// without runs leaves the redo empty.
    pub fn put(&mut self, patch: Patch, name: String)
        requires empty { self.old ≡ None }
        requires named { string_bytes name ≡ file_name_of patch.path }
        ensures value { self.new ≡ redo_with patch (string_bytes name) (runs_of patch) }
        ensures few { length (runs_of patch) < 5000000 }
        ensures count { steps_left self.new < 5000000 }
    {
        steps_are_few(&patch);
        self.put_steps(patch, name);
    }

    // Puts the steps of a patch into an empty redo.
    fn put_steps(&mut self, patch: Patch, name: String)
        requires empty { self.old ≡ None }
        requires named { string_bytes name ≡ file_name_of patch.path }
        ensures value { self.new ≡ redo_with patch (string_bytes name) (runs_of patch) }
        ensures few { length (runs_of patch) < 5000000 }
    {
        let mut shelf = Shelf::empty();
        shelf.put(patch);
        if shelf.patch().is_some() {
            self.steps = Some(Steps::of(shelf, name));
        }
    }

    // Whether it is empty.
    pub(crate) fn is_empty(&self) -> bool
        ensures { IsTrue result ↔ self.now ≡ None }
    {
        self.steps.is_none()
    }

    // A patch of an open gate at its first run. One without runs leaves it empty.
    pub(crate) fn behind_gate(patch: Patch, name: String) -> Redo
        requires named { string_bytes name ≡ file_name_of patch.path }
        requires fit { All Fits patch.cells }
        ensures { result ≡ at_runs patch (string_bytes name) (runs_of patch) }
    {
        let mut shelf = Shelf::empty();
        shelf.put(patch);
        if shelf.patch().is_none() {
            return Redo::empty();
        }
        Redo {
            steps: Some(Steps::behind_gate(shelf, name)),
        }
    }

    /// The patch, or `None` where the redo is empty.
    pub fn patch(&self) -> Option<&Patch>
        ensures value { option_map (λ patch. patch.now) result
            ≡ option_and_then (λ redo. option_map (λ drain. drain.patch) redo.drain) self.now }
        ensures going { IfSome self.now IsGoing }
    {
        match &self.steps {
            Some(steps) => Some(steps.patch()),
            None => None,
        }
    }

    /// Takes the next step, with one call of the disk. No memory is taken. After a failed call the redo is as it
    /// was, and the step may be taken again.
    pub fn step<D: Disk>(&mut self, disk: &mut D) -> RedoStep
        requires ready { IfSome self.old (λ redo. IfSome (D.image disk.old) (IsReady redo)) }
        ensures ends { RedoEnds result self.old self.new (D.image disk.old) (D.image disk.new) }
        ensures ready { IfSome self.new (λ redo. IfSome (D.image disk.new) (IsReady redo)) }
        ensures rows { InRow self.old (D.image disk.old) (D.may_leave disk.old)
            → StaysInRows D.Disk self.old self.new disk.old disk.new }
        ensures count { StepsFall result (steps_left self.old) (steps_left self.new) }
        ensures frame { GoesOn D.Disk disk.old disk.new (result ≡ DiskFault) }
    {
        let Some(mut steps) = self.steps.take() else {
            return RedoStep::Nothing;
        };
        let end = steps.take(disk);
        self.steps = rest_of(steps, end);
        end
    }
}

// A patch has fewer than 5,000,000 steps. The function does nothing: what it ensures is the law.
fn steps_are_few(patch: &Patch)
    ensures { 7 + (pieces_of (length patch.now.cells) + length (runs_of patch.now)) < 5000000 }
{
    let _ = patch.cells();
    let _ = patch.layout().archives();
}

// What is left behind a step that ended so.
fn rest_of(steps: Steps, end: RedoStep) -> Option<Steps>
    ensures { result ≡ rest_of end steps }
{
    match end {
        RedoStep::Finished => None,
        RedoStep::Run | RedoStep::Nothing | RedoStep::DiskFault => Some(steps),
    }
}

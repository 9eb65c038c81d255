//! A patch on its way.
ghost use Rattle.std.specs.Prelude.{◌≡◌, ◌≢◌, All, IfSome, IsErr, None, Some, option_map, string_bytes};
ghost use Rattle.redo_log.specs.Steps.{IsGoing, IsNamed, IsReady, Leads, StepEnds, is_run, on_way, with_next};
ghost use Rattle.redo_log.specs.Body.{Fits};
ghost use Rattle.redo_log.specs.Count.{StepsFall, steps_left};
ghost use Rattle.redo_log.specs.Ends.{TakeEnds, rest_of};
ghost use Rattle.redo_log.specs.Rows.{GoesInRow, KeepsRow};
ghost use Rattle.redo_log.specs.declared.next_step.NextStep.TheVariants.{CreateLog, Run};
ghost use Rattle.redo_log.specs.declared.redo_step.RedoStep.TheVariants.{DiskFault};
ghost use Rattle.redo_log.specs.Frame.{GoesOn};

use crate::calling::{
    create_step, first_piece_step, gate_step, next_piece_step, patch_of, run_step, sync_step,
};
use crate::next_step::NextStep;
use crate::redo_step::RedoStep;
use outside_io::{Disk, DiskFailed};
use ring_format::Patch;
use std::marker::Model;
use write_shelf::Shelf;

// A patch that is not yet whole in its file, and the next step.
#[derive(Drop)]
pub(crate) struct Steps {
    shelf: Shelf,
    name: String,
    next: NextStep,
}

impl Model for Steps {
    ghost use Rattle.std.specs.Prelude.{string_bytes};
    ghost use Rattle.redo_log.specs.Steps.{IsOnWay, RedoValue};

    ghost Value = { RedoValue };

    ghost view = { λ a. record { drain = a.shelf; name = string_bytes a.name; next = a.next } };

    ghost invariant = { λ a. IsOnWay a.shelf (string_bytes a.name) a.next };
}

impl Steps {
    // The patch of a shelf at its first step.
    pub(crate) fn of(shelf: Shelf, name: String) -> Steps
        requires some { shelf ≢ None }
        requires named { IsNamed shelf (string_bytes name) }
        ensures { result ≡ on_way shelf (string_bytes name) CreateLog }
    {
        Steps {
            shelf,
            name,
            next: NextStep::CreateLog,
        }
    }

    // The patch of a shelf at its first run.
    pub(crate) fn behind_gate(shelf: Shelf, name: String) -> Steps
        requires some { shelf ≢ None }
        requires named { IsNamed shelf (string_bytes name) }
        requires fit { IfSome shelf (λ drain. All Fits drain.patch.cells) }
        ensures { result ≡ on_way shelf (string_bytes name) Run }
    {
        Steps {
            shelf,
            name,
            next: NextStep::Run,
        }
    }

    // The patch.
    pub(crate) fn patch(&self) -> &Patch
        ensures value { Some result.now ≡ option_map (λ drain. drain.patch) self.now.drain }
        ensures going { IsGoing self.now }
    {
        // The next run is one of the patch.
        let _ = self.shelf.next_run();
        patch_of(&self.shelf)
    }

    // Makes the call of the next step, and answers the step behind it.
    fn call<D: Disk>(&self, disk: &mut D) -> Result<Option<NextStep>, DiskFailed>
        requires ready { IfSome (D.image disk.old) (IsReady self.now) }
        ensures ends { StepEnds self.now result (D.image disk.old) (D.image disk.new) }
        ensures row { KeepsRow self.now result (D.image disk.old) (D.image disk.new)
            (D.may_leave disk.old) (D.may_leave disk.new) }
        ensures some { self.now.drain ≢ None }
        ensures frame { GoesOn D.Disk disk.old disk.new (IsErr result) }
    {
        let (shelf, name, next) = (&self.shelf, self.name.as_str(), self.next);
        match next {
            NextStep::CreateLog => create_step(disk, shelf, name),
            NextStep::FirstPiece => first_piece_step(disk, shelf, name),
            NextStep::Piece { written } => next_piece_step(disk, shelf, name, written),
            NextStep::SyncBody => sync_step(disk, shelf, name, next, Some(NextStep::OpenGate)),
            NextStep::OpenGate => gate_step(disk, shelf, name, 1, next, Some(NextStep::SyncOpen)),
            NextStep::SyncOpen => sync_step(disk, shelf, name, next, Some(NextStep::Run)),
            NextStep::Run => run_step(disk, shelf, name),
            NextStep::SyncRuns => sync_step(disk, shelf, name, next, Some(NextStep::CloseGate)),
            NextStep::CloseGate => gate_step(disk, shelf, name, 0, next, Some(NextStep::SyncClose)),
            NextStep::SyncClose => sync_step(disk, shelf, name, next, None),
        }
    }

    // Goes on to the step behind the next one.
    fn go_on(&mut self, next: NextStep)
        requires { IfSome self.old.drain (λ drain. Leads drain self.old.next (Some next)) }
        ensures { self.new ≡ with_next self.old next }
    {
        let _ = self.shelf.next_run();
        if is_run(next) && is_run(self.next) {
            self.shelf.mark_written();
        }
        self.next = next;
    }

    // Takes the next step.
    pub(crate) fn take<D: Disk>(&mut self, disk: &mut D) -> RedoStep
        requires ready { IfSome (D.image disk.old) (IsReady self.old) }
        ensures ends { TakeEnds result self.old self.new (D.image disk.old) (D.image disk.new) }
        ensures row { GoesInRow result self.old self.new (D.image disk.old) (D.image disk.new)
            (D.may_leave disk.old) (D.may_leave disk.new) }
        ensures count { StepsFall result (steps_left (Some self.old))
            (steps_left (rest_of result self.new)) }
        ensures frame { GoesOn D.Disk disk.old disk.new (result ≡ DiskFault) }
    {
        match self.call(disk) {
            Ok(Some(next)) => {
                self.go_on(next);
                RedoStep::Run
            }
            Ok(None) => RedoStep::Finished,
            Err(DiskFailed) => RedoStep::DiskFault,
        }
    }
}

// Whether a step writes a run.
fn is_run(step: NextStep) -> bool
    ensures { result ≡ is_run step }
{
    matches!(step, NextStep::Run)
}

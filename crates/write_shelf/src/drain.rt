//! The drain that was begun.
ghost use Rattle.std.specs.Prelude.{◌≡◌, ◌<◌, Some, drop, length, slice_get};
ghost use Rattle.write_shelf.specs.Runs.{runs_of};
ghost use Rattle.write_shelf.specs.Shelf.{ComesInTurn, IsBegun, IsFilled, IsRunOf, OfNext, StandsAt, drain_with};

use crate::run::Run;
use crate::run_bytes::{place_of, put_run};
use crate::run_search::{first_run, run_behind, runs_are_few};
use ring_format::{Patch, RUN_BYTES};
use std::marker::Model;

// A patch, and the next run of it that is to be written.
#[derive(Drop)]
pub(crate) struct Drain {
    patch: Patch,
    next: Run,
}

impl Model for Drain {
    ghost use Rattle.std.specs.Prelude.{◌∷◌};
    ghost use Rattle.write_shelf.specs.Behind.{runs_behind};
    ghost use Rattle.write_shelf.specs.Shelf.{DrainValue, IsBegun, IsRunOf};

    ghost Value = { DrainValue };

    ghost view = { λ a. record { patch = a.patch; left = a.next ∷ runs_behind a.patch a.next } };

    ghost invariant = { λ a. IsRunOf a.patch a.next
        × IsBegun (record { patch = a.patch; left = a.next ∷ runs_behind a.patch a.next }) };
}

impl Drain {
    // The drain of a patch, or none where the patch has no runs.
    pub(crate) fn of(patch: Patch) -> Option<Drain>
        ensures value { result ≡ drain_with patch (runs_of patch) }
        ensures few { length (runs_of patch) < 5000000 }
    {
        runs_are_few(&patch);
        let next = first_run(&patch)?;
        Some(Drain { patch, next })
    }

    // The drain with its next run written, or none where that was the last.
    pub(crate) fn after(self) -> Option<Drain>
        ensures { result ≡ drain_with self.patch (drop 1 self.left) }
    {
        let Drain { patch, next } = self;
        let next = run_behind(&patch, next)?;
        Some(Drain { patch, next })
    }

    // The next run.
    pub(crate) fn next(&self) -> Run
        ensures value { slice_get self.now.left 0 ≡ Some result }
        ensures sound { IsRunOf self.now.patch result }
        ensures turn { ComesInTurn self.now result }
        ensures begun { IsBegun self.now }
    {
        self.next
    }

    // The whole patch.
    pub(crate) fn patch(&self) -> &Patch
        ensures { result.now ≡ self.now.patch }
    {
        &self.patch
    }

    // Writes the bytes of the next run to the front of `out`, and answers their number.
    pub(crate) fn put_next(&self, out: &mut [u8; RUN_BYTES]) -> usize
        ensures { OfNext (Some self.now) (IsFilled result out.new) }
    {
        put_run(&self.patch, self.next, out)
    }

    // Where in the file the bytes of the next run stand.
    pub(crate) fn place_of_next(&self) -> u64
        ensures { OfNext (Some self.now) (StandsAt result) }
    {
        place_of(&self.patch, self.next)
    }
}

//! The shelf.
ghost use Rattle.std.specs.Prelude.{◌≡◌, ◌≢◌, ◌↔◌, ◌<◌, None, IfSome, IsSome, length, option_map};
ghost use Rattle.write_shelf.specs.Runs.{runs_of};
ghost use Rattle.write_shelf.specs.Shelf.{ComesInTurn, IsBegun, IsFilled, IsRunOf, OfNext, StandsAt, drain_with, marked, next_run};

use crate::drain::Drain;
use crate::run::Run;
use ring_format::{Patch, RUN_BYTES};
use std::marker::Model;

/// The patch of a drain that was begun, and which of its runs are still to be written.
#[derive(Drop)]
pub struct Shelf {
    drain: Option<Drain>,
}

impl Model for Shelf {
    ghost use Rattle.std.specs.Prelude.{Option};
    ghost use Rattle.write_shelf.specs.Shelf.{DrainValue};

    ghost Value = { Option DrainValue };

    ghost view = { λ a. a.drain };
}

impl Shelf {
    /// A shelf with nothing on it.
    pub fn empty() -> Shelf
        ensures { result ≡ None }
    {
        Shelf { drain: None }
    }

    /// Puts a patch on the empty shelf, with all its runs to be written, fewer than 5,000,000. A patch
    /// without runs leaves the shelf empty.
    pub fn put(&mut self, patch: Patch)
        requires { self.old ≡ None }
        ensures value { self.new ≡ drain_with patch (runs_of patch) }
        ensures few { length (runs_of patch) < 5000000 }
    {
        self.drain = Drain::of(patch);
    }

    /// The next run, or `None` where the shelf is empty.
    pub fn next_run(&self) -> Option<Run>
        ensures value { result ≡ next_run self.now }
        ensures none { IsSome result ↔ IsSome self.now }
        ensures sound { OfNext self.now IsRunOf }
        ensures turn { IfSome self.now (λ drain. IfSome result (ComesInTurn drain)) }
        ensures begun { IfSome self.now IsBegun }
    {
        match &self.drain {
            Some(drain) => Some(drain.next()),
            None => None,
        }
    }

    /// Writes the bytes of the next run to the front of `out`, and answers their number: the cells or the
    /// head, and 0 where the file is to be created. What stands behind them in `out` is open.
    pub fn run_bytes(&self, out: &mut [u8; RUN_BYTES]) -> usize
        requires { self.now ≢ None }
        ensures { OfNext self.now (IsFilled result out.new) }
    {
        let Some(drain) = &self.drain else {
            unreachable!()
        };
        drain.put_next(out)
    }

    /// Where in the file the bytes of the next run stand; 0 where the file is to be created.
    pub fn run_at(&self) -> u64
        requires { self.now ≢ None }
        ensures { OfNext self.now (StandsAt result) }
    {
        let Some(drain) = &self.drain else {
            unreachable!()
        };
        drain.place_of_next()
    }

    /// Marks the next run as written. After the last one the shelf is empty.
    pub fn mark_written(&mut self)
        requires { self.old ≢ None }
        ensures { self.new ≡ marked self.old }
    {
        if let Some(drain) = self.drain.take() {
            self.drain = drain.after();
        }
    }

    /// The whole patch, also the runs that are already marked, or `None` where the shelf is empty.
    pub fn patch(&self) -> Option<&Patch>
        ensures { option_map (λ patch. patch.now) result
            ≡ option_map (λ drain. drain.patch) self.now }
    {
        match &self.drain {
            Some(drain) => Some(drain.patch()),
            None => None,
        }
    }
}

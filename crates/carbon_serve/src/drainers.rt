//! The drainers of a server, each with a pass of its own.
ghost use Rattle.std.specs.Prelude.{◌≡◌, ◌<◌};
ghost use Rattle.carbon_serve.specs.Rounds.{gets_on, writes_on};

use crate::pace::{Pace, Pacer, Permit};
use crate::pacing::next_class;
use crate::workers::Server;
use clock_watch::Watch;
use metric_path::CLASSES;
use outside_io::{Clock, Disk, Net};
use shard_core::Wrote;
use shared_store::{Named, Step, StorePass, has_room};
use std::sync::Wait;
use std::sync::atomic::Ordering;

impl<'a, R: Wait, D: Disk, N: Named, C: Clock, E: Net> Server<'a, R, D, N, C, E>
where
    E::L: Drop + Send,
{
    ghost use Rattle.std.specs.Prelude.{◌≡◌, ◌≢◌, ◌<◌, ℕ, IfSome, List, None, Some};
    ghost use Rattle.carbon_model.specs.Replay.{replay};
    ghost use Rattle.shared_store.specs.Passes.{HasRoom};
    ghost use Rattle.carbon_serve.specs.Paces.{CountsStep, IsFree, IsPermitted, PermitsIn};
    ghost use Rattle.carbon_serve.specs.Rounds.{StepsOnce, TriesClass, TriesWrite, WritesOnce};
    ghost use Rattle.carbon_serve.specs.Deeds.{DrainsOnly};
    ghost use Rattle.http_front.specs.Origin.{caller_of};
    ghost use Rattle.carbon_serve.specs.Workers.{Works};

    /// Drains what is pending, step by step and within its pace, until no worker serves links any more
    /// and neither this drainer nor another gets on, or the pass is spent: so what is pending at the stop
    /// is drained by all of them. A round begins behind the class that last did what is bounded, so that
    /// a pace comes to all of them. It pauses after a round in which no class got on.
    #[tactic(auto, using(crate::proofs::DeedLemmas::only_same, crate::proofs::WorkLemmas::works_same, crate::proofs::DeedLemmas::only_then, crate::proofs::WorkLemmas::works_then))]
    pub(crate) fn drain(&self, pass: &mut StorePass<N>, watch: &mut Watch<C>, pace: Pace)
        ensures works { Works (C.moments self.now.clock.now) N.start pass.old pass.new }
        ensures only { DrainsOnly (C.moments self.now.clock.now) (caller_of pass.old watch.old)
            (caller_of pass.new watch.new) }
    {
        let mut pacer = Pacer::new(pace, watch.read(self.clock));
        for _round in self.rt.forever() {
            let is_stop = self.link_workers.load(Ordering::SeqCst) == 0;
            if !self.drain_round(pass, watch, &mut pacer) {
                if self.is_done(pass, is_stop) {
                    return;
                }
                self.clock.pause();
            }
        }
        unreachable!()
    }

    // Whether a drainer that got on nowhere ends: its pass is spent, or it is the stop and no other
    // drainer is at a class.
    fn is_done(&self, pass: &StorePass<N>, is_stop: bool) -> bool {
        !has_room(pass) || is_stop && self.taken.load(Ordering::SeqCst) == 0
    }

    // One turn of each class: whether one got on.
    #[tactic(auto, using(crate::proofs::DeedLemmas::only_same, crate::proofs::WorkLemmas::works_same, crate::proofs::DeedLemmas::only_then, crate::proofs::WorkLemmas::works_then))]
    fn drain_round(&self, pass: &mut StorePass<N>, watch: &mut Watch<C>, pacer: &mut Pacer) -> bool
        ensures works { Works (C.moments self.now.clock.now) N.start pass.old pass.new }
        ensures only { DrainsOnly (C.moments self.now.clock.now) (caller_of pass.old watch.old)
            (caller_of pass.new watch.new) }
    {
        let mut moved = false;
        let mut class = pacer.first_class();
        for _turn in 0..CLASSES {
            if self.drain_turn(pass, watch, pacer, class) {
                moved = true;
            }
            class = next_class(class);
        }
        moved
    }

    // One turn of a class, unless another drainer is at it: whether the class got on.
    #[tactic(auto, using(crate::proofs::DeedLemmas::only_same, crate::proofs::WorkLemmas::works_same))]
    fn drain_turn(
        &self,
        pass: &mut StorePass<N>,
        watch: &mut Watch<C>,
        pacer: &mut Pacer,
        class: u32,
    ) -> bool
        requires class { class < 16 }
        ensures works { Works (C.moments self.now.clock.now) N.start pass.old pass.new }
        ensures only { DrainsOnly (C.moments self.now.clock.now) (caller_of pass.old watch.old)
            (caller_of pass.new watch.new) }
    {
        let bit = 1_u32 << class;
        if self.taken.fetch_or(bit, Ordering::SeqCst) & bit != 0 {
            return false;
        }
        let moved = self.drain_class(pass, watch, pacer, class);
        self.taken.fetch_and(!bit, Ordering::SeqCst);
        moved
    }

    // What the pace lets the drainer do to a class: whether the class got on. Without a pace it is one
    // step, where the pass has room for it.
    #[tactic(auto, using(crate::proofs::WorkLemmas::works_then))]
    fn drain_class(
        &self,
        pass: &mut StorePass<N>,
        watch: &mut Watch<C>,
        pacer: &mut Pacer,
        class: u32,
    ) -> bool
        requires class { class < 16 }
        ensures works { Works (C.moments self.now.clock.now) N.start pass.old pass.new }
        ensures only { DrainsOnly (C.moments self.now.clock.now) (caller_of pass.old watch.old)
            (caller_of pass.new watch.new) }
        ensures tries { IsFree pacer.old → TriesClass (C.moments self.now.clock.now) N.start N.passes
            class result pass.old pass.new }
    {
        pacer.advance(watch.read(self.clock));
        let permit = self.permit(pass, pacer, class);
        self.drain_as(pass, watch, pacer, class, permit)
    }

    // One step of a class that is permitted, or the write of a run where none is, where the pass has
    // room for that: whether the class got on.
    #[tactic(auto, using(crate::proofs::DeedLemmas::only_same, crate::proofs::WorkLemmas::works_same))]
    fn drain_as(
        &self,
        pass: &mut StorePass<N>,
        watch: &mut Watch<C>,
        pacer: &mut Pacer,
        class: u32,
        permit: Option<Permit>,
    ) -> bool
        requires class { class < 16 }
        requires permitted { IfSome permit (IsPermitted pacer.old) }
        ensures works { Works (C.moments self.now.clock.now) N.start pass.old pass.new }
        ensures only { DrainsOnly (C.moments self.now.clock.now) (caller_of pass.old watch.old)
            (caller_of pass.new watch.new) }
        ensures tries { permit ≢ None → TriesClass (C.moments self.now.clock.now) N.start
            N.passes class result pass.old pass.new }
        ensures writes { permit ≡ None → TriesWrite N.start N.passes class result
            pass.old pass.new }
    {
        if !has_room(pass) {
            return false;
        }
        let Some(permit) = permit else {
            return self.write(pass, class);
        };
        let came = self.step(pass, watch, pacer, class, permit);
        gets_on(came)
    }

    // The drain that the pace lets begin in a class. Whether the next one makes a file is looked for
    // only where files are bounded and the second has room for a drain.
    #[tactic(auto, using(crate::proofs::PaceLemmas::free_drains, crate::proofs::PaceLemmas::has_permit, crate::proofs::DeedLemmas::only_same, crate::proofs::WorkLemmas::works_same, crate::proofs::DeedLemmas::sees_only, crate::proofs::WorkLemmas::sees_works))]
    fn permit(&self, pass: &mut StorePass<N>, pacer: &Pacer, class: u32) -> Option<Permit>
        requires class { class < 16 }
        ensures works { Works (C.moments self.now.clock.now) N.start pass.old pass.new }
        ensures only { (told : List ℕ) → DrainsOnly (C.moments self.now.clock.now)
            (caller_of pass.old told) (caller_of pass.new told) }
        ensures free { IsFree pacer.now → (result ≡ Some Permit.Drain) × (pass.new ≡ pass.old) }
        ensures permits { PermitsIn (replay N.start pass.new.seen) class pacer.now result }
        ensures permitted { IfSome result (IsPermitted pacer.now) }
    {
        if !pacer.bounds_creates() || !pacer.may_drain() {
            return pacer.permit(false);
        }
        let creates = self.store.makes_file_next(self.rt, pass, class);
        pacer.permit(creates)
    }

    // The next run of the drain of a class that was begun: whether there was one and it was written.
    #[tactic(auto, using(crate::proofs::DeedLemmas::write_only, crate::proofs::WorkLemmas::write_works))]
    fn write(&self, pass: &mut StorePass<N>, class: u32) -> bool
        requires class { class < 16 }
        requires room { HasRoom pass.old }
        ensures works { Works (C.moments self.now.clock.now) N.start pass.old pass.new }
        ensures only { (told : List ℕ) → DrainsOnly (C.moments self.now.clock.now)
            (caller_of pass.old told) (caller_of pass.new told) }
        ensures writes { WritesOnce N.start N.passes class result pass.old pass.new }
    {
        let wrote = self.store.write_step(self.rt, pass, class);
        writes_on(wrote)
    }

    // One step of a class. A drain that it begins is counted as one that was permitted.
    #[tactic(auto, using(crate::proofs::DeedLemmas::step_only, crate::proofs::WorkLemmas::step_works))]
    fn step(
        &self,
        pass: &mut StorePass<N>,
        watch: &mut Watch<C>,
        pacer: &mut Pacer,
        class: u32,
        permit: Permit,
    ) -> Step
        requires class { class < 16 }
        requires room { HasRoom pass.old }
        requires permitted { IsPermitted pacer.old permit }
        ensures works { Works (C.moments self.now.clock.now) N.start pass.old pass.new }
        ensures only { DrainsOnly (C.moments self.now.clock.now) (caller_of pass.old watch.old)
            (caller_of pass.new watch.new) }
        ensures steps { StepsOnce (C.moments self.now.clock.now) N.start N.passes class result
            pass.old pass.new }
        ensures counts { CountsStep result permit pacer.old pacer.new }
    {
        let now = watch.read(self.clock);
        let came = self.store.drain_step(self.rt, pass, class, now);
        if came == Step::Took {
            pacer.count(permit, class);
        }
        came
    }
}

// Whether a class got on by a step that came to this.
fn gets_on(came: Step) -> bool
    ensures { result ≡ gets_on came }
{
    match came {
        Step::Took | Step::Wrote | Step::Finished => true,
        Step::Idle | Step::DiskFault | Step::NoMemory => false,
    }
}

// Whether a class got on by a write that came to this.
fn writes_on(wrote: Wrote) -> bool
    ensures { result ≡ writes_on wrote }
{
    match wrote {
        Wrote::Run | Wrote::Finished => true,
        Wrote::Nothing | Wrote::DiskFault => false,
    }
}

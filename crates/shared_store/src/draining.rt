//! The drain of all that is pending.
ghost use Rattle.std.specs.Prelude.{◌≡◌};
ghost use Rattle.shared_store.specs.Drains.{end_of};

use crate::call_room::has_room;
use crate::class_desk::ClassDesk;
use crate::drain_end::{DrainEnd, Stop};
use crate::named::Named;
use crate::order_desk::OrderDesk;
use crate::store::Store;
use crate::store_pass::StorePass;
use metric_path::CLASSES;
use outside_io::Disk;
use shard_core::{Planned, Wrote};
use std::sync::{Mutex, Wait};

impl<N: Named> ClassDesk<N> {
    ghost use Rattle.std.specs.Prelude.{◌≡◌, [], length};
    ghost use Rattle.carbon_model.specs.Replay.{replay};
    ghost use Rattle.shared_store.specs.Passes.{Enters, SameLooks};

    /// How many metrics of the class have pending points, in all that the pass sees from now on.
    pub(crate) fn pending(
        &mut self,
        rt: &impl Wait,
        order: &Mutex<OrderDesk<N>>,
        pass: &mut StorePass<N>,
    ) -> usize
        ensures count { result ≡ length ((replay N.start pass.new.seen).pending self.old.class) }
        ensures enters { Enters N.start N.passes [] pass.old pass.new }
        ensures looks { SameLooks pass.old pass.new }
    {
        order.lock(rt).see(pass, &mut self.tail);
        self.desk.cached_metrics()
    }
}

impl<D: Disk, N: Named> Store<D, N> {
    ghost use Rattle.std.specs.Prelude.{◌≡◌, ◌<◌, ◌≤◌, ◌+◌, ℕ, [], length};
    ghost use Rattle.carbon_model.specs.Replay.{replay};
    ghost use Rattle.shared_store.specs.Drains.{DrainsClassTo, DrainsFew, DrainsNext, DrainsTo, Finishes, IsWhole, LooksIn, WritesTo, drained_in};
    ghost use Rattle.shared_store.specs.Passes.{Enters, HasRoom, LooksOn, SameLooks};

    /// Drains all that is pending at the moment `now`: for the classes in order it finishes the
    /// drain that is being written, and then drains as many metrics as were pending when it came to
    /// the class. What other passes put meanwhile it leaves. It stops at the first fault.
    pub fn drain_all(&self, rt: &impl Wait, pass: &mut StorePass<N>, now: u32) -> DrainEnd
        requires room { HasRoom pass.old }
        ensures drains { DrainsTo N.start N.passes now result pass.old pass.new }
        ensures few { (class : ℕ) → class < 16 → DrainsFew N.start class pass.old pass.new }
        ensures looks { LooksOn pass.old pass.new }
    {
        let before = pass.left();
        for class in 0..CLASSES {
            match self.drain_class(rt, pass, class, now) {
                Ok(()) => {}
                Err(stop) => return end_of(stop, class),
            }
        }
        DrainEnd::Done(before - pass.left())
    }

    // Finishes the drain of a class that is being written. Then it drains as many metrics as were
    // pending.
    fn drain_class(
        &self,
        rt: &impl Wait,
        pass: &mut StorePass<N>,
        class: u32,
        now: u32,
    ) -> Result<(), Stop>
        requires class { class < 16 }
        requires room { HasRoom pass.old }
        ensures drains { DrainsClassTo N.start N.passes class now result pass.old pass.new }
        ensures few { DrainsFew N.start class pass.old pass.new }
        ensures looks { LooksIn class pass.old pass.new }
    {
        let most = self.pending(rt, pass, class);
        match self.finish(rt, pass, class) {
            Ok(()) => {}
            Err(stop) => return Err(stop),
        }
        for _turn in 0..most {
            match self.drain_next(rt, pass, class, now) {
                Ok(true) => {}
                Ok(false) => return Ok(()),
                Err(stop) => return Err(stop),
            }
        }
        Ok(())
    }

    // How many metrics of a class have pending points.
    fn pending(&self, rt: &impl Wait, pass: &mut StorePass<N>, class: u32) -> usize
        requires class { class < 16 }
        ensures count { result ≡ length ((replay N.start pass.new.seen).pending class) }
        ensures enters { Enters N.start N.passes [] pass.old pass.new }
        ensures looks { SameLooks pass.old pass.new }
    {
        let mut desk = self.lock_class(rt, class);
        desk.pending(rt, &self.order, pass)
    }

    // Drains the metric of a class that goes next, and writes it whole: whether there was one.
    #[tactic(auto, using(crate::proofs::DrainLemmas::drained_none, crate::proofs::DrainLemmas::drained_one))]
    fn drain_next(
        &self,
        rt: &impl Wait,
        pass: &mut StorePass<N>,
        class: u32,
        now: u32,
    ) -> Result<bool, Stop>
        requires class { class < 16 }
        requires room { HasRoom pass.old }
        requires whole { IsWhole class pass.old }
        ensures drains { DrainsNext N.start N.passes class now result pass.old pass.new }
        ensures one { drained_in class pass.new ≤ drained_in class pass.old + 1 }
        ensures looks { LooksIn class pass.old pass.new }
    {
        match self.plan_step(rt, pass, class, now) {
            Planned::Took(_) => return self.write_whole(rt, pass, class),
            Planned::Busy => return self.write_whole(rt, pass, class),
            Planned::Idle => return Ok(false),
            Planned::DiskFault => return Err(Stop::DiskFault),
            Planned::NoMemory => return Err(Stop::NoMemory),
        }
    }

    // Writes the drain that was begun to its end, where the pass has the room for it.
    fn write_whole(&self, rt: &impl Wait, pass: &mut StorePass<N>, class: u32) -> Result<bool, Stop>
        requires class { class < 16 }
        ensures whole { WritesTo N.start N.passes class result pass.old pass.new }
        ensures none { drained_in class pass.new ≡ drained_in class pass.old }
        ensures looks { LooksIn class pass.old pass.new }
    {
        if !has_room(pass) {
            return Err(Stop::Spent);
        }
        match self.finish(rt, pass, class) {
            Ok(()) => Ok(true),
            Err(stop) => Err(stop),
        }
    }

    // Writes the drain of a class that is being written to its end.
    #[tactic(auto, using(crate::proofs::DrainLemmas::undrained))]
    fn finish(&self, rt: &impl Wait, pass: &mut StorePass<N>, class: u32) -> Result<(), Stop>
        requires class { class < 16 }
        requires room { HasRoom pass.old }
        ensures writes { Finishes N.start N.passes class result pass.old pass.new }
        ensures none { drained_in class pass.new ≡ drained_in class pass.old }
        ensures looks { LooksIn class pass.old pass.new }
    {
        for _run in rt.forever() {
            match self.write_step(rt, pass, class) {
                Wrote::Run => {}
                Wrote::Finished | Wrote::Nothing => return Ok(()),
                Wrote::DiskFault => return Err(Stop::DiskFault),
            }
        }
        unreachable!()
    }
}

fn end_of(stop: Stop, class: u32) -> DrainEnd
    ensures { result ≡ end_of stop class }
{
    match stop {
        Stop::DiskFault => DrainEnd::DiskFault(class),
        Stop::Spent => DrainEnd::Spent,
        Stop::NoMemory => DrainEnd::NoMemory,
    }
}

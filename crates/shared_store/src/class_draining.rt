//! One step of draining a class.
ghost use Rattle.std.specs.Prelude.{◌≡◌};

use crate::class_desk::ClassDesk;
use crate::class_files::ClassFiles;
use crate::named::Named;
use crate::order_desk::OrderDesk;
use crate::step::Step;
use crate::store_pass::StorePass;
use outside_io::Disk;
use shard_core::{Planned, Wrote};
use std::sync::{Mutex, Wait};

impl<D: Disk, N: Named> ClassFiles<D, N> {
    ghost use Rattle.std.specs.Prelude.{◌≡◌, ℕ, false, true, length};
    ghost use Rattle.shared_store.specs.Passes.{HasRoom, LooksAgain};
    ghost use Rattle.shared_store.specs.Steps.{StepsTo};

    /// Writes the next run of the drain that is being written, or else begins one.
    pub(crate) fn step(
        &mut self,
        rt: &impl Wait,
        desks: &[Mutex<ClassDesk<N>>],
        order: &Mutex<OrderDesk<N>>,
        pass: &mut StorePass<N>,
        now: u32,
    ) -> Step
        requires sixteen { length desks.now ≡ 16 }
        requires room { HasRoom pass.old }
        ensures steps { StepsTo N.start N.passes self.old.class now result pass.old pass.new }
        ensures looks { LooksAgain self.old.class pass.old pass.new }
        ensures class { self.new.class ≡ self.old.class }
    {
        if self.shelved() {
            self.step_write(rt, desks, order, pass)
        } else {
            self.step_plan(rt, desks, order, pass, now)
        }
    }

    fn step_write(
        &mut self,
        rt: &impl Wait,
        desks: &[Mutex<ClassDesk<N>>],
        order: &Mutex<OrderDesk<N>>,
        pass: &mut StorePass<N>,
    ) -> Step
        requires shelved { self.old.shelved ≡ true }
        requires sixteen { length desks.now ≡ 16 }
        requires room { HasRoom pass.old }
        ensures steps { (now : ℕ)
            → StepsTo N.start N.passes self.old.class now result pass.old pass.new }
        ensures looks { LooksAgain self.old.class pass.old pass.new }
        ensures class { self.new.class ≡ self.old.class }
    {
        match self.write(rt, desks, order, pass) {
            Wrote::Run => Step::Wrote,
            Wrote::Finished => Step::Finished,
            Wrote::Nothing => unreachable!(),
            Wrote::DiskFault => Step::DiskFault,
        }
    }

    fn step_plan(
        &mut self,
        rt: &impl Wait,
        desks: &[Mutex<ClassDesk<N>>],
        order: &Mutex<OrderDesk<N>>,
        pass: &mut StorePass<N>,
        now: u32,
    ) -> Step
        requires shelved { self.old.shelved ≡ false }
        requires sixteen { length desks.now ≡ 16 }
        requires room { HasRoom pass.old }
        ensures steps { StepsTo N.start N.passes self.old.class now result pass.old pass.new }
        ensures looks { LooksAgain self.old.class pass.old pass.new }
        ensures class { self.new.class ≡ self.old.class }
    {
        match self.plan(rt, desks, order, pass, now) {
            Planned::Took(_) => Step::Took,
            Planned::Busy => unreachable!(),
            Planned::Idle => Step::Idle,
            Planned::DiskFault => Step::DiskFault,
            Planned::NoMemory => Step::NoMemory,
        }
    }
}

//! Rounds over the classes, in order, until one has something to do.
ghost use Rattle.std.specs.Prelude.{◌≡◌};
ghost use Rattle.shared_store.specs.Passes.{HasRoom};
ghost use Rattle.carbon_script.specs.Alone.{IsOnly};
ghost use Rattle.carbon_script.specs.Rounds.{Begins, Writes};

use metric_path::{CLASSES, MetricPath};
use outside_io::Disk;
use shard_core::{Planned, Wrote};
use shared_store::{Named, Store, StorePass};
use std::sync::Wait;

/// What came of a round of plans.
#[derive(Drop)]
pub enum Begun {
    /// The drain of this metric began.
    Metric(MetricPath),
    /// The disk of this class failed.
    DiskFault(u32),
    /// Each class has a drain to be written, or nothing pending.
    Nothing,
    /// Memory ran out.
    NoMemory,
}

/// What came of a round of writes.
#[derive(Clone, Copy, Debug, PartialEq, Eq)]
pub enum NextRun {
    /// A run was written, and more of its drain are left.
    Written,
    /// The last run of a drain was written.
    Finished,
    /// The disk of this class failed.
    DiskFault(u32),
    /// No class has a drain to be written.
    Nothing,
}

/// Begins the drain of the metric that goes next, in the first class that has something pending and no drain to be written.
pub fn begin_drain<R: Wait, D: Disk, N: Named>(
    rt: &R,
    store: &Store<D, N>,
    pass: &mut StorePass<N>,
    now: u32,
) -> Begun
    requires alone { N.passes ≡ 1 }
    requires only { IsOnly N.table N.start pass.old }
    requires room { HasRoom pass.old }
    ensures { Begins N.start now result pass.old pass.new }
{
    for class in 0..CLASSES {
        match store.plan_step(rt, pass, class, now) {
            Planned::Took(path) => return Begun::Metric(path),
            Planned::Busy | Planned::Idle => {}
            Planned::DiskFault => return Begun::DiskFault(class),
            Planned::NoMemory => return Begun::NoMemory,
        }
    }
    Begun::Nothing
}

/// Writes the next run of the drain of the first class that has one to be written.
pub fn write_run<R: Wait, D: Disk, N: Named>(
    rt: &R,
    store: &Store<D, N>,
    pass: &mut StorePass<N>,
) -> NextRun
    requires alone { N.passes ≡ 1 }
    requires only { IsOnly N.table N.start pass.old }
    requires room { HasRoom pass.old }
    ensures { Writes N.start result pass.old pass.new }
{
    for class in 0..CLASSES {
        match store.write_step(rt, pass, class) {
            Wrote::Run => return NextRun::Written,
            Wrote::Finished => return NextRun::Finished,
            Wrote::Nothing => {}
            Wrote::DiskFault => return NextRun::DiskFault(class),
        }
    }
    NextRun::Nothing
}

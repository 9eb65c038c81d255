//! The shard of a class.
ghost use Rattle.shard_core.specs.Halves.{AreHalves, desk_of, files_of};
ghost use Rattle.shard_core.specs.Props.{shelf_props};

use crate::desk::Desk;
use crate::fault::StartFault;
use crate::files::Files;
use crate::looked::{LookCount, LookFault, Looked};
use crate::opening::open_disk;
use crate::planned::{Planned, Wrote};
use crate::work::Work;
use carbon_model::Values;
use drain_order::{Picker, Strategy};
use metric_line::Datum;
use metric_path::MetricPath;
use metric_table::{FoundMetric, Verdicts};
use outside_io::Disk;
use path_glob::Glob;
use point_cache::{PointCache, Put};
use ring_archive::RingFault;
use schema_rules::Rules;
use std::alloc::{AllocError, Global};

/// One class of metrics over its disk: the points that are pending, which of them go next, what is
/// known of each metric, and the drain that is being written.
#[derive(Drop)]
pub struct Shard<D: Disk> {
    pub(crate) desk: Desk,
    pub(crate) files: Files<D>,
    ghost halves: { AreHalves (desk_of desk) (files_of files) } by { Prim.hlevel shelf_props },
}

/// The two halves of a shard, each for a lock of its own.
#[derive(Drop)]
pub struct Apart<D: Disk> {
    /// What is pending, and what is known.
    pub desk: Desk,
    /// The disk, and the drain that is being written.
    pub files: Files<D>,
}

impl<D: Disk> Shard<D> {
    ghost use Rattle.std.specs.Prelude.{◌≡◌, ◌<◌, ◌≤◌, All, IfErr, IfOk, IsErrOf, None, is_some, length};
    ghost use Rattle.outside_io.specs.Frames.{CountsFaults, ReadsOnly};
    ghost use Rattle.metric_index.specs.Found.{IsFitted};
    ghost use Rattle.metric_path.specs.Class.{class_of};
    ghost use Rattle.path_glob.specs.Faults.{Said};
    ghost use Rattle.schema_rules.specs.LayoutBy.{layout_by};
    ghost use Rattle.shard_core.specs.Halves.{AreHalves, desk_of, files_of, held_by};
    ghost use Rattle.shard_core.specs.Looks.{CountsLooks, IsFoundIn, IsReadableLook, LooksAt, LooksAtFound, MayRead, NamesOf};
    ghost use Rattle.shard_core.specs.Plans.{PlansTo};
    ghost use Rattle.shard_core.specs.Puts.{TakesPoint};
    ghost use Rattle.shard_core.specs.Reads.{ReadsTo};
    ghost use Rattle.shard_core.specs.Shard.{KeepsLayouts, Stays};
    ghost use Rattle.shard_core.specs.StartFaults.{NotStarted};
    ghost use Rattle.shard_core.specs.Started.{StartedFrom};
    ghost use Rattle.shard_core.specs.Table.{kept_form};
    ghost use Rattle.shard_core.specs.View.{OnlyPuts, SameShard, inside_of};
    ghost use Rattle.shard_core.specs.Work.{StaysInRow};
    ghost use Rattle.shard_core.specs.Writes.{OnlyWrites, WritesTo};

    /// The shard of a class over its disk, with nothing pending, the rules, how many points may be
    /// pending, the drain order, and whether drains go through the log. What an open gate of the log
    /// holds is laid first. Each file of the class is looked up, and its head is read: a head of zero
    /// counts as no file. A file of any other name, or of a path of another class, is left alone. The
    /// refusal hands the disk back.
    pub fn start(
        alloc: Global,
        class: u32,
        disk: D,
        rules: Rules,
        limit: u64,
        strategy: Strategy,
        redo: bool,
    ) -> Result<Shard<D>, (D, StartFault)>
        requires class { class < 16 }
        requires some { 0 < limit }
        ensures started { IfOk result (StartedFrom class
            (record { rules = layout_by rules; limit = limit; strategy = strategy }) redo disk) }
        ensures refused { IfErr result
            (λ refusal. NotStarted D.Disk class disk refusal.0 refusal.1) }
    {
        let mut disk = disk;
        match open_disk(alloc, &mut disk, class, redo) {
            Ok(table) => Ok(Shard {
                desk: Desk {
                    class,
                    rules,
                    cache: PointCache::new(alloc, limit),
                    picker: Picker::new(alloc, strategy),
                    table,
                    alloc,
                },
                files: Files {
                    class,
                    disk,
                    work: Work::none(redo),
                    alloc,
                },
            }),
            Err(fault) => Err((disk, fault)),
        }
    }

    /// The shard of a desk and of files that are its halves.
    pub fn of(desk: Desk, files: Files<D>) -> Shard<D>
        requires { AreHalves (desk_of desk) (files_of files) }
        ensures desk { result.desk ≡ desk }
        ensures files { result.files ≡ files }
    {
        Shard { desk, files }
    }

    /// Its two halves. [`Shard::of`] is the way back.
    pub fn apart(self) -> Apart<D>
        ensures held { held_by result.desk result.files ≡ inside_of self }
        ensures disk { result.files.disk ≡ self.files.disk }
        ensures halves { AreHalves (desk_of result.desk) (files_of result.files) }
    {
        Apart {
            desk: self.desk,
            files: self.files,
        }
    }

    /// How many metrics have pending points.
    pub fn cached_metrics(&self) -> usize
        ensures { result ≡ length (inside_of self.now).cache.metrics }
    {
        self.desk.cached_metrics()
    }

    /// The class whose metrics it has.
    pub fn class(&self) -> u32
        ensures { result ≡ (inside_of self.now).class }
    {
        self.desk.class()
    }

    /// Whether a drain is being written.
    pub fn shelved(&self) -> bool
        ensures { result ≡ is_some (inside_of self.now).shelf }
    {
        self.files.shelved()
    }

    /// The paths of all metrics that are pending or of which something is kept, in byte order.
    pub fn names(&self) -> Result<Vec<MetricPath>, AllocError>
        ensures { IfOk result (λ names. NamesOf (inside_of self.now) names.items) }
    {
        self.desk.names()
    }

    /// How many metrics a look with this glob has to look at, or `most` where there are more.
    pub fn width(&self, glob: &Glob, most: usize) -> Result<usize, AllocError> {
        self.desk.width(glob, most)
    }

    /// Puts a point of a metric line, whose path is of this class. The layout of a metric is
    /// settled at its first stored point: it is that of what is kept of it, or else what the rules
    /// give it. The disk stays as it is.
    pub fn put(&mut self, datum: &Datum) -> Put
        requires { class_of datum.now.path ≡ (inside_of self.old).class }
        ensures put { TakesPoint (inside_of self.old) (inside_of self.new)
            datum.now.path datum.now.time datum.now.value result }
        ensures layouts { KeepsLayouts (inside_of self.old) (inside_of self.new) }
        ensures others { OnlyPuts self.old self.new }
    {
        self.desk.put(datum)
    }

    /// The metrics that a glob fits, at the moment `now`, for a question from a moment until
    /// another, all in seconds since the Unix epoch: in byte order of their paths, and without
    /// those of which the question has no bucket. The disk is not read.
    pub fn look(
        &self,
        glob: &Verdicts<'_>,
        from: u64,
        until: u64,
        now: u64,
    ) -> Result<Vec<Looked>, AllocError>
        requires order { from ≤ until }
        requires now { now ≤ 4_000_000_000 }
        ensures looks { IfOk result
            (λ looked. LooksAt (inside_of self.now) (IsFitted glob.now) now from until
            looked.items) }
        ensures readable { IfOk result
            (λ looked. All (MayRead (inside_of self.now)) looked.items) }
    {
        self.desk.look(glob, from, until, now)
    }

    /// How many metrics, and how many values of them, [`Shard::look`] would find of the same
    /// question. No path and no point is copied. A count above 2^64 - 1 is answered as want of
    /// memory.
    pub fn count_looks(
        &self,
        glob: &Verdicts<'_>,
        from: u64,
        until: u64,
        now: u64,
    ) -> Result<LookCount, AllocError>
        requires order { from ≤ until }
        requires now { now ≤ 4_000_000_000 }
        ensures { IfOk result
            (CountsLooks (inside_of self.now) (IsFitted glob.now) now from until) }
    {
        self.desk.count_looks(glob, from, until, now)
    }

    /// The known metrics that a glob fits, in byte order of their paths. What is found can be
    /// counted by [`count_found`](crate::count_found) and looked at by [`Shard::look_at`].
    pub fn find(&self, glob: &Verdicts<'_>) -> Result<Vec<FoundMetric<'_>>, AllocError>
        ensures { IfOk result
            (λ found. IsFoundIn (inside_of self.now) (IsFitted glob.now) found.items) }
    {
        self.desk.find(glob)
    }

    /// What [`Shard::look`] tells of metrics that were found, for a question from a moment until
    /// another at the moment `now`: those of which the question has buckets, in the order in which
    /// they were found. The disk is not read.
    pub fn look_at(
        &self,
        found: &[FoundMetric<'_>],
        from: u64,
        until: u64,
        now: u64,
    ) -> Result<Vec<Looked>, AllocError>
        requires order { from ≤ until }
        requires now { now ≤ 4_000_000_000 }
        ensures looks { IfOk result
            (λ looked. LooksAtFound (inside_of self.now) found.now now from until looked.items) }
        ensures readable { IfOk result (λ looked. (glob : Said)
            → IsFoundIn (inside_of self.now) (IsFitted glob) found.now
            → All (MayRead (inside_of self.now)) looked.items) }
        ensures sound { IfOk result (λ looked. All IsReadableLook looked.items) }
    {
        self.desk.look_at(found, from, until, now)
    }

    /// Begins the drain of the metric that goes next, at the moment `now`, unless one is being
    /// written: its points leave the cache, and are to be written from then on. The disk is only
    /// read. After want of memory and after a disk fault all is as before. A metric that was
    /// drained 2^64 - 1 times is not drained again, which counts as want of memory.
    pub fn plan(&mut self, now: u32) -> Planned
        ensures plans { PlansTo result (inside_of self.old) (inside_of self.new) now }
        ensures layouts { KeepsLayouts (inside_of self.old) (inside_of self.new) }
        ensures same { SameShard self.old self.new }
        ensures frame { ReadsOnly D.Disk self.old.files.disk self.new.files.disk
            (result ≡ Planned.DiskFault) }
    {
        self.files.plan(&mut self.desk, now)
    }

    /// Takes the next step of the drain that is being written, this and no other, in one call of
    /// the disk: the next run, or a step of the log. What the shard says of its metrics stays. After
    /// a disk fault any bytes stand where the step's were to be written, and the step comes again. No
    /// memory is taken.
    pub fn write_next(&mut self) -> Wrote
        ensures writes { WritesTo result (inside_of self.old) (inside_of self.new) }
        ensures stays { Stays (inside_of self.old) (inside_of self.new) }
        ensures others { OnlyWrites (inside_of self.old) (inside_of self.new) }

        // What a crash leaves behind it, and at each moment of it.
        ensures rows { StaysInRow D.Disk self.old.files.work.log self.new.files.work.log
            self.old.files.disk self.new.files.disk }
        ensures frame { CountsFaults D.Disk self.old.files.disk self.new.files.disk
            (result ≡ Wrote.DiskFault) }
    {
        self.files.write_next()
    }

    /// The values of the buckets that a look found, of the points that were pending then over what
    /// is kept of the metric: those of its file, read through the patch that is being written where
    /// that is the metric's. A metric of which nothing is kept reads no disk. One that was drained
    /// since the look has moved.
    pub fn read(&mut self, looked: &Looked) -> Result<Values, LookFault>
        requires { MayRead (inside_of self.old) looked.now }
        ensures reads { ReadsTo (inside_of self.old) looked.now result }
        ensures same { inside_of self.new ≡ inside_of self.old }
        ensures unread { kept_form (inside_of self.old).table looked.now.path ≡ None
            → self.new.files.disk ≡ self.old.files.disk }
        ensures frame { ReadsOnly D.Disk self.old.files.disk self.new.files.disk
            (IsErrOf result LookFault.DiskFault) }
    {
        let kept = match self.desk.recall(looked) {
            Ok(kept) => kept,
            Err(drains) => return Err(LookFault::Moved(drains)),
        };
        match self.files.fetch_looked(looked, kept) {
            Ok(values) => Ok(values),
            Err(RingFault::DiskFault) => Err(LookFault::DiskFault),
            Err(RingFault::NoMemory) => Err(LookFault::NoMemory),
        }
    }

    /// The disk.
    pub fn finish(self) -> D
        ensures { result ≡ self.files.disk }
    {
        self.files.finish()
    }
}

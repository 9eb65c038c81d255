// Callers of a store, at once or one behind the other: what they do, and what comes of it.
ghost use Rattle.std.specs.Prelude.{◌≡◌, ◌<◌, ◌≤◌, All, IfOk, IfSome, true, vec_len};
ghost use Rattle.render_need.specs.Ends.{AreEnds};
ghost use Rattle.shard_core.specs.Started.{AreReadyShards};
ghost use Rattle.shard_set.specs.Disks.{faults_at, told_at};
ghost use Rattle.shard_set.specs.OpeningState.{opening_of};
ghost use Rattle.shared_history.specs.Parts.{PassesOfTable};
ghost use Rattle.shared_store.specs.Pieces.{HasRoomFor};
ghost use Rattle.shared_store.specs.Starts.{IsFresh};

use drain_order::Strategy;
use gate_io::Flag;
use metric_line::{Datum, read_line};
use metric_path::{CLASSES, MetricPath};
use outside_io::Disk;
use path_glob::Glob;
use point_cache::Put;
use render_need::Need;
use schema_rules::Rules;
use series_set::SeriesRows;
use shard_core::{Planned, Wrote};
use shard_set::{Setup, Started, start_all};
use shared_history::{Pass, make};
use shared_store::*;
use std::alloc::{AllocError, Global};
use std::marker::Brand;
use std::sync::Wait;
use std::test::Fail;
use std::thread;
use std::thread::Threads;
use std::time::{Clock, Duration};

// A minute begins here.
pub(crate) const START: u32 = 1_700_000_100;

// Four minutes later, the moment of all drains and questions.
pub(crate) const NOW: u32 = START + 240;

// Ten minutes by minutes.
pub(crate) const RULES: &[u8] = b"[all]\npattern = .*\nretentions = 60:10\n";

// ---- what is done, and what comes of it

// What a caller does. All drains and questions are of the moment `NOW`.
#[derive(Clone, Copy)]
pub(crate) enum Deed {
    // A point of a metric is put: its minute, of which 0 begins at `START`, and its value.
    Put(&'static str, u32, u32),
    // Such points are put as one piece.
    PutAll(&'static [(&'static str, u32, u32)]),
    // Such a point is put as a piece of its own.
    PutAlone(&'static str, u32, u32),
    // A point of each of the metrics `s.00000` on is put, from one number up to another.
    PutMany(u32, u32),
    // A drain of a class is planned.
    Plan(u32),
    // A run of a class is written.
    Write(u32),
    // A class is drained by one step.
    Step(u32),
    // It is asked whether the next drain of a class makes a ring file.
    MakesFile(u32),
    // All that is pending is drained.
    DrainAll,
    // The series that globs find are asked for.
    Ask(&'static [&'static [u8]]),
    // The metrics that are pending or kept are asked for.
    Names,
    // All entries so far are counted.
    Count,
    // The caller waits until the flag with this number is up. Where that does not come it does no more.
    Await(usize),
    // The caller looks for five seconds at most whether the flag with this number comes up.
    Expect(usize),
    // The flag with this number is put up.
    Raise(usize),
    // The caller looks for a fifth of a second whether the flag with this number comes up.
    Watch(usize),
}

#[derive(Drop)]
pub(crate) enum Reply {
    Put(Put),
    PutAll(PutCounts),
    // How many points were stored.
    PutMany(u32),
    Planned(Planned),
    Wrote(Wrote),
    Stepped(Step),
    MakesFile(bool),
    Drained(DrainEnd),
    // The rows, and how many entries the question made.
    Rows(SeriesRows, u64),
    Refused(AskFault),
    Names(Vec<MetricPath>),
    Counted(Tally),
    // Whether the flag is up.
    Up(bool),
}

// What one caller does, the flags that it knows, and what came of what it did so far.
#[derive(Drop)]
pub(crate) struct Job {
    pub(crate) deeds: Vec<Deed>,
    pub(crate) flags: Vec<Flag>,
    pub(crate) replies: Vec<Reply>,
}

// ---- one caller

#[derive(Drop)]
struct Worker<N: Named> {
    pass: StorePass<N>,
    job: Job,
}

fn digit(number: u32, unit: u32) -> u8
    requires { 0 < unit }
{
    (number / unit % 10) as u8 + b'0'
}

// A line of the metric with this number.
fn line_of(n: u32) -> [u8; 20] {
    let mut line = *b"s.00000 1 1700000100";
    line[2] = digit(n, 10_000);
    line[3] = digit(n, 1_000);
    line[4] = digit(n, 100);
    line[5] = digit(n, 10);
    line[6] = digit(n, 1);
    line
}

// A blank and ten digits.
fn word_of(number: u32) -> [u8; 11] {
    [
        b' ',
        digit(number, 1_000_000_000),
        digit(number, 100_000_000),
        digit(number, 10_000_000),
        digit(number, 1_000_000),
        digit(number, 100_000),
        digit(number, 10_000),
        digit(number, 1_000),
        digit(number, 100),
        digit(number, 10),
        digit(number, 1),
    ]
}

// The point of a metric with this value, so many minutes behind `START`.
fn datum_of(alloc: Global, path: &str, minute: u32, value: u32) -> Option<Datum> {
    let moment = minute.saturating_mul(60).saturating_add(START);
    let mut line = Vec::from_slice(alloc, path.as_bytes()).ok()?;
    line.extend_from_slice(&word_of(value)).ok()?;
    line.extend_from_slice(&word_of(moment)).ok()?;
    read_line(alloc, line.as_slice(), START).ok()
}

fn points_of(alloc: Global, piece: &[(&'static str, u32, u32)]) -> Option<Vec<Datum>> {
    let mut points = Vec::new(alloc);
    for (path, minute, value) in piece {
        points.push(datum_of(alloc, path, *minute, *value)?).ok()?;
    }
    Some(points)
}

// A need of the minutes from `START` on up to `NOW`.
fn need_of(alloc: Global, glob: &[u8]) -> Option<Need>
    ensures { IfSome result AreEnds }
{
    let glob = Glob::new(alloc, glob).ok()?;
    Some(Need {
        glob,
        from: u64::from(START - 60),
        until: u64::from(NOW),
    })
}

fn needs_of(alloc: Global, globs: &[&'static [u8]]) -> Option<Vec<Need>>
    ensures { IfSome result (λ needs. All AreEnds needs.items) }
{
    let mut needs = Vec::new(alloc);
    for glob in globs {
        needs.push(need_of(alloc, glob)?).ok()?;
    }
    Some(needs)
}

fn is_stored(reply: &Reply) -> bool {
    match reply {
        Reply::Put(put) => *put == Put::Stored,
        _ => false,
    }
}

// For how many milliseconds a flag is waited for that comes up, for one that comes up but where something stands
// still, and for one that does not.
const WAIT: u32 = 20_000;

const EXPECT: u32 = 5_000;

const WATCH: u32 = 200;

// Waits for so many milliseconds at most, and says whether the flag came up.
fn comes_up(clock: &impl Clock, flag: &Flag, most: u32) -> bool {
    for _turn in 0..most {
        if flag.is_up() {
            return true;
        }
        thread::sleep(clock, Duration::from_millis(1));
    }
    flag.is_up()
}

impl Job {
    // What is to be done, by a caller that shares these flags.
    pub(crate) fn new(alloc: Global, deeds: Vec<Deed>, flags: &[Flag]) -> Result<Job, AllocError> {
        let mut shared = Vec::new(alloc);
        for flag in flags {
            shared.push(flag.share()?)?;
        }
        Ok(Job {
            deeds,
            flags: shared,
            replies: Vec::new(alloc),
        })
    }

    fn waits(&self, clock: &impl Clock, number: usize, most: u32) -> Option<Reply> {
        let flag = self.flags.get(number)?;
        Some(Reply::Up(comes_up(clock, flag, most)))
    }

    fn comes(&self, clock: &impl Clock, number: usize) -> Option<Reply> {
        let flag = self.flags.get(number)?;
        if !comes_up(clock, flag, WAIT) {
            return None;
        }
        Some(Reply::Up(true))
    }

    fn raises(&self, number: usize) -> Option<Reply> {
        let flag = self.flags.get(number)?;
        flag.raise();
        Some(Reply::Up(true))
    }
}

fn has_room_for<N: Named>(pass: &StorePass<N>, points: &[Datum]) -> bool
    ensures { result ≡ true → HasRoomFor points.now pass.now }
{
    pass.left() >= points.len() as u64 + 4
}

impl<N: Named> Worker<N> {
    fn put<D: Disk>(
        &mut self,
        rt: &impl Wait,
        store: &Store<D, N>,
        datum: &Datum,
    ) -> Option<Reply> {
        if !has_room(&self.pass) {
            return None;
        }
        Some(Reply::Put(store.put(rt, &mut self.pass, datum)))
    }

    fn put_point<D: Disk>(
        &mut self,
        rt: &impl Wait,
        alloc: Global,
        store: &Store<D, N>,
        path: &str,
        minute: u32,
        value: u32,
    ) -> Option<Reply> {
        let datum = datum_of(alloc, path, minute, value)?;
        self.put(rt, store, &datum)
    }

    fn put_many<D: Disk>(
        &mut self,
        rt: &impl Wait,
        alloc: Global,
        store: &Store<D, N>,
        from: u32,
        until: u32,
    ) -> Option<Reply> {
        let mut stored = 0u32;
        for n in from..until {
            let datum = read_line(alloc, &line_of(n), START).ok()?;
            if is_stored(&self.put(rt, store, &datum)?) {
                stored = stored.saturating_add(1);
            }
        }
        Some(Reply::PutMany(stored))
    }

    fn put_all<D: Disk>(
        &mut self,
        rt: &impl Wait,
        alloc: Global,
        store: &Store<D, N>,
        piece: &[(&'static str, u32, u32)],
    ) -> Option<Reply> {
        let points = points_of(alloc, piece)?;
        if !has_room_for(&self.pass, points.as_slice()) {
            return None;
        }
        let counts = store.put_all(rt, alloc, &mut self.pass, points.as_slice());
        Some(Reply::PutAll(counts))
    }

    fn plan<D: Disk>(&mut self, rt: &impl Wait, store: &Store<D, N>, class: u32) -> Option<Reply> {
        if !has_room(&self.pass) {
            return None;
        }
        Some(Reply::Planned(store.plan_step(rt, &mut self.pass, class % CLASSES, NOW)))
    }

    fn write<D: Disk>(&mut self, rt: &impl Wait, store: &Store<D, N>, class: u32) -> Option<Reply> {
        if !has_room(&self.pass) {
            return None;
        }
        Some(Reply::Wrote(store.write_step(rt, &mut self.pass, class % CLASSES)))
    }

    fn step<D: Disk>(&mut self, rt: &impl Wait, store: &Store<D, N>, class: u32) -> Option<Reply> {
        if !has_room(&self.pass) {
            return None;
        }
        Some(Reply::Stepped(store.drain_step(rt, &mut self.pass, class % CLASSES, NOW)))
    }

    fn makes_file<D: Disk>(
        &mut self,
        rt: &impl Wait,
        store: &Store<D, N>,
        class: u32,
    ) -> Option<Reply> {
        let makes = store.makes_file_next(rt, &mut self.pass, class % CLASSES);
        Some(Reply::MakesFile(makes))
    }

    fn drain_all<D: Disk>(&mut self, rt: &impl Wait, store: &Store<D, N>) -> Option<Reply> {
        if !has_room(&self.pass) {
            return None;
        }
        Some(Reply::Drained(store.drain_all(rt, &mut self.pass, NOW)))
    }

    fn ask<D: Disk>(
        &mut self,
        rt: &impl Wait,
        alloc: Global,
        store: &Store<D, N>,
        globs: &[&'static [u8]],
    ) -> Option<Reply> {
        let needs = needs_of(alloc, globs)?;
        if !has_room(&self.pass) {
            return None;
        }
        let left = self.pass.left();
        match store.ask(rt, alloc, &mut self.pass, needs.as_slice(), NOW) {
            Ok(rows) => Some(Reply::Rows(rows, left.wrapping_sub(self.pass.left()))),
            Err(fault) => Some(Reply::Refused(fault)),
        }
    }

    fn names<D: Disk>(
        &mut self,
        rt: &impl Wait,
        alloc: Global,
        store: &Store<D, N>,
    ) -> Option<Reply> {
        if !has_room(&self.pass) {
            return None;
        }
        let names = store.names(rt, alloc, &mut self.pass, NOW).ok()?;
        Some(Reply::Names(names))
    }

    fn count<D: Disk>(&mut self, rt: &impl Wait, store: &Store<D, N>) -> Option<Reply> {
        Some(Reply::Counted(store.tally(rt, &mut self.pass)))
    }

    fn obey<D: Disk, R: Wait + Clock>(
        &mut self,
        rt: &R,
        alloc: Global,
        store: &Store<D, N>,
        deed: Deed,
    ) -> Option<Reply> {
        match deed {
            Deed::Put(path, minute, value) => {
                self.put_point(rt, alloc, store, path, minute, value)
            }
            Deed::PutAll(piece) => self.put_all(rt, alloc, store, piece),
            Deed::PutAlone(path, minute, value) => {
                self.put_all(rt, alloc, store, &[(path, minute, value)])
            }
            Deed::PutMany(from, until) => self.put_many(rt, alloc, store, from, until),
            Deed::Plan(class) => self.plan(rt, store, class),
            Deed::Write(class) => self.write(rt, store, class),
            Deed::Step(class) => self.step(rt, store, class),
            Deed::MakesFile(class) => self.makes_file(rt, store, class),
            Deed::DrainAll => self.drain_all(rt, store),
            Deed::Ask(globs) => self.ask(rt, alloc, store, globs),
            Deed::Names => self.names(rt, alloc, store),
            Deed::Count => self.count(rt, store),
            Deed::Await(flag) => self.job.comes(rt, flag),
            Deed::Expect(flag) => self.job.waits(rt, flag, EXPECT),
            Deed::Raise(flag) => self.job.raises(flag),
            Deed::Watch(flag) => self.job.waits(rt, flag, WATCH),
        }
    }

    // Does what is to be done at this place of its job.
    fn obey_next<D: Disk, R: Wait + Clock>(
        &mut self,
        rt: &R,
        alloc: Global,
        store: &Store<D, N>,
        place: usize,
    ) -> Option<()> {
        let deed = self.job.deeds.get(place).copied()?;
        let reply = self.obey(rt, alloc, store, deed)?;
        self.job.replies.push(reply).ok()
    }

    // Does all that is to be done, up to the first of it for which there is no room, no memory or no flag that comes
    // up: that has no reply.
    fn work<D: Disk, R: Wait + Clock>(&mut self, rt: &R, alloc: Global, store: &Store<D, N>) {
        for n in 0..self.job.deeds.len() {
            if self.obey_next(rt, alloc, store, n).is_none() {
                return;
            }
        }
    }

    // The worker learns what another has seen, and works behind it.
    fn work_behind<D: Disk, R: Wait + Clock>(
        &mut self,
        rt: &R,
        alloc: Global,
        store: &Store<D, N>,
        other: &mut Worker<N>,
    ) {
        let note = store.note(&mut other.pass);
        store.learn(&mut self.pass, note);
        self.work(rt, alloc, store);
    }
}

// ---- all callers

// How callers work.
#[derive(Clone, Copy)]
pub(crate) enum Turns {
    // All at once, each in a thread of its own.
    AtOnce,
    // The others behind the first, from which they learn what it has seen.
    OneByOne,
}

// The rules of a store, how many points of a class may be pending, and how its callers work.
#[derive(Clone, Copy)]
pub(crate) struct Scene {
    pub(crate) schemas: &'static [u8],
    pub(crate) limit: u64,
    pub(crate) turns: Turns,
}

// What a run leaves: what each caller did and came to, and the closed store.
#[derive(Drop)]
pub(crate) struct Ran<D: Disk> {
    pub(crate) jobs: Vec<Job>,
    pub(crate) closed: Closed<D>,
}

// What is left of workers.
#[derive(Drop)]
struct Left {
    passes: Vec<Pass>,
    jobs: Vec<Job>,
}

// A worker for each job, while there are passes.
fn workers_of<N: Named>(
    alloc: Global,
    passes: Vec<Pass>,
    jobs: Vec<Job>,
) -> Result<Vec<Worker<N>>, AllocError>
    requires { PassesOfTable N.table passes.items }
{
    let mut jobs = jobs;
    jobs.reverse();
    let mut workers = Vec::new(alloc);
    for pass in passes {
        let Some(job) = jobs.pop() else {
            return Ok(workers);
        };
        workers.push(Worker {
            pass: StorePass::new(pass),
            job,
        })?;
    }
    Ok(workers)
}

fn left_of<N: Named>(alloc: Global, workers: Vec<Worker<N>>) -> Result<Left, AllocError>
    ensures { IfOk result (λ left. PassesOfTable N.table left.passes.items) }
{
    let mut passes = Vec::new(alloc);
    let mut jobs = Vec::new(alloc);
    for worker in workers {
        let Worker { pass, job } = worker;
        passes.push(pass.into_pass())?;
        jobs.push(job)?;
    }
    Ok(Left { passes, jobs })
}

// All workers work, each in a thread of its own.
fn work_at_once<D: Disk + Send, N: Named + Send + Sync, R: Threads + Wait + Clock + Sync>(
    rt: &R,
    alloc: Global,
    store: &Store<D, N>,
    workers: &mut [Worker<N>],
) {
    let threads = workers.len().max(1);
    thread::for_each_mut(
        rt,
        workers,
        threads,
        &|_, worker: &mut Worker<N>| worker.work(rt, alloc, store),
    );
}

fn work_one_by_one<D: Disk, N: Named, R: Wait + Clock>(
    rt: &R,
    alloc: Global,
    store: &Store<D, N>,
    workers: &mut [Worker<N>],
) {
    if let Some((first, others)) = workers.split_first_mut() {
        first.work(rt, alloc, store);
        for worker in others.iter_mut() {
            worker.work_behind(rt, alloc, store, first);
        }
    }
}

fn work_all<D: Disk + Send, N: Named + Send + Sync, R: Threads + Wait + Clock + Sync>(
    rt: &R,
    alloc: Global,
    store: &Store<D, N>,
    workers: &mut [Worker<N>],
    turns: Turns,
) {
    match turns {
        Turns::AtOnce => work_at_once(rt, alloc, store, workers),
        Turns::OneByOne => work_one_by_one(rt, alloc, store, workers),
    }
}

fn start_store<D: Disk + Drop, N: Named>(
    alloc: Global,
    parts: Parts<D>,
) -> Result<Store<D, N>, Fail>
    requires { IsFresh N.table N.passes N.halves N.told N.start N.faults parts }
{
    match Store::<D, N>::start(alloc, parts) {
        Ok(store) => Ok(store),
        Err(_parts) => Err(Fail::new("there is memory")),
    }
}

fn close_store<D: Disk + Drop, N: Named>(
    rt: &impl Wait,
    alloc: Global,
    store: Store<D, N>,
    workers: Vec<Worker<N>>,
) -> Result<Ran<D>, Fail> {
    let Left { passes, jobs } = left_of(alloc, workers)?;
    let closed = store.close(rt, passes);
    Ok(Ran { jobs, closed })
}

fn run_store<D: Disk + Drop + Send, N: Named + Send + Sync, R: Threads + Wait + Clock + Sync>(
    rt: &R,
    alloc: Global,
    parts: Parts<D>,
    passes: Vec<Pass>,
    jobs: Vec<Job>,
    turns: Turns,
) -> Result<Ran<D>, Fail>
    requires fresh { IsFresh N.table N.passes N.halves N.told N.start N.faults parts }
    requires one { PassesOfTable N.table passes.items }
{
    let mut workers = workers_of::<N>(alloc, passes, jobs)?;
    let store = start_store::<D, N>(alloc, parts)?;
    work_all(rt, alloc, &store, workers.as_mut_slice(), turns);
    close_store(rt, alloc, store, workers)
}

// The rules of a schema file. A function that also has to show what a call requires is proved at
// many times the cost, since the clauses of the rules are searched for it.
fn read_rules(alloc: Global, schemas: &[u8]) -> Result<Rules, Fail> {
    Ok(Rules::read(alloc, schemas, b"")?)
}

// So many points of a class may be pending, but at least one.
fn setup_of(rules: Rules, limit: u64) -> Setup {
    Setup {
        rules,
        limit: limit.max(1),
        strategy: Strategy::Naive,
        redo: false,
    }
}

// The shards of all classes over disks.
fn start_shards<D: Disk + Drop>(
    alloc: Global,
    disks: Vec<D>,
    setup: &Setup,
) -> Result<Started<D>, Fail>
    requires { vec_len disks ≡ 16 }
    ensures { IfOk result (λ started. AreReadyShards (told_at started.shards.items)
        (opening_of started.shards.items) (faults_at started.shards.items) started.shards.items) }
{
    match start_all(alloc, disks, setup) {
        Ok(started) => Ok(started),
        Err(_refused) => Err(Fail::new("the disks can be started from")),
    }
}

// All jobs are done over a store that starts from these disks, and is closed then.
pub(crate) fn run<D: Disk + Drop + Send, R: Threads + Wait + Clock + Sync>(
    rt: &R,
    alloc: Global,
    disks: Vec<D>,
    scene: Scene,
    jobs: Vec<Job>,
) -> Result<Ran<D>, Fail>
    requires { vec_len disks ≡ 16 }
{
    if jobs.len() > 16 {
        return Err(Fail::new("there are at most sixteen callers"));
    }
    let setup = setup_of(read_rules(alloc, scene.schemas)?, scene.limit);
    let Started { shards, .. } = start_shards(alloc, disks, &setup)?;
    let (order, tails, passes) = make(alloc, CLASSES, jobs.len() as u32)?;
    let parts = Parts {
        order,
        tails,
        pairs: make_pairs(alloc)?,
        shards,
    };
    run_store::<D, Brand, R>(rt, alloc, parts, passes, jobs, scene.turns)
}

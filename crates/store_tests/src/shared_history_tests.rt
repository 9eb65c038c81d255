// Four threads in one history.
ghost use Rattle.std.specs.Prelude.{◌≡◌, IfOk};
ghost use Rattle.shared_history.specs.Parts.{PassesOfTable, AreNewTails, TailsOfTable};

use carbon_history::PutEnd;
use fixed_num::milli_of;
use metric_path::MetricPath;
use shared_history::*;
use std::alloc::{AllocError, Global};
use std::marker::{Brand, Model, PhantomData};
use std::process::Abort;
use std::sync::{Mutex, Wait};
use std::test::Fail;
use std::thread;
use std::thread::Threads;

const CLASSES: u32 = 16;

const PASSES: u32 = 4;

const ROUNDS: u32 = 20;

/// Which history it is.
trait Named {
    ghost use Rattle.atomic_table.specs.Seated.{TableId};

    ghost table: { TableId };
}

impl Named for Brand {
    ghost use Rattle.std.specs.Prelude.{[]};

    ghost table = { record {
      words = 0;
      slots = 0;
      views_name = 0;
      atom = 0;
      block = 0;
      offset = 0;
      slot_names = [];
    } };
}

#[derive(Drop)]
struct OrderDesk<N: Named> {
    order: Order,
    of: PhantomData<N>,
}

impl<N: Named> Model for OrderDesk<N> {
    ghost use Rattle.std.specs.Prelude.{◌≡◌, ℕ};

    ghost Value = { ℕ };

    ghost view = { λ d. d.order.passes };

    ghost invariant = { λ d. d.order.table ≡ N.table };
}

#[derive(Drop)]
struct ClassDesk<N: Named> {
    tail: Tail,
    of: PhantomData<N>,
}

impl<N: Named> Model for ClassDesk<N> {
    ghost use Rattle.std.specs.Prelude.{◌≡◌, ℕ};
    ghost use Rattle.carbon_history.specs.Entries.{drains};

    ghost Value = { ℕ };

    ghost view = { λ d. d.tail.class };

    ghost invariant = { λ d. (d.tail.table ≡ N.table) × (drains d.tail.list ≡ d.tail.settled) };
}

#[derive(Drop)]
struct Worker<N: Named> {
    pass: Pass,
    of: PhantomData<N>,
}

impl<N: Named> Model for Worker<N> {
    ghost use Rattle.std.specs.Prelude.{◌≡◌, ℕ};

    ghost Value = { ℕ };

    ghost view = { λ w. w.pass.number };

    ghost invariant = { λ w. w.pass.table ≡ N.table };
}

impl<N: Named> Worker<N> {
    fn put(
        &mut self,
        desk: &mut ClassDesk<N>,
        order: &mut OrderDesk<N>,
        path: &MetricPath,
        time: u32,
    ) {
        if path.class() == desk.tail.class() && self.pass.left() > 0 {
            let event = Event::Put(path, time, milli_of(5), PutEnd::Stored);
            enter(&mut order.order, &mut self.pass, &mut desk.tail, &event);
        }
    }

    fn drain(&mut self, desk: &mut ClassDesk<N>, order: &mut OrderDesk<N>, path: &MetricPath) {
        if path.class() == desk.tail.class() && self.pass.left() > 0 {
            let event = Event::Drain(path, 9);
            enter(&mut order.order, &mut self.pass, &mut desk.tail, &event);
            ran(&mut desk.tail);
            settle(&mut desk.tail);
            mark(&mut desk.tail, &mut self.pass);
        }
    }

    fn ask(&mut self, order: &mut OrderDesk<N>) {
        if self.pass.left() > 0 {
            enter_ask(&mut order.order, &mut self.pass, 1, 9);
        }
    }
}

#[derive(Drop)]
struct Store<N: Named> {
    order: Mutex<OrderDesk<N>>,
    classes: Vec<Mutex<ClassDesk<N>>>,
    paths: Vec<MetricPath>,
}

impl<N: Named> Store<N> {
    // Puts a point of the path and drains it, under the locks of its class and of the order.
    fn serve(&self, rt: &impl Wait, worker: &mut Worker<N>, path: &MetricPath, time: u32) {
        let class = path.class() as usize;
        if class < self.classes.len() {
            let mut desk = self.classes[class].lock(rt);
            let mut order = self.order.lock(rt);
            worker.put(&mut desk, &mut order, path, time);
            worker.drain(&mut desk, &mut order, path);
        }
    }

    fn serve_all(&self, rt: &impl Wait, worker: &mut Worker<N>) {
        for round in 0..ROUNDS {
            for path in self.paths.iter() {
                self.serve(rt, worker, path, round);
            }
            worker.ask(&mut self.order.lock(rt));
        }
    }
}

fn open_classes<N: Named>(
    alloc: Global,
    tails: Vec<Tail>,
) -> Result<Vec<Mutex<ClassDesk<N>>>, AllocError>
    requires { AreNewTails N.table tails.items }
{
    let mut classes = Vec::new(alloc);
    for tail in tails {
        classes.push(Mutex::new(ClassDesk {
            tail,
            of: PhantomData,
        }))?;
    }
    Ok(classes)
}

fn open_workers<N: Named>(alloc: Global, passes: Vec<Pass>) -> Result<Vec<Worker<N>>, AllocError>
    requires { PassesOfTable N.table passes.items }
{
    let mut workers = Vec::new(alloc);
    for pass in passes {
        workers.push(Worker {
            pass,
            of: PhantomData,
        })?;
    }
    Ok(workers)
}

#[tactic(auto, using(shared_history::proofs::EndLemmas::tails_more))]
fn tails_of<N: Named>(
    alloc: Global,
    classes: Vec<Mutex<ClassDesk<N>>>,
) -> Result<Vec<Tail>, AllocError>
    ensures { IfOk result (λ tails. TailsOfTable N.table tails.items) }
{
    let mut tails = Vec::new(alloc);
    for class in classes {
        let ClassDesk { tail, of: _ } = class.into_inner();
        tails.push(tail)?;
    }
    Ok(tails)
}

#[tactic(auto, using(shared_history::proofs::EndLemmas::passes_more))]
fn passes_of<N: Named>(alloc: Global, workers: Vec<Worker<N>>) -> Result<Vec<Pass>, AllocError>
    ensures { IfOk result (λ passes. PassesOfTable N.table passes.items) }
{
    let mut passes = Vec::new(alloc);
    for worker in workers {
        let Worker { pass, of: _ } = worker;
        passes.push(pass)?;
    }
    Ok(passes)
}

// What a run of all threads leaves: how many entries the history has, how many more the passes may
// have, and how many questions they asked.
#[derive(Drop)]
struct Counts {
    entries: u64,
    left: u64,
    asks: u64,
}

fn open_store<N: Named>(
    alloc: Global,
    order: Order,
    tails: Vec<Tail>,
    paths: Vec<MetricPath>,
) -> Result<Store<N>, AllocError>
    requires order { order.table ≡ N.table }
    requires tails { AreNewTails N.table tails.items }
{
    let classes = open_classes::<N>(alloc, tails)?;
    let order = Mutex::new(OrderDesk::<N> {
        order,
        of: PhantomData,
    });
    Ok(Store {
        order,
        classes,
        paths,
    })
}

// Each worker serves in a thread of its own.
fn serve_at_once<N: Named + Send + Sync, R: Threads + Wait + Sync>(
    rt: &R,
    store: &Store<N>,
    workers: &mut [Worker<N>],
) {
    thread::for_each_mut(rt, workers, 4, &|_, worker| store.serve_all(rt, worker));
}

fn run_all<N: Named + Send + Sync, R: Threads + Wait + Sync>(
    rt: &R,
    alloc: Global,
    order: Order,
    tails: Vec<Tail>,
    passes: Vec<Pass>,
    paths: Vec<MetricPath>,
) -> Result<Counts, AllocError>
    requires order { order.table ≡ N.table }
    requires tails { AreNewTails N.table tails.items }
    requires passes { PassesOfTable N.table passes.items }
{
    let store = open_store::<N>(alloc, order, tails, paths)?;
    let mut workers = open_workers::<N>(alloc, passes)?;
    serve_at_once(rt, &store, workers.as_mut_slice());
    close_all(alloc, store, workers)
}

fn close_all<N: Named>(
    alloc: Global,
    store: Store<N>,
    workers: Vec<Worker<N>>,
) -> Result<Counts, AllocError> {
    let Store {
        order,
        classes,
        paths: _,
    } = store;
    let OrderDesk { order, of: _ } = order.into_inner();
    let tails = tails_of(alloc, classes)?;
    let passes = passes_of(alloc, workers)?;
    let mut left = 0u64;
    let mut asks = 0u64;
    for pass in passes.iter() {
        left = left.wrapping_add(pass.left());
        asks = asks.wrapping_add(pass.asks());
    }
    let history = close(order, tails, passes);
    Ok(Counts {
        entries: history.len(),
        left,
        asks,
    })
}

fn run_new<R: Threads + Wait + Sync>(
    rt: &R,
    alloc: Global,
    paths: Vec<MetricPath>,
) -> Result<Counts, AllocError> {
    let (order, tails, passes) = make(alloc, CLASSES, PASSES)?;
    run_all::<Brand, R>(rt, alloc, order, tails, passes, paths)
}

#[test]
fn four_threads_enter_all_that_they_do(rt: HostRuntime) -> Result<(), Fail> {
    let alloc = rt.alloc();
    let mut paths = Vec::new(alloc);
    for byte in b'a'..=b'z' {
        paths.push(MetricPath::new(alloc, &[byte])?)?;
    }
    let counts = run_new(&rt, alloc, paths)?;
    // 26 puts, as many drains and a question, in 20 rounds of 4 threads
    assert_eq!(rt; counts.entries, 4240);
    assert_eq!(rt; counts.left, 4 * MOST_ENTRIES - 4240);
    assert_eq!(rt; counts.asks, 80);
    Ok(())
}

//! The passes of those who serve a store: handed to the workers, and taken back from them.
ghost use Rattle.std.specs.Prelude.{◌≡◌, ◌<◌, ◌≤◌, ◌∷◌, ◌++◌, [], All, Some, IfOk, OnOk, vec_capacity, vec_len};
ghost use mathlib.Core.List.{IsPrefix};
ghost use Rattle.carbon_serve.specs.Crews.{HasRole, OnlySaw, in_order, lacks_room, role_of};

use crate::pace::Pace;
use crate::workers::{Role, Worker, moment, work_all};
use aggregate_rules::AggRules;
use outside_io::{Clock, Disk, Net};
use shared_history::Pass;
use shared_store::{DrainEnd, Named, Store, StorePass, has_room};
use std::alloc::{AllocError, Global};
use std::marker::Model;
use std::sync::Wait;
use std::thread::Threads;

/// How those who serve a store share the work. The passes are numbered from 0: the first ones
/// receive, those behind them render, all others but the last drain, and the last is the crew's own.
#[derive(Clone, Copy, Debug, PartialEq, Eq)]
pub struct Duties {
    /// How many receive metric lines.
    pub receivers: u32,
    /// How many answer requests.
    pub renderers: u32,
    /// How many bytes the answer to a question may take.
    pub answer_bytes: u64,
    /// How fast each of those goes that drain.
    pub pace: Pace,
}

/// Who serves a store: workers that serve links or drain, and who ends the store.
#[derive(Drop)]
pub struct Crew {
    // The last one has the first pass, and so on.
    workers: Vec<Worker>,
    // The crew itself has the pass behind those of the workers.
    own: Pass,
    // Room for the passes when they come back.
    places: Vec<Pass>,
    // What the workers do, each by the number of its pass.
    duties: Duties,
}

impl Model for Crew {
    ghost use Rattle.std.specs.Prelude.{◌≡◌, ◌<◌, ◌≤◌, ◌+◌, All, vec_capacity, vec_len};
    ghost use Rattle.carbon_serve.specs.Crews.{CrewValue, HasRole, in_order};

    ghost Value = { CrewValue };

    ghost view = { λ c. record {
      served = in_order c.workers.items;
      own = c.own;
      duties = c.duties;
    } };

    ghost invariant = { λ c. (0 < vec_len c.workers) × ((vec_len c.places ≡ 0)
        × ((vec_len c.workers + 1 ≤ vec_capacity c.places)
        × All (HasRole c.duties) c.workers.items)) };
}

/// A crew whose workers have ended.
#[derive(Drop)]
pub(crate) struct Muster<N: Named> {
    // In order of their numbers.
    passes: Vec<Pass>,
    // That of the crew itself, which has seen all that these have seen.
    own: StorePass<N>,
    // Whether one of these has no room for the entries of another call.
    is_spent: bool,
}

impl<N: Named> Model for Muster<N> {
    ghost use Rattle.std.specs.Prelude.{◌-◌, vec_capacity, vec_len};
    ghost use Rattle.carbon_serve.specs.Crews.{MusterValue};

    ghost Value = { MusterValue };

    ghost view = { λ m. record {
      served = m.passes.items;
      own = m.own;
      is_spent = m.is_spent;
      places = vec_capacity m.passes - vec_len m.passes;
    } };
}

impl Crew {
    ghost use Rattle.std.specs.Prelude.{◌≡◌, ◌<◌, ◌≤◌, ◌∷◌, ◌++◌, [], All, IfOk, vec_len};
    ghost use Rattle.http_front.specs.Origin.{origin_of};
    ghost use Rattle.carbon_serve.specs.Crews.{AllDid, AllWent, Musters};
    ghost use Rattle.carbon_serve.specs.Deeds.{telling};

    /// A crew with these passes and duties.
    pub fn new(alloc: Global, passes: Vec<Pass>, duties: Duties) -> Result<Crew, AllocError>
        requires { 2 ≤ vec_len passes }
        ensures all { IfOk result (λ crew. crew.served ++ crew.own ∷ [] ≡ passes.items) }
        ensures duties { IfOk result (λ crew. crew.duties ≡ duties) }
    {
        let mut passes = passes;
        let Some(own) = passes.pop() else {
            unreachable!()
        };
        let workers = workers_of(alloc, &mut passes, duties)?;
        Ok(Crew {
            workers,
            own,
            places: passes,
            duties,
        })
    }

    /// Serves a net until it is closed or passes are spent. The rules gather each link's points.
    pub(crate) fn work<
        R: Threads + Wait + Sync,
        D: Disk + Send,
        N: Named + Send + Sync,
        C: Clock + Sync,
        E: Net + Sync,
    >(&mut self, rt: &R, alloc: Global, store: &Store<D, N>, clock: &C, net: &E, rules: &AggRules)
    where
        E::L: Drop + Send,
        requires one { All (λ pass. pass.table ≡ N.table) self.old.served }
        ensures went { AllWent (C.moments clock.now) N.start self.old.served self.new.served }
        ensures did { AllDid (telling E.L.Source E.L.Sink rules.now)
            (origin_of C.Clock N.Named clock.now) self.old.duties self.old.served self.new.served }
        ensures own { self.new.own ≡ self.old.own }
        ensures duties { self.new.duties ≡ self.old.duties }
    {
        work_all(
            rt,
            alloc,
            store,
            clock,
            net,
            rules,
            self.workers.as_mut_slice(),
        );
    }

    /// Takes all passes back. The crew's own pass learns what they have seen.
    pub(crate) fn muster<D: Disk, N: Named>(self, store: &Store<D, N>) -> Muster<N>
        requires one { All (λ pass. pass.table ≡ N.table) self.served }
        requires own { self.own.table ≡ N.table }
        ensures musters { Musters self.served self.own result }
        ensures places { 0 < result.places }
    {
        let Crew {
            workers,
            own,
            places,
            duties: _,
        } = self;
        let mut muster = Muster {
            passes: places,
            own: StorePass::new(own),
            is_spent: false,
        };
        muster.add_workers(store, workers);
        muster
    }
}

// The workers that these passes make, the last one first. The list of the passes is left empty.
fn workers_of(
    alloc: Global,
    passes: &mut Vec<Pass>,
    duties: Duties,
) -> Result<Vec<Worker>, AllocError>
    ensures workers { IfOk result (λ workers. in_order workers.items ≡ passes.old.items) }
    ensures count { IfOk result (λ workers. vec_len workers ≡ vec_len passes.old) }
    ensures roles { IfOk result (λ workers. All (HasRole duties) workers.items) }
    ensures none { OnOk result (vec_len passes.new ≡ 0) }
    ensures room { vec_capacity passes.old ≤ vec_capacity passes.new }
{
    let mut workers = Vec::with_capacity(alloc, passes.len())?;
    while let Some(pass) = passes.pop() {
        workers.push(worker_of(pass, duties))?;
    }
    Ok(workers)
}

// The worker that a pass makes.
fn worker_of(pass: Pass, duties: Duties) -> Worker
    ensures pass { result.pass ≡ Some pass }
    ensures role { HasRole duties result }
{
    Worker {
        role: role_of(pass.number(), duties),
        pass: Some(pass),
    }
}

// What it does, by the number of its pass.
fn role_of(number: u32, duties: Duties) -> Role
    ensures { result ≡ role_of number duties }
{
    if number < duties.receivers {
        return Role::Receiver;
    }
    if number - duties.receivers < duties.renderers {
        return Role::Renderer {
            answer_bytes: duties.answer_bytes,
        };
    }
    Role::Drainer { pace: duties.pace }
}

impl<N: Named> Muster<N> {
    ghost use Rattle.std.specs.Prelude.{◌≡◌, ◌<◌, ◌≤◌, ◌+◌, ◌||◌, ◌∷◌, ◌++◌, [], All, vec_len};
    ghost use mathlib.Core.List.{IsPrefix};
    ghost use Rattle.shared_store.specs.Passes.{HasRoom, LooksOn};
    ghost use Rattle.carbon_serve.specs.Crews.{Adds, Finishes, OnlySaw, in_order, lacks_room, pass_list};
    ghost use Rattle.carbon_serve.specs.Workers.{IsReady};

    // The passes of workers, the last worker's first.
    #[tactic(auto, using(crate::proofs::MusterLemmas::behind_none, crate::proofs::MusterLemmas::behind_all))]
    fn add_workers<D: Disk>(&mut self, store: &Store<D, N>, workers: Vec<Worker>)
        requires ready { All (IsReady N.table) workers.items }
        requires places { vec_len workers ≤ self.old.places }
        ensures { Adds (in_order workers.items) self.old self.new }
    {
        let mut workers = workers;
        while let Some(worker) = workers.pop() {
            self.add_worker(store, worker);
        }
    }

    #[tactic(auto, using(crate::proofs::MusterLemmas::adds_none, crate::proofs::MusterLemmas::adds_one))]
    fn add_worker<D: Disk>(&mut self, store: &Store<D, N>, worker: Worker)
        requires ready { IsReady N.table worker }
        requires places { 0 < self.old.places }
        ensures { Adds (pass_list worker.pass) self.old self.new }
    {
        if let Some(pass) = worker.pass {
            self.add(store, pass);
        }
    }

    // One pass more, of which the crew's own learns.
    fn add<D: Disk>(&mut self, store: &Store<D, N>, pass: Pass)
        requires one { pass.table ≡ N.table }
        requires places { 0 < self.old.places }
        ensures served { self.new.served ≡ self.old.served ++ pass ∷ [] }
        ensures learned { IsPrefix pass.seen self.new.own.seen }
        ensures own { OnlySaw self.old.own self.new.own }
        ensures spent { self.new.is_spent ≡ (self.old.is_spent || lacks_room pass) }
        ensures places { self.old.places ≤ self.new.places + 1 }
    {
        let mut pass = StorePass::new(pass);
        learn_from(store, &mut pass, &mut self.own);
        self.is_spent |= is_spent(&pass);
        put_back(&mut self.passes, pass.into_pass());
    }

    /// Drains all that is pending by the crew's own pass, unless one of the others is spent.
    pub(crate) fn drain<D: Disk, C: Clock>(
        &mut self,
        rt: &impl Wait,
        store: &Store<D, N>,
        clock: &C,
    ) -> DrainEnd
        requires room { HasRoom self.old.own }
        ensures finishes { Finishes (C.moments clock.now) N.start N.passes self.old.is_spent result
            self.old.own self.new.own }
        ensures looks { LooksOn self.old.own self.new.own }
        ensures served { self.new.served ≡ self.old.served }
        ensures places { self.new.places ≡ self.old.places }
    {
        if self.is_spent {
            return DrainEnd::Spent;
        }
        store.drain_all(rt, &mut self.own, moment(clock))
    }

    /// All passes, in order of their numbers.
    pub(crate) fn into_passes(self) -> Vec<Pass>
        requires { 0 < self.places }
        ensures { result.items ≡ self.served ++ self.own ∷ [] }
    {
        let Muster {
            passes,
            own,
            is_spent: _,
        } = self;
        let mut passes = passes;
        put_back(&mut passes, own.into_pass());
        passes
    }
}

// A pass learns what another one has seen.
#[tactic(auto, using(crate::proofs::MusterLemmas::only_learned))]
fn learn_from<D: Disk, N: Named>(
    store: &Store<D, N>,
    pass: &mut StorePass<N>,
    own: &mut StorePass<N>,
)
    ensures same { pass.new ≡ pass.old }
    ensures learned { IsPrefix pass.old.seen own.new.seen }
    ensures own { OnlySaw own.old own.new }
{
    let note = store.note(pass);
    store.learn(own, note);
}

// Whether a pass has no room for the entries of another call.
fn is_spent<N: Named>(pass: &StorePass<N>) -> bool
    ensures { result ≡ lacks_room pass.now }
{
    !has_room(pass)
}

// Puts a pass into a list that has room for it.
fn put_back(passes: &mut Vec<Pass>, pass: Pass)
    requires { vec_len passes.old < vec_capacity passes.old }
    ensures items { passes.new.items ≡ passes.old.items ++ pass ∷ [] }
    ensures room { vec_capacity passes.old ≤ vec_capacity passes.new }
{
    match passes.push(pass) {
        Ok(()) => {}
        Err(_) => unreachable!(),
    }
}

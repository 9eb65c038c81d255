//! The workers of a server, each with a pass of its own for all that it does.
ghost use Rattle.std.specs.Prelude.{◌≡◌, ◌<◌, true, length, All};
ghost use Rattle.fixed_num.specs.Moment.{is_moment};
ghost use Rattle.http_front.specs.Origin.{origin_of};
ghost use Rattle.carbon_serve.specs.Deeds.{AllDo, DoesRole, telling};
ghost use Rattle.carbon_serve.specs.Workers.{AllWork, IsReady, Works, WorksBy};

use crate::pace::Pace;
use aggregate_rules::AggRules;
use clock_watch::Watch;
use http_front::{HttpEnd, serve_http};
use line_front::{LineCause, Served as ServedLines, serve_lines};
use outside_io::{Clock, Disk, Net};
use read_trace::Reads;
use shared_history::Pass;
use shared_store::{Named, Store, StorePass};
use std::alloc::Global;
use std::sync::Wait;
use std::sync::atomic::{AtomicU32, AtomicUsize, Ordering};
use std::thread;
use std::thread::Threads;

/// Which links a worker serves, or what else it does.
#[derive(Clone, Copy, Debug, PartialEq, Eq)]
pub(crate) enum Role {
    /// Those that bring metric lines.
    Receiver,
    /// Those that bring HTTP requests, of which the answer to a question may take so many bytes.
    Renderer { answer_bytes: u64 },
    /// None: it drains what is pending, within a pace.
    Drainer { pace: Pace },
}

impl Role {
    fn serves_links(self) -> bool {
        match self {
            Role::Receiver | Role::Renderer { .. } => true,
            Role::Drainer { .. } => false,
        }
    }
}

/// A worker.
#[derive(Drop)]
pub(crate) struct Worker {
    pub(crate) role: Role,
    // There, but while the worker works.
    pub(crate) pass: Option<Pass>,
}

/// What each worker works with.
#[derive(Drop)]
pub(crate) struct Server<'a, R: Wait, D: Disk, N: Named, C: Clock, E: Net> {
    pub(crate) rt: &'a R,
    pub(crate) alloc: Global,
    pub(crate) store: &'a Store<D, N>,
    pub(crate) clock: &'a C,
    pub(crate) net: &'a E,
    // What gathers the points of each link that brings metric lines.
    pub(crate) rules: &'a AggRules,
    // How many workers serve links: once there are none the drainers end.
    pub(crate) link_workers: &'a AtomicUsize,
    // A bit for each class that a drainer is at.
    pub(crate) taken: &'a AtomicU32,
}

impl<'a, R: Wait, D: Disk, N: Named, C: Clock, E: Net> Server<'a, R, D, N, C, E>
where
    E::L: Drop + Send,
{
    ghost use Rattle.std.specs.Prelude.{◌≡◌, ◌<◌, true};
    ghost use Rattle.line_front.specs.Links.{IsSpent};
    ghost use Rattle.http_front.specs.Origin.{caller_of, origin_of};
    ghost use Rattle.carbon_serve.specs.Deeds.{Did, DoesRole, Receives, Renders, ServesHttpOf, ServesLineOf, telling};
    ghost use Rattle.carbon_serve.specs.Workers.{IsReady, ServesNoMore, Works, WorksBy};

    /// Serves links of the worker's kind, one after the other, until the net is closed or the pass
    /// is spent; or drains until nobody serves links any more.
    pub(crate) fn work(&self, worker: &mut Worker)
        requires one { IsReady N.table worker.old }
        ensures works { WorksBy (C.moments self.now.clock.now) N.start worker.old.pass worker.new.pass }
        ensures does { DoesRole (telling E.L.Source E.L.Sink self.now.rules.now)
            (origin_of C.Clock N.Named self.now.clock.now) worker.old worker.new }
    {
        let Some(pass) = worker.pass.take() else {
            return;
        };
        let pass = self.work_by(worker.role, StorePass::new(pass));
        worker.pass = Some(pass.into_pass());
        if worker.role.serves_links() {
            self.link_workers.fetch_sub(1, Ordering::SeqCst);
        }
    }

    #[tactic(auto, using(crate::proofs::DeedLemmas::drains_by))]
    fn work_by(&self, role: Role, pass: StorePass<N>) -> StorePass<N>
        ensures works { Works (C.moments self.now.clock.now) N.start pass result }
        ensures did { Did (telling E.L.Source E.L.Sink self.now.rules.now)
            (origin_of C.Clock N.Named self.now.clock.now) role pass result }
    {
        let mut pass = pass;
        match role {
            Role::Receiver => return self.receive(pass),
            Role::Renderer { answer_bytes } => self.render(&mut pass, answer_bytes),
            Role::Drainer { pace } => self.drain(&mut pass, &mut Watch::new(), pace),
        }
        pass
    }

    // Puts the points that links bring, and those that the rules emit for each link. Whatever ends
    // a link, but a spent pass, ends that link alone.
    #[tactic(auto, using(crate::proofs::DeedLemmas::receives_none, crate::proofs::DeedLemmas::receives_more, crate::proofs::WorkLemmas::works_same, crate::proofs::WorkLemmas::works_then))]
    fn receive(&self, pass: StorePass<N>) -> StorePass<N>
        ensures works { Works (C.moments self.now.clock.now) N.start pass result }
        ensures did { Receives (telling E.L.Source E.L.Sink self.now.rules.now)
            (origin_of C.Clock N.Named self.now.clock.now) pass result }
        ensures ends { ServesNoMore (E.closes self.now.net.now) result }
    {
        let mut pass = pass;
        let mut watch = Watch::new();
        for _link in self.rt.forever() {
            let Some(link) = self.net.next_lines() else {
                return pass;
            };
            let served = self.receive_link(pass, &mut watch, link);
            pass = served.pass;
            if served.cause == LineCause::Spent {
                return pass;
            }
        }
        unreachable!()
    }

    fn receive_link(&self, pass: StorePass<N>, watch: &mut Watch<C>, link: E::L) -> ServedLines<N>
        ensures works { Works (C.moments self.now.clock.now) N.start pass result.pass }
        ensures did { ServesLineOf (telling E.L.Source E.L.Sink self.now.rules.now)
            (origin_of C.Clock N.Named self.now.clock.now) link (caller_of pass watch.old)
            (caller_of result.pass watch.new) }
        ensures spent { result.cause ≡ LineCause.Spent → IsSpent result.pass }
    {
        let mut link = link;
        serve_lines(
            self.rt, self.alloc, self.store, pass, watch, &mut link, self.clock, self.rules,
        )
    }

    // Answers the requests that links bring, and goes on likewise.
    #[tactic(auto, using(crate::proofs::DeedLemmas::renders_none, crate::proofs::DeedLemmas::renders_more, crate::proofs::WorkLemmas::works_same, crate::proofs::WorkLemmas::works_then))]
    fn render(&self, pass: &mut StorePass<N>, answer_bytes: u64)
        ensures works { Works (C.moments self.now.clock.now) N.start pass.old pass.new }
        ensures did { Renders (telling E.L.Source E.L.Sink self.now.rules.now)
            (origin_of C.Clock N.Named self.now.clock.now) pass.old pass.new }
        ensures ends { ServesNoMore (E.closes self.now.net.now) pass.new }
    {
        let mut watch = Watch::new();
        for _link in self.rt.forever() {
            let Some(link) = self.net.next_http() else {
                return;
            };
            if self.render_link(pass, &mut watch, link, answer_bytes) == HttpEnd::Spent {
                return;
            }
        }
        unreachable!()
    }

    fn render_link(
        &self,
        pass: &mut StorePass<N>,
        watch: &mut Watch<C>,
        link: E::L,
        answer_bytes: u64,
    ) -> HttpEnd
        ensures works { Works (C.moments self.now.clock.now) N.start pass.old pass.new }
        ensures did { ServesHttpOf (telling E.L.Source E.L.Sink self.now.rules.now)
            (origin_of C.Clock N.Named self.now.clock.now) link (caller_of pass.old watch.old)
            (caller_of pass.new watch.new) }
        ensures spent { result ≡ HttpEnd.Spent → IsSpent pass.new }
    {
        let mut link = link;
        let mut reads = Reads::new();
        serve_http(
            self.rt,
            self.alloc,
            self.store,
            pass,
            watch,
            &mut link,
            &mut reads,
            self.clock,
            answer_bytes,
        )
    }
}

/// The moment that a clock tells.
#[tactic(auto, using(crate::proofs::WorkLemmas::moment_fits))]
pub(crate) fn moment<C: Clock>(clock: &C) -> u32
    ensures told { C.moments clock.now result }
    ensures legal { is_moment result ≡ true }
{
    clock.now() as u32
}

/// Serves the links of a net and drains, by all workers at once: each of them has a thread of its
/// own, where threads can be made. It ends when the net is closed, or the passes are spent. The
/// workers that have no thread of their own come one after the other, the last one first: those that
/// drain stand first, and find that nobody serves links any more.
pub(crate) fn work_all<
    R: Threads + Wait + Sync,
    D: Disk + Send,
    N: Named + Send + Sync,
    C: Clock + Sync,
    E: Net + Sync,
>(
    rt: &R,
    alloc: Global,
    store: &Store<D, N>,
    clock: &C,
    net: &E,
    rules: &AggRules,
    workers: &mut [Worker],
)
where
    E::L: Drop + Send,
    requires some { 0 < length workers.old }
    requires ready { All (IsReady N.table) workers.old }
    ensures workers { AllWork (C.moments clock.now) N.start workers.old workers.new }
    ensures do_all { AllDo (telling E.L.Source E.L.Sink rules.now)
        (origin_of C.Clock N.Named clock.now) workers.old workers.new }
{
    let threads = workers.len();
    let link_workers = AtomicUsize::new(count_link_workers(workers));
    let taken = AtomicU32::new(0);
    thread::for_each_mut(
        rt,
        workers,
        threads,
        &|_, worker: &mut Worker|
            requires { IsReady N.table worker.now }
            ensures works { WorksBy (C.moments clock.entry.now) N.start worker.old.pass worker.new.pass }
            ensures does { DoesRole (telling E.L.Source E.L.Sink rules.entry.now)
                (origin_of C.Clock N.Named clock.entry.now) worker.old worker.new }
        {
            let server = Server {
                rt,
                alloc,
                store,
                clock,
                net,
                rules,
                link_workers: &link_workers,
                taken: &taken,
            };
            server.work(worker)
        },
    );
}

// How many workers serve links.
fn count_link_workers(workers: &[Worker]) -> usize {
    workers
        .iter()
        .filter(|worker| worker.role.serves_links())
        .count()
}

//! The service of a net.
ghost use Rattle.std.specs.Prelude.{◌≡◌};
ghost use Rattle.shared_store.specs.Tallies.{tally_of};
ghost use Rattle.http_front.specs.Origin.{origin_of};
ghost use Rattle.carbon_serve.specs.Courses.{staff_of};
ghost use Rattle.carbon_serve.specs.Crews.{IsNewCrew, IsServedCrew};
ghost use Rattle.carbon_serve.specs.Deeds.{telling};
ghost use Rattle.carbon_serve.specs.Serves.{Serves};

use crate::crew::Crew;
use aggregate_rules::AggRules;
use outside_io::{Clock, Disk, Net};
use shared_store::{Closed, DrainEnd, Named, Store};
use std::alloc::Global;
use std::sync::Wait;
use std::thread::Threads;

/// What the service of a net came to.
#[derive(Drop)]
pub struct Served<D: Disk> {
    /// How it ended. It is spent where a pass has no room for the entries of another call: of a
    /// worker, or of the crew itself in the last drain.
    pub end: DrainEnd,
    /// What the store ended as.
    pub closed: Closed<D>,
}

/// Serves the ports of a net over a store, by all workers of a crew at once, until the net is
/// closed or passes are spent. The rules gather the points of each link of metric lines, and what
/// they emit is put too. Then it drains all that is pending, unless a worker's pass is spent, and
/// ends the store.
#[tactic(auto, using(crate::proofs::CrewLemmas::served_crew))]
pub fn serve<
    N: Named + Send + Sync,
    R: Threads + Wait + Sync,
    D: Disk + Send + Drop,
    C: Clock + Sync,
    E: Net + Sync,
>(
    rt: &R,
    alloc: Global,
    store: Store<D, N>,
    crew: Crew,
    clock: &C,
    net: &E,
    rules: &AggRules,
) -> Served<D>
where
    E::L: Drop + Send,
    requires { IsNewCrew N.table N.passes crew }
    ensures serves { Serves D.Disk
        (staff_of C.Clock E.L.Source E.L.Sink clock.now rules.now crew.duties N.passes)
        N.told N.start N.faults result.end
        result.closed.history result.closed.disks.items }
    ensures counted { result.closed.tally ≡ tally_of result.closed.history }
{
    let mut crew = crew;
    crew.work(rt, alloc, &store, clock, net, rules);
    end_service::<N, R, D, C, E>(rt, store, crew, clock, rules)
}

// Drains all, and ends the store.
fn end_service<N: Named, R: Wait, D: Disk + Drop, C: Clock, E: Net>(
    rt: &R,
    store: Store<D, N>,
    crew: Crew,
    clock: &C,
    rules: &AggRules,
) -> Served<D>
    requires { IsServedCrew N.table (telling E.L.Source E.L.Sink rules.now)
        (origin_of C.Clock N.Named clock.now) crew }
    ensures serves { Serves D.Disk
        (staff_of C.Clock E.L.Source E.L.Sink clock.now rules.now crew.duties N.passes)
        N.told N.start N.faults result.end
        result.closed.history result.closed.disks.items }
    ensures counted { result.closed.tally ≡ tally_of result.closed.history }
{
    let mut muster = crew.muster(&store);
    let end = muster.drain(rt, &store, clock);
    Served {
        end,
        closed: store.close(rt, muster.into_passes()),
    }
}

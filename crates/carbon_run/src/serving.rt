//! The command `serve`, once the rule files are read.
ghost use Rattle.std.specs.Prelude.{◌≡◌, ◌⊎◌, ◌≤◌, [], map, vec_capacity, vec_len};
ghost use Rattle.carbon_words.specs.CommandLine.{HasWorkers};
ghost use Rattle.carbon_serve.specs.Courses.{staff_of};
ghost use Rattle.carbon_serve.specs.Crews.{IsNewCrew};
ghost use Rattle.outside_io.specs.Frames.{CountsWrites};
ghost use Rattle.shard_set.specs.Disks.{faults_at, told_at};
ghost use Rattle.shard_set.specs.Opening.{settings_of};
ghost use Rattle.shard_core.specs.Started.{AreReadyShards};
ghost use Rattle.shard_set.specs.OpeningState.{opening_of};
ghost use Rattle.shared_store.specs.Starts.{IsFresh};
ghost use Rattle.carbon_run.specs.Runs.{TellsAlone, answer_of};
ghost use Rattle.carbon_run.specs.Serves.{LacksPort, ServeRuns, ServesAll, ServesShards, TellsServed, duties_of, passes_for, unread};
ghost use Rattle.carbon_run.specs.Texts.{no_port_line};

use crate::Report;
use crate::fault_lines::{tell_disk_fault, tell_limit, tell_no_memory, tell_no_port, tell_tally};
use crate::scripts::{report_no_memory, tell_refusal};
use aggregate_rules::AggRules;
use carbon_serve::{Crew, Duties, Pace, Served, serve};
use carbon_words::ServeOptions;
use metric_path::CLASSES;
use outside_io::{Clock, Disk, Net, NetFailed, Sink};
use shard_core::Shard;
use shard_set::{Setup, Started, hand_back, start_all};
use shared_history::make;
use shared_store::{Closed, DrainEnd, Named, Parts, Store, Tally, make_pairs};
use std::alloc::Global;
use std::marker::Brand;
use std::sync::Wait;
use std::thread::Threads;

/// Serves a net over the disks, so set up, until it is closed, and drains all. All shards start before a port is bound.
pub(crate) fn run_server<
    R: Threads + Wait + Sync,
    D: Disk + Send + Drop,
    K: Sink,
    C: Clock + Sync,
    E: Net + Sync,
>(
    rt: &R,
    alloc: Global,
    disks: Vec<D>,
    setup: &Setup,
    options: ServeOptions,
    agg_rules: &AggRules,
    out: &mut K,
    clock: &C,
    net: &mut E,
) -> Report<D>
where
    E::L: Drop + Send,
    requires disks { vec_len disks ≡ 16 }
    requires workers { HasWorkers options }
    ensures runs { ServeRuns D.Disk E.faults net.old net.new (settings_of setup.now)
        setup.now.redo
        (staff_of C.Clock E.L.Source E.L.Sink clock.now agg_rules.now (duties_of options)
        (passes_for options))
        (unread (K.written out.old) (K.written out.new)) disks.items
        (answer_of result.status result.history result.disks.items) }
    ensures writes { CountsWrites K.Sink out.old out.new (result.status ≡ 7) }
    ensures all { vec_len result.disks ≡ 16 }
    ensures net { E.faults net.old ≤ E.faults net.new }
{
    match start_all(alloc, disks, setup) {
        Ok(started) => bind_shards(rt, alloc, started, options, agg_rules, out, clock, net),
        Err(refused) => {
            let status = tell_refusal(&refused.refusal, out);
            Report::without_command(status, refused.disks)
        }
    }
}

// Binds the ports, and serves them over shards that have started.
fn bind_shards<
    R: Threads + Wait + Sync,
    D: Disk + Send + Drop,
    K: Sink,
    C: Clock + Sync,
    E: Net + Sync,
>(
    rt: &R,
    alloc: Global,
    started: Started<D>,
    options: ServeOptions,
    agg_rules: &AggRules,
    out: &mut K,
    clock: &C,
    net: &mut E,
) -> Report<D>
where
    E::L: Drop + Send,
    requires ready { AreReadyShards (told_at started.shards.items) (opening_of started.shards.items)
        (faults_at started.shards.items) started.shards.items }
    requires workers { HasWorkers options }
    ensures serves { LacksPort E.faults net.old net.new started.shards.items
        (unread (K.written out.old) (K.written out.new))
        (answer_of result.status result.history result.disks.items)
        ⊎ ServesShards
        (staff_of C.Clock E.L.Source E.L.Sink clock.now agg_rules.now (duties_of options)
        (passes_for options))
        (told_at started.shards.items) (opening_of started.shards.items)
        (faults_at started.shards.items) started.shards.items
        (unread (K.written out.old) (K.written out.new))
        (answer_of result.status result.history result.disks.items) }
    ensures writes { CountsWrites K.Sink out.old out.new (result.status ≡ 7) }
    ensures all { vec_len result.disks ≡ 16 }
    ensures net { E.faults net.old ≤ E.faults net.new }
{
    match net.bind(options.line_port, options.http_port, options.links) {
        Ok(()) => serve_shards(rt, alloc, started, options, agg_rules, out, clock, net),
        Err(NetFailed) => report_no_port(started.shards, started.room, out),
    }
}

// Serves ports that are bound over shards that have started, with a history of their own.
fn serve_shards<
    R: Threads + Wait + Sync,
    D: Disk + Send + Drop,
    K: Sink,
    C: Clock + Sync,
    E: Net + Sync,
>(
    rt: &R,
    alloc: Global,
    started: Started<D>,
    options: ServeOptions,
    agg_rules: &AggRules,
    out: &mut K,
    clock: &C,
    net: &E,
) -> Report<D>
where
    E::L: Drop + Send,
    requires ready { AreReadyShards (told_at started.shards.items) (opening_of started.shards.items)
        (faults_at started.shards.items) started.shards.items }
    requires workers { HasWorkers options }
    ensures serves { ServesShards
        (staff_of C.Clock E.L.Source E.L.Sink clock.now agg_rules.now (duties_of options)
        (passes_for options))
        (told_at started.shards.items) (opening_of started.shards.items)
        (faults_at started.shards.items) started.shards.items
        (unread (K.written out.old) (K.written out.new))
        (answer_of result.status result.history result.disks.items) }
    ensures writes { CountsWrites K.Sink out.old out.new (result.status ≡ 7) }
    ensures all { vec_len result.disks ≡ 16 }
{
    let Started { shards, room } = started;
    let Ok((order, tails, passes)) = make(alloc, CLASSES, passes_for(options)) else {
        return report_no_memory(shards, room, out);
    };
    let Ok(crew) = Crew::new(alloc, passes, duties_of(options)) else {
        return report_no_memory(shards, room, out);
    };
    let Ok(pairs) = make_pairs(alloc) else {
        return report_no_memory(shards, room, out);
    };
    let parts = Parts {
        order,
        tails,
        pairs,
        shards,
    };
    serve_parts::<Brand, R, D, K, C, E>(rt, alloc, parts, crew, agg_rules, room, out, clock, net)
}

// A pass for each worker, and one for the run itself.
fn passes_for(options: ServeOptions) -> u32
    requires { HasWorkers options }
    ensures { result ≡ passes_for options }
{
    options.receivers + options.renderers + options.drains.drainers + 1
}

// What the workers do.
fn duties_of(options: ServeOptions) -> Duties
    ensures { result ≡ duties_of options }
{
    Duties {
        receivers: options.receivers,
        renderers: options.renderers,
        answer_bytes: options.answer_bytes,
        pace: Pace {
            drains: options.drains.pace,
            creates: options.drains.creates,
        },
    }
}

// Serves them over a store of these parts.
fn serve_parts<
    N: Named + Send + Sync,
    R: Threads + Wait + Sync,
    D: Disk + Send + Drop,
    K: Sink,
    C: Clock + Sync,
    E: Net + Sync,
>(
    rt: &R,
    alloc: Global,
    parts: Parts<D>,
    crew: Crew,
    agg_rules: &AggRules,
    room: Vec<D>,
    out: &mut K,
    clock: &C,
    net: &E,
) -> Report<D>
where
    E::L: Drop + Send,
    requires fresh { IsFresh N.table N.passes N.halves N.told N.start N.faults parts }
    requires crew { IsNewCrew N.table N.passes crew }
    requires room { (vec_len room ≡ 0) × (16 ≤ vec_capacity room) }
    ensures serves { ServesShards
        (staff_of C.Clock E.L.Source E.L.Sink clock.now agg_rules.now crew.duties N.passes)
        N.told N.start N.faults parts.shards.items
        (unread (K.written out.old) (K.written out.new))
        (answer_of result.status result.history result.disks.items) }
    ensures writes { CountsWrites K.Sink out.old out.new (result.status ≡ 7) }
    ensures all { vec_len result.disks ≡ 16 }
{
    match Store::<D, N>::start(alloc, parts) {
        Ok(store) => serve_store(rt, alloc, store, crew, agg_rules, out, clock, net),
        Err(parts) => report_no_memory(parts.shards, room, out),
    }
}

// Serves them over a store, and tells how that ended.
fn serve_store<
    N: Named + Send + Sync,
    R: Threads + Wait + Sync,
    D: Disk + Send + Drop,
    K: Sink,
    C: Clock + Sync,
    E: Net + Sync,
>(
    rt: &R,
    alloc: Global,
    store: Store<D, N>,
    crew: Crew,
    agg_rules: &AggRules,
    out: &mut K,
    clock: &C,
    net: &E,
) -> Report<D>
where
    E::L: Drop + Send,
    requires crew { IsNewCrew N.table N.passes crew }
    ensures serves { ServesAll D.Disk
        (staff_of C.Clock E.L.Source E.L.Sink clock.now agg_rules.now crew.duties N.passes)
        N.told N.start N.faults
        (unread (K.written out.old) (K.written out.new))
        (answer_of result.status result.history result.disks.items) }
    ensures writes { CountsWrites K.Sink out.old out.new (result.status ≡ 7) }
    ensures all { vec_len result.disks ≡ 16 }
{
    let Served { end, closed } = serve(rt, alloc, store, crew, clock, net, agg_rules);
    let Closed {
        history,
        tally,
        disks,
    } = closed;
    let status = tell_served(end, &tally, out);
    Report {
        status,
        history,
        disks,
    }
}

// Tells how a server ended.
fn tell_served<K: Sink>(end: DrainEnd, tally: &Tally, out: &mut K) -> u8
    ensures told { TellsServed end tally.now result (K.written out.old) (K.written out.new) }
    ensures writes { CountsWrites K.Sink out.old out.new (result ≡ 7) }
{
    match end {
        DrainEnd::Done(_) => tell_tally(out, tally),
        DrainEnd::DiskFault(class) => tell_disk_fault(out, class),
        DrainEnd::Spent => tell_limit(out),
        DrainEnd::NoMemory => tell_no_memory(out),
    }
}

// Tells that there is no port, and hands the disks back.
fn report_no_port<D: Disk, K: Sink>(shards: Vec<Shard<D>>, room: Vec<D>, out: &mut K) -> Report<D>
    requires empty { vec_len room ≡ 0 }
    requires room { vec_len shards ≤ vec_capacity room }
    ensures told { TellsAlone 9 no_port_line result.status (K.written out.old) (K.written out.new) }
    ensures writes { CountsWrites K.Sink out.old out.new (result.status ≡ 7) }
    ensures history { result.history ≡ [] }
    ensures disks { result.disks.items ≡ map (λ shard. shard.files.disk) shards.items }
{
    let status = tell_no_port(out);
    Report::without_command(status, hand_back(shards, room))
}

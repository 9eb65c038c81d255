//! The command `script`, once the rule files are read.
ghost use Rattle.std.specs.Prelude.{◌≡◌, ◌⊎◌, ◌<◌, ◌≤◌, ◌∷◌, ◌++◌, [], map, option_map, vec_capacity, vec_len};
ghost use Rattle.outside_io.specs.Frames.{CountsReads, CountsWrites};
ghost use Rattle.shard_set.specs.Disks.{faults_at, told_at};
ghost use Rattle.shard_set.specs.Opening.{settings_of};
ghost use Rattle.shard_core.specs.Started.{AreReadyShards};
ghost use Rattle.shard_set.specs.OpeningState.{opening_of};
ghost use Rattle.sample_text.specs.Sources.{left_of};
ghost use Rattle.shared_history.specs.Parts.{AreNewPasses, IsNewPass};
ghost use Rattle.carbon_script.specs.Alone.{IsOnly};
ghost use Rattle.shared_store.specs.Starts.{IsFresh};
ghost use Rattle.carbon_run.specs.Runs.{CameTo, EndsOverWith, FailsToTell, NoStart, Scripted, TellsAlone, TellsEnd, TellsStart, answer_of, behind, streams_of};
ghost use Rattle.carbon_run.specs.Texts.{no_memory_line};
ghost use Rattle.carbon_run.specs.Stores.{RunsShards};

use crate::Report;
use crate::fault_lines::{
    tell_damaged, tell_disk_fault, tell_limit, tell_no_memory, tell_read_fault,
};
use carbon_script::{ScriptEnd, Scripted as ServedScript, script, script_behind};
use metric_path::CLASSES;
use outside_io::{Disk, Sink, Source};
use sample_text::SampleSource;
use shard_core::{Shard, StartFault};
use shard_set::{Refusal, Setup, Started, hand_back, start_all};
use shared_history::{Pass, make};
use shared_store::{Closed, Named, Parts, Store, make_pairs};
use std::alloc::Global;
use std::marker::Brand;
use std::sync::Wait;

/// Runs the script of the input over the disks, so set up, behind a front if there is one. All shards start before the input is read.
pub(crate) fn run_script<R: Wait, D: Disk + Drop, S: Source, K: Sink>(
    rt: &R,
    alloc: Global,
    disks: Vec<D>,
    setup: &Setup,
    front: Option<SampleSource>,
    input: &mut S,
    out: &mut K,
) -> Report<D>
    requires { vec_len disks ≡ 16 }
    ensures comes { NoStart D.Disk
        (behind (option_map left_of front)
        (streams_of S.Source K.Sink input.old input.new out.old out.new)) disks.items
        (answer_of result.status result.history result.disks.items)
        ⊎ Scripted D.Disk (settings_of setup.now) setup.now.redo
        (behind (option_map left_of front)
        (streams_of S.Source K.Sink input.old input.new out.old out.new)) disks.items
        (answer_of result.status result.history result.disks.items) }
    ensures reads { CountsReads S.Source input.old input.new (result.status ≡ 6) }
    ensures writes { CountsWrites K.Sink out.old out.new (result.status ≡ 7) }
    ensures all { vec_len result.disks ≡ 16 }
{
    match start_all(alloc, disks, setup) {
        Ok(started) => run_shards(rt, alloc, started, front, input, out),
        Err(refused) => {
            let status = tell_refusal(&refused.refusal, out);
            Report::without_command(status, refused.disks)
        }
    }
}

// Runs the script of the input over shards that have started, with a history of their own.
fn run_shards<R: Wait, D: Disk + Drop, S: Source, K: Sink>(
    rt: &R,
    alloc: Global,
    started: Started<D>,
    front: Option<SampleSource>,
    input: &mut S,
    out: &mut K,
) -> Report<D>
    requires { AreReadyShards (told_at started.shards.items) (opening_of started.shards.items)
        (faults_at started.shards.items) started.shards.items }
    ensures runs { RunsShards (told_at started.shards.items) (opening_of started.shards.items)
        (faults_at started.shards.items) started.shards.items
        (behind (option_map left_of front)
        (streams_of S.Source K.Sink input.old input.new out.old out.new))
        (answer_of result.status result.history result.disks.items) }
    ensures reads { CountsReads S.Source input.old input.new (result.status ≡ 6) }
    ensures writes { CountsWrites K.Sink out.old out.new (result.status ≡ 7) }
    ensures all { vec_len result.disks ≡ 16 }
{
    let Started { shards, room } = started;
    match make(alloc, CLASSES, 1) {
        Ok((order, tails, passes)) => {
            let Ok(pairs) = make_pairs(alloc) else {
                return report_no_memory(shards, room, out);
            };
            let parts = Parts {
                order,
                tails,
                pairs,
                shards,
            };
            run_parts::<Brand, R, D, S, K>(rt, alloc, parts, passes, room, front, input, out)
        }
        Err(_) => report_no_memory(shards, room, out),
    }
}

// Runs the script of the input over a store of these parts.
fn run_parts<N: Named, R: Wait, D: Disk + Drop, S: Source, K: Sink>(
    rt: &R,
    alloc: Global,
    parts: Parts<D>,
    passes: Vec<Pass>,
    room: Vec<D>,
    front: Option<SampleSource>,
    input: &mut S,
    out: &mut K,
) -> Report<D>
    requires fresh { IsFresh N.table N.passes N.halves N.told N.start N.faults parts }
    requires one { (N.passes ≡ 1) × (vec_len passes ≡ 1) }
    requires new { AreNewPasses N.table passes.items }
    requires room { (vec_len room ≡ 0) × (16 ≤ vec_capacity room) }
    ensures runs { RunsShards N.told N.start N.faults parts.shards.items
        (behind (option_map left_of front)
        (streams_of S.Source K.Sink input.old input.new out.old out.new))
        (answer_of result.status result.history result.disks.items) }
    ensures reads { CountsReads S.Source input.old input.new (result.status ≡ 6) }
    ensures writes { CountsWrites K.Sink out.old out.new (result.status ≡ 7) }
    ensures all { vec_len result.disks ≡ 16 }
{
    match Store::<D, N>::start(alloc, parts) {
        Ok(store) => run_store(rt, alloc, store, passes, front, input, out),
        Err(parts) => report_no_memory(parts.shards, room, out),
    }
}

// Runs the script of the input over a store, by the one pass of the store, and ends the store.
fn run_store<N: Named, R: Wait, D: Disk + Drop, S: Source, K: Sink>(
    rt: &R,
    alloc: Global,
    store: Store<D, N>,
    passes: Vec<Pass>,
    front: Option<SampleSource>,
    input: &mut S,
    out: &mut K,
) -> Report<D>
    requires one { (N.passes ≡ 1) × (vec_len passes ≡ 1) }
    requires new { AreNewPasses N.table passes.items }
    ensures came { CameTo D.Disk N.told N.start N.faults
        (behind (option_map left_of front)
        (streams_of S.Source K.Sink input.old input.new out.old out.new))
        (answer_of result.status result.history result.disks.items) }
    ensures reads { CountsReads S.Source input.old input.new (result.status ≡ 6) }
    ensures writes { CountsWrites K.Sink out.old out.new (result.status ≡ 7) }
    ensures all { vec_len result.disks ≡ 16 }
{
    let mut passes = passes;
    let Some(pass) = passes.pop() else {
        unreachable!()
    };
    let served = serve_script(rt, alloc, &store, pass, front, input, out);
    let status = tell_end(served.end, out);
    put_back(&mut passes, served.pass);
    let Closed {
        history,
        tally: _,
        disks,
    } = store.close(rt, passes);
    Report {
        status,
        history,
        disks,
    }
}

// Serves the script of the input by the one pass of a store. What the lines of a front say is not written.
fn serve_script<N: Named, R: Wait, D: Disk, S: Source, K: Sink>(
    rt: &R,
    alloc: Global,
    store: &Store<D, N>,
    pass: Pass,
    front: Option<SampleSource>,
    input: &mut S,
    out: &mut K,
) -> ServedScript
    requires alone { N.passes ≡ 1 }
    requires new { IsNewPass N.table 0 pass }
    ensures ends { EndsOverWith N.told N.start result (option_map left_of front)
        (S.left input.old) (K.written out.old) (S.left input.new) (K.written out.new) }
    ensures only { IsOnly N.table N.start result.pass }
    ensures reads { CountsReads S.Source input.old input.new (result.end ≡ ScriptEnd.ReadFault) }
    ensures writes { CountsWrites K.Sink out.old out.new (result.end ≡ ScriptEnd.WriteFault) }
{
    match front {
        Some(mut front) => script_behind(rt, alloc, store, pass, &mut front, input, out),
        None => script(rt, alloc, store, pass, input, out),
    }
}

// Puts a pass into a list that has room for it.
fn put_back(passes: &mut Vec<Pass>, pass: Pass)
    requires { vec_len passes.old < vec_capacity passes.old }
    ensures { passes.new.items ≡ passes.old.items ++ pass ∷ [] }
{
    match passes.push(pass) {
        Ok(()) => {}
        Err(_) => unreachable!(),
    }
}

// Writes the fault line of a script's end, and answers the exit status.
fn tell_end<K: Sink>(end: ScriptEnd, out: &mut K) -> u8
    ensures told { TellsEnd end result (K.written out.old) (K.written out.new) }
    ensures writes { CountsWrites K.Sink out.old out.new (FailsToTell end result) }
{
    match end {
        ScriptEnd::Done => 0,
        ScriptEnd::ReadFault => tell_read_fault(out),
        ScriptEnd::WriteFault => 7,
        ScriptEnd::DiskFault(class) => tell_disk_fault(out, class),
        ScriptEnd::InputLimit => tell_limit(out),
        ScriptEnd::Spent => tell_limit(out),
        ScriptEnd::NoMemory => tell_no_memory(out),
    }
}

/// Tells that memory ran out before the command began, and hands the disks back.
pub(crate) fn report_no_memory<D: Disk, K: Sink>(
    shards: Vec<Shard<D>>,
    room: Vec<D>,
    out: &mut K,
) -> Report<D>
    requires empty { vec_len room ≡ 0 }
    requires room { vec_len shards ≤ vec_capacity room }
    ensures told { TellsAlone 8 no_memory_line result.status (K.written out.old)
        (K.written out.new) }
    ensures writes { CountsWrites K.Sink out.old out.new (result.status ≡ 7) }
    ensures history { result.history ≡ [] }
    ensures disks { result.disks.items ≡ map (λ shard. shard.files.disk) shards.items }
{
    let status = tell_no_memory(out);
    Report::without_command(status, hand_back(shards, room))
}

/// Tells why the shards did not start.
pub(crate) fn tell_refusal<K: Sink>(refusal: &Refusal, out: &mut K) -> u8
    ensures told { TellsStart refusal.now.fault refusal.now.class result (K.written out.old)
        (K.written out.new) }
    ensures writes { CountsWrites K.Sink out.old out.new (result ≡ 7) }
{
    match &refusal.fault {
        StartFault::Damaged(name) => tell_damaged(out, name),
        StartFault::DiskFault => tell_disk_fault(out, refusal.class),
        StartFault::NoMemory => tell_no_memory(out),
    }
}

//! Putting the points that a link's rules emit.
ghost use Rattle.std.specs.Prelude.{◌≡◌, ◌≢◌, ◌<◌, length, OnOk, IfErr, IfOk, map};
ghost use Rattle.metric_line.specs.Seen.{seen};
ghost use Rattle.shared_store.specs.Pieces.{HasRoomFor};
ghost use Rattle.line_front.specs.Emits.{ClosesAs, PutsFew, PutsPart, StopsPut};
ghost use Rattle.line_front.specs.Points.{PutsEach, PutsPoint, emitted_at_end};

use crate::ends::LineCause;
use crate::room::call_room;
use crate::serve::cause_of;
use crate::session::end_of;
use crate::waiting::FEWEST_TOGETHER;
use aggregate_front::Aggregator;
use line_service::{ServiceEnd, Stop};
use metric_line::Datum;
use outside_io::Disk;
use shared_store::{Named, Store, StorePass, has_room};
use std::alloc::Global;
use std::sync::Wait;

/// Puts points one after the other, while the pass has room for the entries of a call: many
/// together.
pub(crate) fn put_emitted<R: Wait, D: Disk, N: Named>(
    rt: &R,
    alloc: Global,
    store: &Store<D, N>,
    pass: &mut StorePass<N>,
    points: &[Datum],
) -> Result<(), Stop>
    ensures puts { OnOk result
        (PutsEach N.start N.passes (map seen points.now) pass.old pass.new) }
    ensures stops { IfErr result
        (λ reason. PutsFew N.start N.passes (map seen points.now) reason pass.old pass.new) }
{
    let mut at = 0;
    while at < points.len() {
        match put_part(rt, alloc, store, pass, &points[at..]) {
            Ok(count) => at += count,
            Err(stop) => return Err(stop),
        }
    }
    Ok(())
}

// Puts some points at the front, how many: as many as a call has room for, or the first.
fn put_part<R: Wait, D: Disk, N: Named>(
    rt: &R,
    alloc: Global,
    store: &Store<D, N>,
    pass: &mut StorePass<N>,
    points: &[Datum],
) -> Result<usize, Stop>
    requires some { 0 < length points.now }
    ensures puts { IfOk result
        (λ count. PutsPart N.start N.passes points.now count pass.old pass.new) }
    ensures stops { IfErr result
        (λ reason. PutsFew N.start N.passes (map seen points.now) reason pass.old pass.new) }
{
    let count = points.len().min(call_room(pass));
    if count < FEWEST_TOGETHER {
        return put_first(rt, store, pass, points);
    }
    match put_many(rt, alloc, store, pass, &points[..count]) {
        Ok(()) => Ok(count),
        Err(stop) => Err(stop),
    }
}

// Puts the first point.
fn put_first<R: Wait, D: Disk, N: Named>(
    rt: &R,
    store: &Store<D, N>,
    pass: &mut StorePass<N>,
    points: &[Datum],
) -> Result<usize, Stop>
    requires some { 0 < length points.now }
    ensures puts { IfOk result
        (λ count. PutsPart N.start N.passes points.now count pass.old pass.new) }
    ensures stops { IfErr result
        (λ reason. PutsFew N.start N.passes (map seen points.now) reason pass.old pass.new) }
{
    match put_point(rt, store, pass, &points[0]) {
        Ok(()) => Ok(1),
        Err(stop) => Err(stop),
    }
}

// Puts points by one call of the store.
fn put_many<R: Wait, D: Disk, N: Named>(
    rt: &R,
    alloc: Global,
    store: &Store<D, N>,
    pass: &mut StorePass<N>,
    points: &[Datum],
) -> Result<(), Stop>
    requires some { 0 < length points.now }
    requires room { HasRoomFor points.now pass.old }
    ensures puts { OnOk result
        (PutsEach N.start N.passes (map seen points.now) pass.old pass.new) }
    ensures stops { IfErr result
        (λ reason. PutsFew N.start N.passes (map seen points.now) reason pass.old pass.new) }
{
    let puts = store.put_all(rt, alloc, pass, points);
    if puts.done < points.len() as u64 {
        return Err(Stop::NoMemory);
    }
    Ok(())
}

// Puts a point, if the pass has room for the entries of a call.
#[tactic(auto, using(crate::proofs::EmitLemmas::puts_told, crate::proofs::EmitLemmas::stops_told))]
fn put_point<R: Wait, D: Disk, N: Named>(
    rt: &R,
    store: &Store<D, N>,
    pass: &mut StorePass<N>,
    datum: &Datum,
) -> Result<(), Stop>
    ensures puts { OnOk result (PutsPoint N.start N.passes (seen datum.now) pass.old pass.new) }
    ensures stops { IfErr result
        (λ reason. StopsPut N.start N.passes reason pass.old pass.new) }
{
    if !has_room(pass) {
        return Err(Stop::Spent);
    }
    let put = store.put(rt, pass, datum);
    match end_of(put) {
        Some(_) => Ok(()),
        None => Err(Stop::NoMemory),
    }
}

/// Why a link ended whose lines ended so: at its clean end what its rules have open is put.
#[tactic(auto, using(crate::proofs::EndLemmas::few_ends, crate::proofs::EndLemmas::closes_few))]
pub(crate) fn end_link<R: Wait, D: Disk, N: Named>(
    rt: &R,
    alloc: Global,
    store: &Store<D, N>,
    cause: LineCause,
    aggregator: Aggregator<'_>,
    pass: &mut StorePass<N>,
) -> LineCause
    ensures closed { cause ≡ LineCause.Closed
        → ClosesAs N.start N.passes result (emitted_at_end aggregator.entry) pass.old pass.new }
    ensures other { cause ≢ LineCause.Closed → (result ≡ cause) × (pass.new ≡ pass.old) }
{
    if cause != LineCause::Closed {
        return cause;
    }
    match put_open(rt, alloc, store, aggregator, pass) {
        Ok(()) => LineCause::Closed,
        Err(stop) => cause_of(ServiceEnd::Stopped(stop)),
    }
}

// Puts what rules have open at the end of a link.
#[tactic(auto, using(crate::proofs::EmitLemmas::few_none, crate::proofs::EmitLemmas::puts_same, crate::proofs::EmitLemmas::few_same))]
fn put_open<R: Wait, D: Disk, N: Named>(
    rt: &R,
    alloc: Global,
    store: &Store<D, N>,
    aggregator: Aggregator<'_>,
    pass: &mut StorePass<N>,
) -> Result<(), Stop>
    ensures puts { OnOk result
        (PutsEach N.start N.passes (emitted_at_end aggregator.entry) pass.old pass.new) }
    ensures stops { IfErr result
        (λ reason. PutsFew N.start N.passes (emitted_at_end aggregator.entry) reason pass.old pass.new) }
{
    match aggregator.finish() {
        Ok(points) => put_emitted(rt, alloc, store, pass, points.as_slice()),
        Err(_) => Err(Stop::NoMemory),
    }
}

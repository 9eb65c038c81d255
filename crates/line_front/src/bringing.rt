//! Bringing the points of a batch to the store and to the rules.
ghost use Rattle.std.specs.Prelude.{◌≡◌, ◌<◌, [], true, length, map, OnOk, OnErr, IfErr, IfOk};
ghost use Rattle.metric_line.specs.Seen.{seen};
ghost use Rattle.line_front.specs.Bringing.{FeedsFront};

use crate::emitting::put_emitted;
use crate::session::LineSession;
use aggregate_front::Aggregator;
use line_service::Stop;
use metric_line::Datum;
use outside_io::{Clock, Disk};
use shared_store::{MOST_CALL_ENTRIES, Named};
use std::alloc::{AllocError, Global};
use std::sync::Wait;

/// The first points of a batch that rules were given: how many, and what they emit for the last of
/// these. For those before it they emit nothing.
#[derive(Drop)]
pub(crate) struct Fed {
    count: usize,
    emitted: Vec<Datum>,
}

impl<'a, R: Wait, D: Disk, N: Named, C: Clock> LineSession<'a, R, D, N, C> {
    ghost use Rattle.std.specs.Prelude.{◌≡◌, ◌<◌, true, length, map, OnOk, OnErr, IfErr, IfOk};
    ghost use Rattle.metric_line.specs.Seen.{seen};
    ghost use Rattle.shared_store.specs.Pieces.{HasRoomFor};
    ghost use Rattle.line_front.specs.Bringing.{BringsAll, BringsFewer, BringsPart, FeedsBatch, FewBehind, PutsBehind};

    // Puts the points of a batch in order, and behind each those that the rules emit for it.
    #[tactic(auto, using(crate::proofs::BringLemmas::plain_ok, crate::proofs::BringLemmas::plain_err))]
    pub(crate) fn bring_points(&mut self, points: &[Datum]) -> Result<(), Stop>
        requires room { HasRoomFor points.now self.old.session.pass }
        ensures brings { OnOk result
            (BringsAll N.start N.passes points.now self.old.session self.new.session) }
        ensures stops { IfErr result (λ stop. BringsFewer N.start N.passes stop points.now
            self.old.session self.new.session) }
        ensures watch { self.new.watch ≡ self.old.watch }
    {
        if self.lacks_rules() {
            return self.put_points(points);
        }
        self.bring_parts(points)
    }

    // The same, part by part.
    fn bring_parts(&mut self, points: &[Datum]) -> Result<(), Stop>
        ensures brings { OnOk result
            (BringsAll N.start N.passes points.now self.old.session self.new.session) }
        ensures stops { IfErr result (λ stop. BringsFewer N.start N.passes stop points.now
            self.old.session self.new.session) }
        ensures watch { self.new.watch ≡ self.old.watch }
    {
        let mut at = 0;
        while at < points.len() {
            match self.bring_part(&points[at..]) {
                Ok(count) => at += count,
                Err(stop) => return Err(stop),
            }
        }
        Ok(())
    }

    // The same of some points at the front, how many.
    fn bring_part(&mut self, points: &[Datum]) -> Result<usize, Stop>
        requires some { 0 < length points.now }
        ensures brings { IfOk result (λ count. BringsPart N.start N.passes points.now count
            self.old.session self.new.session) }
        ensures stops { IfErr result (λ stop. BringsFewer N.start N.passes stop points.now
            self.old.session self.new.session) }
        ensures watch { self.new.watch ≡ self.old.watch }
    {
        if self.has_room_for(points) {
            return self.bring_front(points);
        }
        self.bring_first(points)
    }

    // Whether the pass has room for the entries of a call and one for each point.
    fn has_room_for(&self, points: &[Datum]) -> bool
        ensures { result ≡ true → HasRoomFor points.now self.now.session.pass }
    {
        self.pass.left().saturating_sub(MOST_CALL_ENTRIES - 1) > points.len() as u64
    }

    // Brings the first point, if the pass has room for it.
    #[tactic(auto, using(crate::proofs::BringLemmas::first_brings))]
    fn bring_first(&mut self, points: &[Datum]) -> Result<usize, Stop>
        requires some { 0 < length points.now }
        ensures brings { IfOk result (λ count. BringsPart N.start N.passes points.now count
            self.old.session self.new.session) }
        ensures stops { IfErr result (λ stop. BringsFewer N.start N.passes stop points.now
            self.old.session self.new.session) }
        ensures watch { self.new.watch ≡ self.old.watch }
    {
        match self.room() {
            Ok(()) => {}
            Err(stop) => return Err(stop),
        }
        match self.bring(&points[0]) {
            Ok(()) => Ok(1),
            Err(stop) => Err(stop),
        }
    }

    // Puts together the points up to the first for which the rules emit others, and then these.
    fn bring_front(&mut self, points: &[Datum]) -> Result<usize, Stop>
        requires some { 0 < length points.now }
        requires room { HasRoomFor points.now self.old.session.pass }
        ensures brings { IfOk result (λ count. BringsPart N.start N.passes points.now count
            self.old.session self.new.session) }
        ensures stops { IfErr result (λ stop. BringsFewer N.start N.passes stop points.now
            self.old.session self.new.session) }
        ensures watch { self.new.watch ≡ self.old.watch }
    {
        let Ok(fed) = self.feed_front(points) else {
            return Err(Stop::NoMemory);
        };
        match self.put_points(&points[..fed.count]) {
            Ok(()) => {}
            Err(stop) => return Err(stop),
        }
        match self.put_behind(fed.emitted.as_slice()) {
            Ok(()) => Ok(fed.count),
            Err(stop) => Err(stop),
        }
    }

    // Puts the points that the rules emit for the last one.
    #[tactic(auto, using(crate::proofs::BringLemmas::behind_ok, crate::proofs::BringLemmas::behind_err))]
    fn put_behind(&mut self, points: &[Datum]) -> Result<(), Stop>
        ensures puts { OnOk result (PutsBehind N.start N.passes (map seen points.now)
            self.old.session self.new.session) }
        ensures stops { IfErr result (λ stop. FewBehind N.start N.passes (map seen points.now) stop
            self.old.session self.new.session) }
        ensures watch { self.new.watch ≡ self.old.watch }
    {
        put_emitted(self.rt, self.alloc, self.store, &mut self.pass, points)
    }

    // Gives points to the rules, up to the first for which they emit others.
    fn feed_front(&mut self, points: &[Datum]) -> Result<Fed, AllocError>
        requires some { 0 < length points.now }
        ensures feeds { IfOk result (λ fed. FeedsBatch points.now fed.count fed.emitted.items
            self.old.session self.new.session) }
        ensures none { OnErr result (self.new ≡ self.old) }
        ensures watch { self.new.watch ≡ self.old.watch }
    {
        feed_quiet(&mut self.aggregator, self.alloc, points)
    }
}

// Gives points to the rules, up to the first for which they emit others, or for which there is no
// memory, unless that is the first of all.
fn feed_quiet(
    aggregator: &mut Aggregator<'_>,
    alloc: Global,
    points: &[Datum],
) -> Result<Fed, AllocError>
    requires some { 0 < length points.now }
    ensures feeds { IfOk result (λ fed. FeedsFront points.now fed.count (map seen fed.emitted.items)
        aggregator.old aggregator.new) }
    ensures none { OnErr result (aggregator.new ≡ aggregator.old) }
{
    let mut count = 0;
    while count < points.len() {
        match aggregator.feed(&points[count]) {
            Ok(emitted) => {
                count += 1;
                if !emitted.is_empty() {
                    return Ok(Fed { count, emitted });
                }
            }
            Err(fault) => {
                if count == 0 {
                    return Err(fault);
                }
                return Ok(fed_quiet(alloc, count));
            }
        }
    }
    Ok(fed_quiet(alloc, count))
}

// So many points, for which the rules emit nothing.
fn fed_quiet(alloc: Global, count: usize) -> Fed
    ensures { (result.count ≡ count) × (result.emitted.items ≡ []) }
{
    Fed {
        count,
        emitted: Vec::new(alloc),
    }
}

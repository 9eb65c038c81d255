//! What serves the lines of one link.
ghost use Rattle.std.specs.Prelude.{◌≡◌, true};
ghost use Rattle.line_front.specs.Ends.{end_of};

use crate::counts::Counts;
use crate::emitting::put_emitted;
use aggregate_front::Aggregator;
use aggregate_rules::AggRules;
use carbon_history::PutEnd;
use clock_watch::Watch;
use line_service::{LineServer, Stop};
use metric_line::{Datum, LineFault, read_line};
use metric_path::MetricPath;
use outside_io::{Clock, Disk, Sink};
use point_cache::Put;
use shared_store::{MOST_CALL_ENTRIES, Named, Store, StorePass};
use std::alloc::Global;
use std::marker::Model;
use std::sync::Wait;

/// Puts the lines of a link into a store by a pass, at the moments of a clock, and counts them. Behind
/// each point are put those that the rules emit for it.
#[derive(Drop)]
pub(crate) struct LineSession<'a, R: Wait, D: Disk, N: Named, C: Clock> {
    pub(crate) rt: &'a R,
    pub(crate) store: &'a Store<D, N>,
    pub(crate) clock: &'a C,
    // What the clock is read by, once for each line that is not too long.
    pub(crate) watch: Watch<C>,
    pub(crate) pass: StorePass<N>,
    pub(crate) counts: Counts,
    pub(crate) rules: &'a AggRules,
    // What the rules have gathered of the link.
    pub(crate) aggregator: Aggregator<'a>,
    pub(crate) alloc: Global,
    // The buffer for the points of a batch.
    pub(crate) points: Vec<Datum>,
    // The paths of the points before, whose memory the next ones take.
    pub(crate) spares: Vec<MetricPath>,
}

impl<'a, R: Wait, D: Disk, N: Named, C: Clock> Model for LineSession<'a, R, D, N, C> {
    ghost use Rattle.std.specs.Prelude.{◌≡◌};
    ghost use Rattle.line_front.specs.Sessions.{LinkValue};

    ghost Value = { LinkValue C };

    ghost view = { λ s. record {
      watch = record { clock = s.clock.now; told = s.watch };
      session = record { pass = s.pass; counts = s.counts; gathered = s.aggregator };
    } };

    ghost invariant = { λ s. s.aggregator.rules ≡ s.rules.now };
}

impl<'a, R: Wait, D: Disk, N: Named, C: Clock> LineSession<'a, R, D, N, C> {
    ghost use Rattle.std.specs.Prelude.{◌≡◌, OnOk, IfErr, true};
    ghost use Rattle.metric_line.specs.Seen.{seen};
    ghost use Rattle.shared_store.specs.Passes.{HasRoom};
    ghost use Rattle.line_front.specs.Links.{Brings, Puts};
    ghost use Rattle.line_front.specs.Batches.{HasNoRules};
    ghost use Rattle.line_front.specs.Emits.{Gathers, GathersFew, StopsBring};
    ghost use Rattle.fixed_num.specs.Moment.{is_moment};
    ghost use Rattle.line_front.specs.Sessions.{PutsNone, Refuses, TellsRoom, with_reading};

    // Whether the pass has room for what a call of the store may enter.
    #[tactic(auto, using(crate::proofs::SessionLemmas::has_room, crate::proofs::SessionLemmas::has_none))]
    pub(crate) fn room(&self) -> Result<(), Stop>
        ensures { TellsRoom result self.now.session.pass }
    {
        if self.pass.left() < MOST_CALL_ENTRIES {
            Err(Stop::Spent)
        } else {
            Ok(())
        }
    }

    // The moment of a line. The clock is read once.
    fn moment(&mut self) -> u32
        ensures told { C.moments self.old.watch.clock result }
        ensures legal { is_moment result ≡ true }
        ensures new { self.new ≡ with_reading self.old result }
    {
        self.watch.read(self.clock)
    }

    // Puts the point of a line, and counts how that ended.
    #[tactic(auto, using(crate::proofs::SessionLemmas::puts_point, crate::proofs::SessionLemmas::puts_none))]
    pub(crate) fn put(&mut self, datum: &Datum) -> Result<(), Stop>
        requires { HasRoom self.old.session.pass }
        ensures puts { OnOk result
            (Puts N.start N.passes (seen datum.now) self.old.session self.new.session) }
        ensures stops { IfErr result
            (λ reason. PutsNone N.start N.passes reason self.old.session self.new.session) }
        ensures watch { self.new.watch ≡ self.old.watch }
    {
        let put = self.store.put(self.rt, &mut self.pass, datum);
        let Some(end) = end_of(put) else {
            return Err(Stop::NoMemory);
        };
        self.counts.count_put(end);
        Ok(())
    }

    // Puts the point of a line, and behind it those that the rules emit for it.
    #[tactic(auto, using(crate::proofs::EmitLemmas::bring_ok, crate::proofs::EmitLemmas::bring_err))]
    pub(crate) fn bring(&mut self, datum: &Datum) -> Result<(), Stop>
        requires { HasRoom self.old.session.pass }
        ensures brings { OnOk result
            (Brings N.start N.passes (seen datum.now) self.old.session self.new.session) }
        ensures stops { IfErr result (λ reason. StopsBring N.start N.passes (seen datum.now) reason
            self.old.session self.new.session) }
        ensures watch { self.new.watch ≡ self.old.watch }
    {
        match self.put(datum) {
            Ok(()) => self.gather(datum),
            Err(stop) => Err(stop),
        }
    }

    // Gives a point that was put to the rules, and puts those that they emit for it.
    #[tactic(auto, using(crate::proofs::EmitLemmas::gathers_none, crate::proofs::EmitLemmas::gather_ok, crate::proofs::EmitLemmas::gather_err, crate::proofs::EmitLemmas::few_unfed))]
    fn gather(&mut self, datum: &Datum) -> Result<(), Stop>
        ensures gathers { OnOk result
            (Gathers N.start N.passes (seen datum.now) self.old.session self.new.session) }
        ensures stops { IfErr result (λ reason. GathersFew N.start N.passes (seen datum.now) reason
            self.old.session self.new.session) }
        ensures watch { self.new.watch ≡ self.old.watch }
    {
        if self.lacks_rules() {
            return Ok(());
        }
        match self.aggregator.feed(datum) {
            Ok(points) => put_emitted(
                self.rt,
                self.alloc,
                self.store,
                &mut self.pass,
                points.as_slice(),
            ),
            Err(_) => Err(Stop::NoMemory),
        }
    }

    // Whether there are no rules that gather the points of the link.
    #[tactic(auto, using(crate::proofs::EmitLemmas::none_left))]
    pub(crate) fn lacks_rules(&self) -> bool
        ensures { result ≡ true → HasNoRules self.now.session }
    {
        self.rules.as_slice().is_empty()
    }

    // Counts a line that was refused. Want of memory is no refusal.
    pub(crate) fn refuse(&mut self, fault: LineFault) -> Result<(), Stop>
        ensures { Refuses fault result self.old self.new }
    {
        if fault == LineFault::NoMemory {
            return Err(Stop::NoMemory);
        }
        self.counts.count_refused(&fault);
        Ok(())
    }
}

impl<'a, R: Wait, D: Disk, N: Named, C: Clock> LineServer for LineSession<'a, R, D, N, C> {
    ghost use Rattle.line_front.specs.Sessions.{ServesLink, StopsLink};

    ghost serves = { λ old line before new after.
        ServesLink C.moments N.start N.passes old line before new after };

    ghost stops = { λ old line before reason new after.
        StopsLink C.moments N.start N.passes old line before reason new after };

    #[tactic(auto, using(crate::proofs::SessionLemmas::serves_bring, crate::proofs::EmitLemmas::stops_bring, crate::proofs::SessionLemmas::serves_refused, crate::proofs::SessionLemmas::stops_refused, crate::proofs::SessionLemmas::stops_spent))]
    fn serve_line<K: Sink>(&mut self, line: &[u8], out: &mut K) -> Result<(), Stop> {
        // A link that brings lines is never written to.
        let _ = out;
        self.room()?;
        let now = self.moment();
        match read_line(self.alloc, line, now) {
            Ok(datum) => self.bring(&datum),
            Err(fault) => self.refuse(fault),
        }
    }

    #[tactic(auto, using(crate::proofs::SessionLemmas::stops_spent))]
    fn serve_long<K: Sink>(&mut self, out: &mut K) -> Result<(), Stop> {
        let _ = out;
        self.room()?;
        self.counts.count_long();
        Ok(())
    }
}

// How a put ended, unless there was no memory for it.
pub(crate) fn end_of(put: Put) -> Option<PutEnd>
    ensures { result ≡ end_of put }
{
    match put {
        Put::Stored => Some(PutEnd::Stored),
        Put::Replaced => Some(PutEnd::Replaced),
        Put::Full => Some(PutEnd::Full),
        Put::NoMemory => None,
    }
}

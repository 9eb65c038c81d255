//! Serving the lines that wait, batch by batch.
ghost use Rattle.std.specs.Prelude.{◌≡◌};

use crate::batch::{MOST_BATCH_POINTS, NoPoint, empty, read_points};
use crate::session::LineSession;
use line_frame::Framer;
use line_service::{Stop, WaitingServer, serve_each};
use metric_line::{Datum, LineFault};
use outside_io::{Clock, Disk, Sink};
use shared_store::{MOST_CALL_ENTRIES, Named};
use std::mem;
use std::sync::Wait;

/// The fewest points that are put together, under the locks of all their classes.
pub(crate) const FEWEST_TOGETHER: usize = 16;

/// The most entries that the points of a batch make, without those that rules emit for them, and
/// the room that the line behind it wants.
const MOST_BATCH_ENTRIES: u64 = MOST_BATCH_POINTS as u64 + MOST_CALL_ENTRIES;

impl<'a, R: Wait, D: Disk, N: Named, C: Clock> LineSession<'a, R, D, N, C> {
    ghost use Rattle.std.specs.Prelude.{◌≡◌, ◌<◌, ◌≤◌, [], true, length, OnOk, IfErr, IfOk, Err};
    ghost use Rattle.outside_io.specs.Frames.{CountsWrites};
    ghost use Rattle.line_service.specs.declared.ends.Stop.TheVariants.{WriteFault};
    ghost use Rattle.line_service.specs.Service.{StepOf, StopsAt, standing};
    ghost use Rattle.line_service.specs.Standing.{ServesTo};
    ghost use Rattle.shared_store.specs.Passes.{HasRoom};
    ghost use Rattle.shared_store.specs.Pieces.{HasRoomFor};
    ghost use Rattle.line_front.specs.Batches.{BatchServes, BatchStops, EndsBatch, EndsLong, EndsRefused, HasBatchRoom, PutsAll, PutsFewer, ReadsPoints, reading};
    ghost use Rattle.line_front.specs.Sessions.{ServesLink, StopsLink, timed_of};

    // Hands out the buffer for the points of a batch.
    fn take_buffer(&mut self) -> Vec<Datum>
        ensures { self.new ≡ self.old }
    {
        mem::replace(&mut self.points, Vec::new(self.alloc))
    }

    // Keeps it for the next lines.
    fn keep_buffer(&mut self, points: Vec<Datum>)
        ensures { self.new ≡ self.old }
    {
        self.points = points;
    }

    // Serves the lines that wait: in batches while the pass has room for the points of a whole one,
    // and then one after the other.
    fn serve_batches<K: Sink>(
        &mut self,
        framer: &mut Framer,
        points: &mut Vec<Datum>,
        out: &mut K,
    ) -> Result<(), Stop>
        ensures serves { OnOk result
            (ServesTo (StepOf (ServesLink C.moments N.start N.passes)) framer.old
            (standing K.Sink self.old out.old) framer.new (standing K.Sink self.new out.new)) }
        ensures all { OnOk result (framer.new.waiting ≡ []) }
        ensures stops { IfErr result
            (λ stop. StopsAt (ServesLink C.moments N.start N.passes)
            (StopsLink C.moments N.start N.passes) stop (standing K.Sink self.old out.old)
            framer.old.waiting (standing K.Sink self.new out.new)) }
        ensures writes { CountsWrites K.Sink out.old out.new (result ≡ Err WriteFault) }
    {
        while self.has_batch_room() {
            match self.serve_batch(framer, points) {
                Ok(true) => {}
                Ok(false) => return Ok(()),
                Err(stop) => return Err(stop),
            }
        }
        serve_each(self, framer, out)
    }

    // Whether the pass has room for the entries of a batch's points and for the line behind it. For
    // what rules emit there room is looked for when it is put.
    #[tactic(auto, using(crate::proofs::PutLemmas::has_batch_room))]
    fn has_batch_room(&self) -> bool
        ensures { result ≡ true → HasBatchRoom self.now.session.pass }
    {
        self.pass.left() >= MOST_BATCH_ENTRIES
    }

    // Serves a batch of the lines that wait: its points are put, and then the line behind them is
    // counted that has none. Whether another line may wait.
    fn serve_batch(&mut self, framer: &mut Framer, points: &mut Vec<Datum>) -> Result<bool, Stop>
        requires room { HasBatchRoom self.old.session.pass }
        ensures serves { IfOk result
            (λ more. BatchServes (C.moments self.old.watch.clock) N.start N.passes more framer.old
            (timed_of self.old) framer.new (timed_of self.new)) }
        ensures stops { IfErr result
            (λ stop. BatchStops (C.moments self.old.watch.clock) N.start N.passes stop
            framer.old.waiting (timed_of self.old) (timed_of self.new)) }
        ensures clock { self.new.watch.clock ≡ self.old.watch.clock }
    {
        let read = self.read_batch(framer, points);
        match self.bring_points(points.as_slice()) {
            Ok(()) => self.end_batch(read),
            Err(stop) => Err(stop),
        }
    }

    // Reads the next batch of the lines that wait, in place of the points before.
    fn read_batch(&mut self, framer: &mut Framer, points: &mut Vec<Datum>) -> Result<(), NoPoint>
        ensures reads { ReadsPoints (C.moments self.old.watch.clock) result
            (reading self.old.watch.told framer.old) (reading self.new.watch.told framer.new)
            points.new.items }
        ensures few { length points.new.items ≤ 256 }
        ensures clock { self.new.watch.clock ≡ self.old.watch.clock }
        ensures session { self.new.session ≡ self.old.session }
    {
        empty(points, &mut self.spares);
        read_points(
            self.alloc,
            self.clock,
            &mut self.watch,
            &mut self.spares,
            framer,
            points,
        )
    }

    // Counts the line that has no point, if there is one.
    fn end_batch(&mut self, read: Result<(), NoPoint>) -> Result<bool, Stop>
        ensures { EndsBatch read result self.old self.new }
    {
        match read {
            Ok(()) => Ok(true),
            Err(NoPoint::Refused(fault)) => self.end_refused(fault),
            Err(NoPoint::Long) => self.end_long(),
            Err(NoPoint::NoLine) => Ok(false),
        }
    }

    // Counts a line that was refused, if the pass has room for a call.
    fn end_refused(&mut self, fault: LineFault) -> Result<bool, Stop>
        ensures { EndsRefused fault result self.old self.new }
    {
        match self.room() {
            Ok(()) => {}
            Err(stop) => return Err(stop),
        }
        match self.refuse(fault) {
            Ok(()) => Ok(true),
            Err(stop) => Err(stop),
        }
    }

    // Counts a line that was too long, if the pass has room for a call.
    fn end_long(&mut self) -> Result<bool, Stop>
        ensures { EndsLong result self.old self.new }
    {
        match self.room() {
            Ok(()) => {}
            Err(stop) => return Err(stop),
        }
        self.counts.count_long();
        Ok(true)
    }

    // Puts the points of a batch in order.
    pub(crate) fn put_points(&mut self, points: &[Datum]) -> Result<(), Stop>
        requires room { HasRoomFor points.now self.old.session.pass }
        ensures puts { OnOk result
            (PutsAll N.start N.passes points.now self.old.session self.new.session) }
        ensures stops { IfErr result
            (λ stop. PutsFewer N.start N.passes stop points.now self.old.session self.new.session) }
        ensures watch { self.new.watch ≡ self.old.watch }
    {
        if points.len() < FEWEST_TOGETHER {
            self.put_each(points)
        } else {
            self.put_together(points)
        }
    }

    // Puts them one by one.
    fn put_each(&mut self, points: &[Datum]) -> Result<(), Stop>
        requires room { HasRoomFor points.now self.old.session.pass }
        ensures puts { OnOk result
            (PutsAll N.start N.passes points.now self.old.session self.new.session) }
        ensures stops { IfErr result
            (λ stop. PutsFewer N.start N.passes stop points.now self.old.session self.new.session) }
        ensures watch { self.new.watch ≡ self.old.watch }
    {
        for datum in points {
            match self.put(datum) {
                Ok(()) => {}
                Err(stop) => return Err(stop),
            }
        }
        Ok(())
    }

    // Puts them by one call of the store.
    fn put_together(&mut self, points: &[Datum]) -> Result<(), Stop>
        requires some { 0 < length points.now }
        requires room { HasRoomFor points.now self.old.session.pass }
        ensures puts { OnOk result
            (PutsAll N.start N.passes points.now self.old.session self.new.session) }
        ensures stops { IfErr result
            (λ stop. PutsFewer N.start N.passes stop points.now self.old.session self.new.session) }
        ensures watch { self.new.watch ≡ self.old.watch }
    {
        let puts = self
            .store
            .put_all(self.rt, self.alloc, &mut self.pass, points);
        self.counts.count_puts(&puts);
        if puts.done < points.len() as u64 {
            return Err(Stop::NoMemory);
        }
        Ok(())
    }
}

impl<'a, R: Wait, D: Disk, N: Named, C: Clock> WaitingServer for LineSession<'a, R, D, N, C> {
    fn serve_waiting<K: Sink>(&mut self, framer: &mut Framer, out: &mut K) -> Result<(), Stop> {
        let mut points = self.take_buffer();
        let served = self.serve_batches(framer, &mut points, out);
        self.keep_buffer(points);
        served
    }
}

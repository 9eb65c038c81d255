//! The service of a link.
ghost use Rattle.std.specs.Prelude.{◌≡◌, ◌≢◌, ◌<◌, ◌≤◌, true, false, length, Err, IfErr, OnOk};
ghost use Rattle.std.specs.Option.{ForSome};
ghost use Rattle.outside_io.specs.Faults.{Rose};
ghost use Rattle.outside_io.specs.Frames.{CountsReads, CountsWrites};
ghost use Rattle.shared_store.specs.Passes.{HasRoom};
ghost use Rattle.http_front.specs.Entries.{MakesAsks};
ghost use Rattle.http_front.specs.Links.{ServesLink};
ghost use Rattle.http_front.specs.Prompt.{AnswersInTime};
ghost use Rattle.http_front.specs.Origin.{SamePass, WritesOnly, origin_of, standing};

use crate::buffers::Buffers;
use crate::ends::HttpEnd;
use crate::outcome::Outcome;
use crate::renderer::Renderer;
use crate::replying::reply;
use clock_watch::Watch;
use http_wire::{Handed, Item, Refusal, Request, RequestReader};
use outside_io::{Clock, Disk, Link, ReadEnd, Sink, write_all};
use read_trace::Reads;
use shared_store::{Named, Store, StorePass, has_room};
use std::alloc::Global;
use std::sync::Wait;

/// The most bytes that are taken of a link.
pub const MOST_LINK_BYTES: u64 = 1 << 40;

/// Serves a link that brings HTTP requests, until it ends: each request has its reply, in order, which is written whole before the next request is
/// looked at. A query is asked of the store by the pass, at a moment for which the clock is read once, by the watch, when the request has come. Where its answer takes more
/// than so many bytes, in series, names and text, that is want of memory.
#[tactic(auto, using(crate::proofs::EntryLemmas::link_makes, crate::proofs::EntryLemmas::makes_still, crate::proofs::PromptLemmas::in_time_start))]
pub fn serve_http<R: Wait, D: Disk, N: Named, L: Link, C: Clock>(
    rt: &R,
    alloc: Global,
    store: &Store<D, N>,
    pass: &mut StorePass<N>,
    watch: &mut Watch<C>,
    link: &mut L,
    reads: &mut Reads<L>,
    clock: &C,
    answer_bytes: u64,
) -> HttpEnd
    ensures serves { ServesLink (origin_of C.Clock N.Named clock.now)
        (Rose (L.write_faults link.old) (L.write_faults link.new)) result (L.left link.old)
        (L.left link.new) (standing L.Sink pass.old watch.old link.old)
        (standing L.Sink pass.new watch.new link.new) }
    ensures makes { MakesAsks (origin_of C.Clock N.Named clock.now) pass.old pass.new }
    ensures prompt { AnswersInTime L.left L.written (origin_of C.Clock N.Named clock.now)
        (L.left link.old) (L.left link.new) (standing L.Sink pass.old watch.old link.old)
        reads.old reads.new }
    ensures room { result ≢ HttpEnd.Spent → HasRoom pass.old }
    ensures pass { SamePass pass.old pass.new }
    ensures reads { CountsReads L.Source link.old link.new (result ≡ HttpEnd.ReadFault) }
    ensures writes { CountsWrites L.Sink link.old link.new (result ≡ HttpEnd.WriteFault) }
{
    if !has_room(pass) {
        return HttpEnd::Spent;
    }
    let Ok(mut buffers) = Buffers::new(alloc) else {
        return HttpEnd::NoMemory;
    };
    let renderer = Renderer {
        rt,
        store,
        clock,
        alloc,
        answer_bytes,
    };
    renderer.serve(pass, watch, &mut buffers, link, reads)
}

impl<'a, R: Wait, D: Disk, N: Named, C: Clock> Renderer<'a, R, D, N, C> {
    ghost use Rattle.std.specs.Prelude.{◌≡◌, ◌<◌, false, Err, IfErr, OnOk, length};
    ghost use Rattle.std.specs.Option.{ForSome};
    ghost use Rattle.outside_io.specs.Faults.{Rose};
    ghost use Rattle.outside_io.specs.Frames.{CountsReads, CountsWrites};
    ghost use Rattle.http_wire.specs.Cuts.{Awaits};
    ghost use Rattle.http_wire.specs.Reading.{HasRoom as HasSpace, end_of, seen};
    ghost use Rattle.http_front.specs.Links.{Ends, EndsAs, TellsShort};
    ghost use Rattle.http_front.specs.Prompt.{AnswersInTime};
    ghost use Rattle.http_front.specs.Origin.{SamePass, WritesOnly, origin_of, standing};
    ghost use Rattle.http_front.specs.Standing.{BreaksHere, BreaksOff, EndsThere, IsHandedOut, IsOpen, IsSilent, Proceeds, ServesHanded, ServesRequest, StopsHanded, StopsRefused, StopsRequest, TakesPiece};

    // Serves a link, and tells it where memory runs out.
    fn serve<L: Link>(
        &self,
        pass: &mut StorePass<N>,
        watch: &mut Watch<C>,
        buffers: &mut Buffers,
        link: &mut L,
        reads: &mut Reads<L>,
    ) -> HttpEnd
        ensures ends { Ends (origin_of C.Clock N.Named self.now.clock.now)
            (TellsShort (Rose (L.write_faults link.old) (L.write_faults link.new))) result
            (L.left link.old) (L.left link.new) (standing L.Sink pass.old watch.old link.old)
            (standing L.Sink pass.new watch.new link.new) }
        ensures prompt { AnswersInTime L.left L.written (origin_of C.Clock N.Named self.now.clock.now)
            (L.left link.old) (L.left link.new) (standing L.Sink pass.old watch.old link.old)
            reads.old reads.new }
        ensures pass { SamePass pass.old pass.new }
        ensures reads { CountsReads L.Source link.old link.new (result ≡ HttpEnd.ReadFault) }
        ensures writes { CountsWrites L.Sink link.old link.new (result ≡ HttpEnd.WriteFault) }
    {
        let end = self.serve_pieces(pass, watch, &mut buffers.piece, link, reads);
        if end == HttpEnd::NoMemory {
            // The service ends so, whether that is written or not.
            let _ = write_all(link, &buffers.unavailable);
        }
        end
    }

    // Reads a link, and serves what comes.
    #[tactic(auto, using(crate::proofs::EndLemmas::reached_start, crate::proofs::PromptLemmas::in_time_start))]
    fn serve_pieces<L: Link>(
        &self,
        pass: &mut StorePass<N>,
        watch: &mut Watch<C>,
        buffer: &mut [u8],
        link: &mut L,
        reads: &mut Reads<L>,
    ) -> HttpEnd
        requires some { 0 < length buffer.old }
        ensures ends { Ends (origin_of C.Clock N.Named self.now.clock.now) IsSilent result
            (L.left link.old) (L.left link.new) (standing L.Sink pass.old watch.old link.old)
            (standing L.Sink pass.new watch.new link.new) }
        ensures prompt { AnswersInTime L.left L.written (origin_of C.Clock N.Named self.now.clock.now)
            (L.left link.old) (L.left link.new) (standing L.Sink pass.old watch.old link.old)
            reads.old reads.new }
        ensures pass { SamePass pass.old pass.new }
        ensures reads { CountsReads L.Source link.old link.new (result ≡ HttpEnd.ReadFault) }
        ensures writes { CountsWrites L.Sink link.old link.new (result ≡ HttpEnd.WriteFault) }
    {
        let mut reader = RequestReader::new(self.alloc);
        let mut taken = 0;
        while taken < MOST_LINK_BYTES {
            let most = (MOST_LINK_BYTES - taken).min(buffer.len() as u64) as usize;
            let room = &mut buffer[..most];
            match reads.read(link, room) {
                ReadEnd::Got(count) => {
                    match self.serve_piece(pass, watch, &mut reader, &room[..count], link) {
                        Ok(()) => taken += count as u64,
                        Err(end) => return end,
                    }
                }
                ReadEnd::End => return self.serve_end(&reader, link),
                ReadEnd::Failed => return HttpEnd::ReadFault,
            }
        }
        HttpEnd::LinkLimit
    }

    // Serves what is left at the end of a link: a request that is not whole is refused.
    fn serve_end<K: Sink>(&self, reader: &RequestReader, out: &mut K) -> HttpEnd
        ensures ends { EndsThere result (end_of reader.now.left) (K.written out.old) (K.written out.new) }
        ensures writes { WritesOnly K.Sink out.old out.new (result ≡ HttpEnd.WriteFault) }
    {
        match reader.end() {
            Some(why) => self.refuse(why, out),
            None => HttpEnd::Closed,
        }
    }

    // Serves the requests that a piece ends.
    #[tactic(auto, using(crate::proofs::StandingLemmas::takes_start))]
    fn serve_piece<K: Sink>(
        &self,
        pass: &mut StorePass<N>,
        watch: &mut Watch<C>,
        reader: &mut RequestReader,
        piece: &[u8],
        out: &mut K,
    ) -> Result<(), HttpEnd>
        requires open { IsOpen reader.old.left }
        ensures takes { OnOk result (TakesPiece (origin_of C.Clock N.Named self.now.clock.now)
            reader.old.left (standing K.Sink pass.old watch.old out.old) piece.now reader.new.left
            (standing K.Sink pass.new watch.new out.new)) }
        ensures open { OnOk result (IsOpen reader.new.left) }
        ensures breaks { IfErr result
            (λ end. BreaksOff (origin_of C.Clock N.Named self.now.clock.now) end reader.old.left
            (standing K.Sink pass.old watch.old out.old) piece.now (standing K.Sink pass.new watch.new out.new)) }
        ensures pass { SamePass pass.old pass.new }
        ensures writes { WritesOnly K.Sink out.old out.new (result ≡ Err HttpEnd.WriteFault) }
    {
        let mut at = 0;
        while at < piece.len() {
            match reader.feed(&piece[at..]) {
                Ok(count) => at += count,
                Err(_) => return Err(HttpEnd::NoMemory),
            }
            match self.serve_waiting(pass, watch, reader, out) {
                Ok(()) => {}
                Err(end) => return Err(end),
            }
        }
        Ok(())
    }

    // Serves the requests that wait.
    #[tactic(auto, using(crate::proofs::StandingLemmas::proceeds_start, crate::proofs::StandingLemmas::proceeds_none, crate::proofs::StandingLemmas::proceeds_more, crate::proofs::StandingLemmas::breaks_handed))]
    fn serve_waiting<K: Sink>(
        &self,
        pass: &mut StorePass<N>,
        watch: &mut Watch<C>,
        reader: &mut RequestReader,
        out: &mut K,
    ) -> Result<(), HttpEnd>
        ensures proceeds { OnOk result (Proceeds (origin_of C.Clock N.Named self.now.clock.now)
            reader.old.left (standing K.Sink pass.old watch.old out.old) reader.new.left
            (standing K.Sink pass.new watch.new out.new)) }
        ensures waits { OnOk result (ForSome reader.new.left Awaits) }
        ensures room { OnOk result (HasSpace reader.new.left) }
        ensures breaks { IfErr result
            (λ end. BreaksHere (origin_of C.Clock N.Named self.now.clock.now) end reader.old.left
            (standing K.Sink pass.old watch.old out.old) (standing K.Sink pass.new watch.new out.new)) }
        ensures pass { SamePass pass.old pass.new }
        ensures writes { WritesOnly K.Sink out.old out.new (result ≡ Err HttpEnd.WriteFault) }
    {
        while let Some(handed) = reader.next_request() {
            match self.serve_handed(pass, watch, reader, handed, out) {
                Ok(()) => {}
                Err(end) => return Err(end),
            }
        }
        Ok(())
    }

    // Serves what was handed out.
    fn serve_handed<K: Sink>(
        &self,
        pass: &mut StorePass<N>,
        watch: &mut Watch<C>,
        reader: &RequestReader,
        handed: Handed,
        out: &mut K,
    ) -> Result<(), HttpEnd>
        requires handed { IsHandedOut handed reader.now }
        ensures serves { OnOk result (ServesHanded (origin_of C.Clock N.Named self.now.clock.now)
            handed reader.now.current (standing K.Sink pass.old watch.old out.old)
            (standing K.Sink pass.new watch.new out.new)) }
        ensures stops { IfErr result
            (λ end. StopsHanded (origin_of C.Clock N.Named self.now.clock.now) end
            handed reader.now.current (standing K.Sink pass.old watch.old out.old)
            (standing K.Sink pass.new watch.new out.new)) }
        ensures pass { SamePass pass.old pass.new }
        ensures writes { WritesOnly K.Sink out.old out.new (result ≡ Err HttpEnd.WriteFault) }
    {
        match handed {
            Handed::Request => self.serve_request(pass, watch, &reader.request(), out),
            Handed::Refused(why) => Err(self.refuse(why, out)),
        }
    }

    // Serves a request.
    #[tactic(auto, using(crate::proofs::StandingLemmas::fails_request))]
    fn serve_request<K: Sink>(
        &self,
        pass: &mut StorePass<N>,
        watch: &mut Watch<C>,
        request: &Request<'_>,
        out: &mut K,
    ) -> Result<(), HttpEnd>
        ensures serves { OnOk result (ServesRequest (origin_of C.Clock N.Named self.now.clock.now)
            (seen request.now) false (standing K.Sink pass.old watch.old out.old)
            (standing K.Sink pass.new watch.new out.new)) }
        ensures stops { IfErr result
            (λ end. StopsRequest (origin_of C.Clock N.Named self.now.clock.now) end
            (seen request.now) (standing K.Sink pass.old watch.old out.old)
            (standing K.Sink pass.new watch.new out.new)) }
        ensures pass { SamePass pass.old pass.new }
        ensures writes { WritesOnly K.Sink out.old out.new (result ≡ Err HttpEnd.WriteFault) }
    {
        if !has_room(pass) {
            return Err(HttpEnd::Spent);
        }
        let Ok(outcome) = self.answer(pass, watch, request) else {
            return Err(HttpEnd::NoMemory);
        };
        match reply(self.alloc, &Item::Request(*request), outcome, out) {
            Ok(false) => Ok(()),
            Ok(true) => Err(HttpEnd::Closed),
            Err(end) => Err(end),
        }
    }

    // Writes the reply to a refusal, with which the link ends.
    #[tactic(auto, using(crate::proofs::StandingLemmas::fails_refused))]
    fn refuse<K: Sink>(&self, why: Refusal, out: &mut K) -> HttpEnd
        ensures stops { StopsRefused result why (K.written out.old) (K.written out.new) }
        ensures writes { WritesOnly K.Sink out.old out.new (result ≡ HttpEnd.WriteFault) }
    {
        match reply(self.alloc, &Item::Refused(why), Outcome::Refused(why), out) {
            Ok(_) => HttpEnd::Refused(why.code()),
            Err(end) => end,
        }
    }
}

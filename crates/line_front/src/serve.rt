//! The service of one link.
ghost use Rattle.std.specs.Prelude.{◌≡◌};
ghost use Rattle.outside_io.specs.Frames.{CountsReads};
ghost use Rattle.line_front.specs.Ends.{IsLinkEnd, cause_of};
ghost use Rattle.line_front.specs.Emits.{EndsLines};
ghost use Rattle.line_front.specs.Links.{Ends, WritesNone, new_session, timed};
ghost use Rattle.line_front.specs.Sessions.{timed_of};

use crate::counts::Counts;
use crate::emitting::end_link;
use crate::ends::LineCause;
use crate::session::LineSession;
use crate::sink::NoSink;
use aggregate_front::{Aggregator, LINK_LIMITS};
use aggregate_rules::AggRules;
use clock_watch::Watch;
use line_service::{ServiceEnd, Stop};
use outside_io::{Clock, Disk, Link};
use shared_store::{Named, Store, StorePass};
use std::alloc::Global;
use std::mem;
use std::sync::Wait;

/// What the service of a link came to.
#[derive(Drop)]
pub struct Served<N: Named> {
    /// Why it ended.
    pub cause: LineCause,
    /// Its lines, by what became of each.
    pub counts: Counts,
    /// The pass that put them.
    pub pass: StorePass<N>,
}

/// Serves a link that brings metric lines, until it ends: each line that is read as a point, at a
/// moment for which the clock is read then, once, by the watch, makes one put, in order; each other
/// line is counted by the reason, and the link goes on. For a line that is too long the clock is not
/// read. What follows the last line feed is no line. Nothing is written to the link.
///
/// A point that was put is given to the rules, and what they emit for it is put right behind it.
/// Where the link is read to its end, what they have open then is put; it is dropped at each other
/// end. `counts` has the link's own lines alone. The limits are [`LINK_LIMITS`].
///
/// Whether the pass has room for a call is looked at once at the start, before each line, and before
/// each point that the rules emit.
pub fn serve_lines<R: Wait, D: Disk, N: Named, L: Link, C: Clock>(
    rt: &R,
    alloc: Global,
    store: &Store<D, N>,
    pass: StorePass<N>,
    watch: &mut Watch<C>,
    link: &mut L,
    clock: &C,
    rules: &AggRules,
) -> Served<N>
    ensures ends { Ends (C.moments clock.now) N.start N.passes result.cause (L.left link.old)
        (L.left link.new) (timed watch.old (new_session rules.now pass)) watch.new result.pass
        result.counts }
    ensures reads { CountsReads L.Source link.old link.new (result.cause ≡ LineCause.ReadFault) }
    ensures written { WritesNone L.Sink link.old link.new }
{
    let mut session = LineSession {
        rt,
        store,
        clock,
        watch: mem::replace(watch, Watch::new()),
        pass,
        counts: Counts::none(),
        rules,
        aggregator: Aggregator::within(alloc, rules, LINK_LIMITS),
        alloc,
        points: Vec::new(alloc),
        spares: Vec::new(alloc),
    };
    let read = serve_link(&mut session, alloc, link);
    let LineSession {
        watch: told,
        pass,
        counts,
        aggregator,
        ..
    } = session;
    *watch = told;
    let mut pass = pass;
    let cause = end_link(rt, alloc, store, read, aggregator, &mut pass);
    Served {
        cause,
        counts,
        pass,
    }
}

// Serves the lines of a link, unless the pass is spent from the start.
#[tactic(auto, using(crate::proofs::ServiceLemmas::is_link_end, crate::proofs::ServiceLemmas::ends_spent, crate::proofs::ServiceLemmas::reads_as))]
fn serve_link<R: Wait, D: Disk, N: Named, L: Link, C: Clock>(
    session: &mut LineSession<'_, R, D, N, C>,
    alloc: Global,
    link: &mut L,
) -> LineCause
    ensures ends { EndsLines (C.moments session.old.watch.clock) N.start N.passes result
        (L.left link.old) (L.left link.new) (timed_of session.old) (timed_of session.new) }
    ensures reads { CountsReads L.Source link.old link.new (result ≡ LineCause.ReadFault) }
    ensures written { WritesNone L.Sink link.old link.new }
{
    match session.room() {
        Ok(()) => cause_of(line_service::serve_lines(session, alloc, link, &mut NoSink)),
        Err(_) => LineCause::Spent,
    }
}

// The cause that the end of a service is. Nothing is written and no disk is called, so neither
// fails.
pub(crate) fn cause_of(end: ServiceEnd) -> LineCause
    requires { IsLinkEnd end }
    ensures { result ≡ cause_of end }
{
    match end {
        ServiceEnd::Closed => LineCause::Closed,
        ServiceEnd::ReadFault => LineCause::ReadFault,
        ServiceEnd::Limit => LineCause::LinkLimit,
        ServiceEnd::NoMemory => LineCause::NoMemory,
        ServiceEnd::Stopped(Stop::Spent) => LineCause::Spent,
        ServiceEnd::Stopped(Stop::NoMemory) => LineCause::NoMemory,
        ServiceEnd::Stopped(Stop::WriteFault | Stop::DiskFault(_)) => unreachable!(),
    }
}

//! A script's session with a store: its pass, its clock, its counts, and what it says.
ghost use Rattle.std.specs.Prelude.{◌≡◌};

use crate::command::Command;
use crate::counts::Counts;
use crate::parse::read_command;
use crate::reply::{
    Reply, Shortage, begun_reply, drained_reply, found_reply, run_reply, unread_reply,
};
use crate::round::{begin_drain, write_run};
use crate::say::{refuse, say};
use crate::summary::summary;
use carbon_history::PutEnd;
use line_frame::Framer;
use line_service::{LineServer, Stop, WaitingServer, serve_each};
use metric_line::Datum;
use metric_path::MetricPath;
use outside_io::{Disk, Sink};
use point_cache::Put;
use render_plan::RenderPlan;
use shared_history::Pass;
use shared_store::{DrainEnd, MOST_CALL_ENTRIES, Named, Store, StorePass};
use std::alloc::{AllocError, Global};
use std::marker::Model;
use std::sync::Wait;

/// The clock of a script before it is set: 2023-11-14 22:13:20 UTC.
const FIRST_CLOCK: u32 = 1_700_000_000;

/// A script over a store that has one pass: the pass, the clock in seconds since the Unix epoch, and what was counted.
#[derive(Drop)]
pub struct Session<'a, R: Wait, D: Disk, N: Named> {
    rt: &'a R,
    store: &'a Store<D, N>,
    pass: StorePass<N>,
    clock: u32,
    counts: Counts,
    alloc: Global,
    // The path of a metric line that was put, whose memory the next one takes.
    spare: Option<MetricPath>,
}

impl<'a, R: Wait, D: Disk, N: Named> Model for Session<'a, R, D, N> {
    ghost use Rattle.std.specs.Prelude.{◌≡◌, true};
    ghost use Rattle.fixed_num.specs.Moment.{is_moment};
    ghost use Rattle.carbon_script.specs.Alone.{IsOnly};
    ghost use Rattle.carbon_script.specs.Sessions.{SessionValue};

    ghost Value = { SessionValue };

    ghost view = { λ s. record { pass = s.pass; clock = s.clock; counts = s.counts } };

    ghost invariant = { λ s. (is_moment s.clock ≡ true)
        × (IsOnly N.table N.start s.pass × (N.passes ≡ 1)) };
}

impl<'a, R: Wait, D: Disk, N: Named> Session<'a, R, D, N> {
    ghost use Rattle.std.specs.Prelude.{◌≡◌, Err, IfOk, OnErr, []};
    ghost use Rattle.line_frame.specs.Lines.{Whole};
    ghost use Rattle.outside_io.specs.Frames.{CountsWrites};
    ghost use Rattle.line_service.specs.declared.ends.Stop.TheVariants.{WriteFault};
    ghost use Rattle.metric_line.specs.Seen.{seen};
    ghost use Rattle.shared_history.specs.Parts.{IsNewPass};
    ghost use Rattle.shared_store.specs.Passes.{HasRoom};
    ghost use Rattle.render_plan.specs.Asked.{plan_seen};
    ghost use Rattle.carbon_script.specs.Alone.{IsOnly};
    ghost use Rattle.carbon_script.specs.Command.{Ask, DrainAll, Metric, Plan, TakesMemory, Write, command_of};
    ghost use Rattle.carbon_script.specs.Counts.{no_counts};
    ghost use Rattle.carbon_script.specs.Replies.{DrainsAlone, Replies, RepliesTo, Summarises, TellsRoom, counting};
    ghost use Rattle.carbon_script.specs.SeenCommand.{IsSound, seen_command};
    ghost use Rattle.carbon_script.specs.Script.{first_clock, opening};
    ghost use Rattle.carbon_script.specs.Sessions.{AppendsSome, Finishes, Means, Obeys};

    /// Nothing counted and nothing entered, by a new pass.
    pub fn new(rt: &'a R, alloc: Global, store: &'a Store<D, N>, pass: Pass) -> Session<'a, R, D, N>
        requires alone { N.passes ≡ 1 }
        requires new { IsNewPass N.table 0 pass }
        ensures { Means N.start result (opening N.start) }
    {
        Session {
            rt,
            store,
            pass: StorePass::new(pass),
            clock: FIRST_CLOCK,
            counts: Counts::none(),
            alloc,
            spare: None,
        }
    }

    // Does what a command says, and writes its reply.
    fn obey<K: Sink>(&mut self, command: Command<'_>, out: &mut K) -> Result<(), Stop>
        requires { IsSound command }
        ensures obeys { Obeys N.told N.start result self.old (seen_command command.entry)
            (K.written out.old) self.new (K.written out.new) }
        ensures some { AppendsSome (K.written out.old) (K.written out.new) }
        ensures writes { CountsWrites K.Sink out.old out.new (result ≡ Err WriteFault) }
    {
        match command {
            Command::Metric(datum) => return say(out, self.put_line(datum)),
            Command::Refused(fault) => self.counts.count_refused(&fault),
            Command::Long => self.counts.count_long(),
            Command::Clock(moment) => self.clock = moment,
            Command::Ask(query) => return say(out, self.ask(query)),
            Command::Plan => return say(out, self.plan()),
            Command::Write => return say(out, self.write()),
            Command::DrainAll => return say(out, self.drain()),
            Command::Bad => return refuse(out),
        }
        Ok(())
    }

    // Whether the pass has room for what a call of the store may enter.
    fn room(&self) -> Result<(), Shortage>
        ensures { TellsRoom result self.now.pass }
    {
        if self.pass.left() < MOST_CALL_ENTRIES {
            Err(Shortage::Room)
        } else {
            Ok(())
        }
    }

    // Reads a line at the moment of the clock.
    fn read<'l>(&mut self, line: &'l [u8]) -> Result<Command<'l>, AllocError>
        ensures same { self.new ≡ self.old }
        ensures command { IfOk result
            (λ command. seen_command command ≡ command_of (Whole line.now) self.old.clock) }
        ensures sound { IfOk result IsSound }
        ensures memory { OnErr result (TakesMemory (command_of (Whole line.now) self.old.clock)) }
    {
        read_command(self.alloc, &mut self.spare, line, self.clock)
    }

    // Puts the point of a metric line, which says nothing, and keeps the memory of its path for the next.
    fn put_line(&mut self, datum: Datum) -> Result<Reply, Shortage>
        ensures { Replies N.told N.start (Metric (seen datum)) result self.old self.new }
    {
        let said = self.put(&datum);
        self.spare = Some(datum.path);
        said
    }

    // Puts the point of a metric line, which says nothing.
    fn put(&mut self, datum: &Datum) -> Result<Reply, Shortage>
        ensures { Replies N.told N.start (Metric (seen datum.now)) result self.old self.new }
    {
        self.room()?;
        match self.store.put(self.rt, &mut self.pass, datum) {
            Put::Stored => Ok(self.count(PutEnd::Stored)),
            Put::Replaced => Ok(self.count(PutEnd::Replaced)),
            Put::Full => Ok(self.count(PutEnd::Full)),
            Put::NoMemory => Err(Shortage::Memory),
        }
    }

    // Counts a point that was put.
    fn count(&mut self, end: PutEnd) -> Reply
        ensures said { result ≡ [] }
        ensures counts { self.new ≡ counting self.old end }
    {
        self.counts.count_put(end);
        Reply::silent(self.alloc)
    }

    // Asks a query, and answers it.
    fn ask(&mut self, query: &[u8]) -> Result<Reply, Shortage>
        ensures { Replies N.told N.start (Ask query.now) result self.old self.new }
    {
        match RenderPlan::read(self.alloc, query, &[], u64::from(self.clock)) {
            Ok(plan) => self.ask_plan(&plan),
            Err(fault) => unread_reply(self.alloc, fault),
        }
    }

    // Asks what a plan needs, and makes the reply of it.
    fn ask_plan(&mut self, plan: &RenderPlan) -> Result<Reply, Shortage>
        ensures { RepliesTo N.told N.start (plan_seen plan.now) result self.old self.new }
    {
        self.room()?;
        let needs = plan.needs();
        let found = self
            .store
            .ask(self.rt, self.alloc, &mut self.pass, needs, self.clock);
        found_reply(self.alloc, plan, found)
    }

    // Begins the drain of the metric that goes next.
    fn plan(&mut self) -> Result<Reply, Shortage>
        ensures { Replies N.told N.start Plan result self.old self.new }
    {
        self.room()?;
        let begun = begin_drain(self.rt, self.store, &mut self.pass, self.clock);
        begun_reply(self.alloc, &begun)
    }

    // Writes the next run of a drain.
    fn write(&mut self) -> Result<Reply, Shortage>
        ensures { Replies N.told N.start Write result self.old self.new }
    {
        self.room()?;
        let run = write_run(self.rt, self.store, &mut self.pass);
        run_reply(self.alloc, run)
    }

    // Drains all that is pending.
    fn drain(&mut self) -> Result<Reply, Shortage>
        ensures { Replies N.told N.start DrainAll result self.old self.new }
    {
        let end = self.drain_pending();
        drained_reply(self.alloc, end)
    }

    fn drain_pending(&mut self) -> DrainEnd
        ensures { DrainsAlone N.start result self.old self.new }
    {
        match self.room() {
            Ok(()) => self.store.drain_all(self.rt, &mut self.pass, self.clock),
            Err(_) => DrainEnd::Spent,
        }
    }

    /// Drains all that is still pending, and writes the summary.
    pub(crate) fn finish<K: Sink>(&mut self, out: &mut K) -> Result<(), Stop>
        ensures finishes { Finishes N.start result self.old (K.written out.old) self.new
            (K.written out.new) }
        ensures some { AppendsSome (K.written out.old) (K.written out.new) }
        ensures writes { CountsWrites K.Sink out.old out.new (result ≡ Err WriteFault) }
    {
        match self.drain_pending() {
            DrainEnd::Done(_) => say(out, self.summary()),
            DrainEnd::DiskFault(class) => Err(Stop::DiskFault(class)),
            DrainEnd::Spent => Err(Stop::Spent),
            DrainEnd::NoMemory => Err(Stop::NoMemory),
        }
    }

    // The summary, of which the store counts the drains.
    fn summary(&mut self) -> Result<Reply, Shortage>
        requires { HasRoom self.old.pass }
        ensures { Summarises N.start result self.old self.new }
    {
        let tally = self.store.tally(self.rt, &mut self.pass);
        summary(self.alloc, &self.counts, tally.drains)
    }

    /// The pass.
    pub fn into_pass(self) -> Pass
        ensures value { result ≡ self.entry.pass }
        ensures only { IsOnly N.table N.start result }
    {
        self.pass.into_pass()
    }
}

impl<'a, R: Wait, D: Disk, N: Named> LineServer for Session<'a, R, D, N> {
    ghost use Rattle.carbon_script.specs.Sessions.{Serves, Stops};

    ghost serves = { Serves N.told N.start };

    ghost stops = { Stops N.told N.start };

    fn serve_line<K: Sink>(&mut self, line: &[u8], out: &mut K) -> Result<(), Stop> {
        match self.read(line) {
            Ok(command) => self.obey(command, out),
            Err(_) => Err(Stop::NoMemory),
        }
    }

    fn serve_long<K: Sink>(&mut self, out: &mut K) -> Result<(), Stop> {
        self.obey(Command::Long, out)
    }
}

impl<'a, R: Wait, D: Disk, N: Named> WaitingServer for Session<'a, R, D, N> {
    fn serve_waiting<K: Sink>(&mut self, framer: &mut Framer, out: &mut K) -> Result<(), Stop> {
        serve_each(self, framer, out)
    }
}

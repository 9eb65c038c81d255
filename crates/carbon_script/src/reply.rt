//! What a script says.
ghost use Rattle.std.specs.Prelude.{◌≡◌, ◌↔◌, ◌++◌, [], true, IfOk, codes, if◌then◌else◌};
ghost use Rattle.render_plan.specs.Asked.{plan_seen};
ghost use Rattle.render_plan.specs.Bounds.{AreRows};
ghost use Rattle.carbon_script.specs.Replies.{SaysBegun, SaysDrained, SaysFound, SaysRows, SaysRun, SaysUnread, Tells};
ghost use Rattle.carbon_script.specs.Texts.{answer_reply, count_line, drain_fault_text, drained_text, ends_line, fault_reply, plan_fault_text, plan_idle, plan_text, refused_reply, write_fault_text, write_finished, write_nothing, write_run};

use crate::round::{Begun, NextRun};
use crate::text::push_count;
use metric_path::MetricPath;
use render_answer::{Answer, Refusal, answer_rows};
use render_plan::{QueryFault, RenderPlan};
use series_set::SeriesRows;
use shared_store::{AskFault, DrainEnd};
use std::alloc::{AllocError, Global};
use std::marker::Model;

/// The bytes that a command says.
#[derive(Drop)]
pub struct Reply {
    bytes: Vec<u8>,
}

impl Model for Reply {
    ghost use Rattle.std.specs.Prelude.{List, ℕ};

    ghost Value = { List ℕ };

    ghost view = { λ r. r.bytes.items };
}

impl Reply {
    /// No bytes. No memory is taken.
    pub fn silent(alloc: Global) -> Reply
        ensures { result ≡ [] }
    {
        Reply {
            bytes: Vec::new(alloc),
        }
    }

    /// These bytes.
    pub fn new(bytes: Vec<u8>) -> Reply
        ensures { result ≡ bytes.items }
    {
        Reply { bytes }
    }

    /// The bytes.
    pub fn as_slice(&self) -> &[u8]
        ensures { result.now ≡ self.now }
    {
        self.bytes.as_slice()
    }
}

/// Why a command says nothing.
#[derive(Clone, Copy, Debug, PartialEq, Eq)]
pub enum Shortage {
    /// The pass has no room for what a call may enter.
    Room,
    /// Memory ran out.
    Memory,
}

impl From<AllocError> for Shortage {
    ghost use Rattle.std.specs.Prelude.{◌≡◌};
    ghost use Rattle.carbon_script.specs.declared.reply.Shortage.TheVariants.{Memory};

    ghost from_gives = { λ _ why. why ≡ Memory };

    fn from(_: AllocError) -> Shortage {
        Shortage::Memory
    }
}

/// The reply to a round of plans.
pub fn begun_reply(alloc: Global, begun: &Begun) -> Result<Reply, Shortage>
    ensures { SaysBegun begun.now result }
{
    match begun {
        Begun::Metric(path) => plan_reply(alloc, path),
        Begun::DiskFault(class) => plan_fault_reply(alloc, *class),
        Begun::Nothing => plan_idle_reply(alloc),
        Begun::NoMemory => Err(Shortage::Memory),
    }
}

#[tactic(auto, unfolding(crate::specs::Texts::planned_word))]
fn plan_reply(alloc: Global, path: &MetricPath) -> Result<Reply, Shortage>
    ensures { Tells result (plan_text path.now) }
{
    let mut text = Vec::new(alloc);
    text.extend_from_slice(b"plan ")?;
    text.extend_from_slice(path.text())?;
    text.extend_from_slice(b"\n")?;
    Ok(Reply::new(text))
}

#[tactic(auto, unfolding(crate::specs::Texts::plan_fault_word))]
fn plan_fault_reply(alloc: Global, class: u32) -> Result<Reply, Shortage>
    ensures { Tells result (plan_fault_text class) }
{
    count_reply(alloc, b"plan fault class ", u64::from(class))
}

#[tactic(auto, unfolding(crate::specs::Texts::plan_idle))]
fn plan_idle_reply(alloc: Global) -> Result<Reply, Shortage>
    ensures { Tells result plan_idle }
{
    reply_of(alloc, b"plan idle\n")
}

/// The reply to a round of writes.
pub fn run_reply(alloc: Global, run: NextRun) -> Result<Reply, Shortage>
    ensures { SaysRun run result }
{
    match run {
        NextRun::Written => write_run_reply(alloc),
        NextRun::Finished => write_finished_reply(alloc),
        NextRun::DiskFault(class) => write_fault_reply(alloc, class),
        NextRun::Nothing => write_nothing_reply(alloc),
    }
}

#[tactic(auto, unfolding(crate::specs::Texts::write_run))]
fn write_run_reply(alloc: Global) -> Result<Reply, Shortage>
    ensures { Tells result write_run }
{
    reply_of(alloc, b"write run\n")
}

#[tactic(auto, unfolding(crate::specs::Texts::write_finished))]
fn write_finished_reply(alloc: Global) -> Result<Reply, Shortage>
    ensures { Tells result write_finished }
{
    reply_of(alloc, b"write finished\n")
}

#[tactic(auto, unfolding(crate::specs::Texts::write_fault_word))]
fn write_fault_reply(alloc: Global, class: u32) -> Result<Reply, Shortage>
    ensures { Tells result (write_fault_text class) }
{
    count_reply(alloc, b"write fault class ", u64::from(class))
}

#[tactic(auto, unfolding(crate::specs::Texts::write_nothing))]
fn write_nothing_reply(alloc: Global) -> Result<Reply, Shortage>
    ensures { Tells result write_nothing }
{
    reply_of(alloc, b"write nothing\n")
}

/// The reply to the drain of all that is pending.
pub fn drained_reply(alloc: Global, end: DrainEnd) -> Result<Reply, Shortage>
    ensures { SaysDrained end result }
{
    match end {
        DrainEnd::Done(count) => drained_count_reply(alloc, count),
        DrainEnd::DiskFault(class) => drain_fault_reply(alloc, class),
        DrainEnd::Spent => Err(Shortage::Room),
        DrainEnd::NoMemory => Err(Shortage::Memory),
    }
}

#[tactic(auto, unfolding(crate::specs::Texts::drained_word))]
fn drained_count_reply(alloc: Global, count: u64) -> Result<Reply, Shortage>
    ensures { Tells result (drained_text count) }
{
    count_reply(alloc, b"drained ", count)
}

#[tactic(auto, unfolding(crate::specs::Texts::drain_fault_word))]
fn drain_fault_reply(alloc: Global, class: u32) -> Result<Reply, Shortage>
    ensures { Tells result (drain_fault_text class) }
{
    count_reply(alloc, b"drain fault class ", u64::from(class))
}

/// The reply to a query that was asked.
pub fn found_reply(
    alloc: Global,
    plan: &RenderPlan,
    found: Result<SeriesRows, AskFault>,
) -> Result<Reply, Shortage>
    requires { IfOk found AreRows }
    ensures { SaysFound (plan_seen plan.now) found result }
{
    match found {
        Ok(rows) => rows_reply(alloc, plan, rows),
        Err(AskFault::DiskFault(class)) => fault_reply(alloc, class),
        Err(AskFault::TooManySeries(count)) => {
            refused_reply(alloc, &Refusal::TooManySeries(count))
        }
        Err(AskFault::TooManyPoints(count)) => {
            refused_reply(alloc, &Refusal::TooManyPoints(count))
        }
        Err(AskFault::NoMemory) => Err(Shortage::Memory),
    }
}

fn rows_reply(alloc: Global, plan: &RenderPlan, rows: SeriesRows) -> Result<Reply, Shortage>
    requires { AreRows rows }
    ensures { SaysRows (plan_seen plan.now) rows result }
{
    let answer = answer_rows(alloc, plan, rows)?;
    answer_reply(alloc, answer)
}

fn answer_reply(alloc: Global, answer: Answer) -> Result<Reply, Shortage>
    ensures { Tells result (answer_reply answer) }
{
    match answer {
        Answer::Body(_, text) => body_reply(text.into_vec()),
        Answer::Refused(why) => refused_reply(alloc, &why),
    }
}

// The series of a query, which end a line.
fn body_reply(body: Vec<u8>) -> Result<Reply, Shortage>
    ensures { Tells result
        (if ends_line body.items then body.items else body.items ++ codes "\n") }
{
    let mut text = body;
    if !text.ends_with(b"\n") {
        text.extend_from_slice(b"\n")?;
    }
    Ok(Reply::new(text))
}

/// The reply to a query that cannot be read.
pub fn unread_reply(alloc: Global, fault: QueryFault) -> Result<Reply, Shortage>
    ensures { SaysUnread fault result }
{
    if is_want(fault) {
        return Err(Shortage::Memory);
    }
    refused_reply(alloc, &Refusal::Query(fault))
}

// Whether there was no memory to read a query.
fn is_want(fault: QueryFault) -> bool
    ensures { (result ≡ true) ↔ (fault ≡ QueryFault.NoMemory) }
{
    matches!(fault, QueryFault::NoMemory)
}

// The reply to a query that has no series.
#[tactic(auto, unfolding(crate::specs::Texts::refused_word))]
fn refused_reply(alloc: Global, why: &Refusal) -> Result<Reply, Shortage>
    ensures { Tells result (refused_reply why.now) }
{
    let mut text = Vec::new(alloc);
    text.extend_from_slice(b"refused ")?;
    text.extend_from_slice(&why.text(alloc)?)?;
    text.extend_from_slice(b"\n")?;
    Ok(Reply::new(text))
}

#[tactic(auto, unfolding(crate::specs::Texts::fault_word))]
fn fault_reply(alloc: Global, class: u32) -> Result<Reply, Shortage>
    ensures { Tells result (fault_reply class) }
{
    count_reply(alloc, b"fault class ", u64::from(class))
}

// A word, a number and a line end.
fn count_reply(alloc: Global, word: &[u8], count: u64) -> Result<Reply, Shortage>
    ensures { Tells result (count_line word.now count) }
{
    let mut text = Vec::new(alloc);
    push_count(&mut text, word, count)?;
    text.extend_from_slice(b"\n")?;
    Ok(Reply::new(text))
}

fn reply_of(alloc: Global, line: &[u8]) -> Result<Reply, Shortage>
    ensures { Tells result line.now }
{
    let mut text = Vec::new(alloc);
    text.extend_from_slice(line)?;
    Ok(Reply::new(text))
}

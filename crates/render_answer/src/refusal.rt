//! Why a query has no series.
ghost use Rattle.std.specs.Prelude.{◌≡◌, ◌++◌, IfOk, OnOk, decimal};
ghost use Rattle.render_answer.specs.Answer.{cause_text, cause_word, excess_word, fault_text, fault_word, refusal_text, target_end, target_text, target_word};

use itoa::Buffer;
use render_plan::{QueryFault, TargetCause};
use std::alloc::{AllocError, Global};

/// Why a query is answered without series.
#[derive(Clone, Copy, Debug, PartialEq, Eq)]
pub enum Refusal {
    /// The query is refused.
    Query(QueryFault),
    /// Its targets find so many series, more than 10,000.
    TooManySeries(u64),
    /// The series have so many values in all, more than 4,000,000.
    TooManyPoints(u64),
    /// The steps of series that are combined have this common multiple, more than 31,536,000 seconds.
    StepTooWide(u64),
    /// A grid of series would have so many values, more than 4,000,000.
    GridTooLong(u64),
}

impl Refusal {
    /// The reason in words, without a line end.
    pub fn text(&self, alloc: Global) -> Result<Vec<u8>, AllocError>
        ensures { IfOk result (λ text. text.items ≡ refusal_text self.now) }
    {
        let mut text = Vec::new(alloc);
        push_refusal(&mut text, self)?;
        Ok(text)
    }
}

fn push_refusal(out: &mut Vec<u8>, why: &Refusal) -> Result<(), AllocError>
    ensures { OnOk result (out.new.items ≡ out.old.items ++ refusal_text why.now) }
{
    match why {
        Refusal::Query(fault) => push_fault(out, fault),
        Refusal::TooManySeries(count) => push_count(out, excess_word(why), *count),
        Refusal::TooManyPoints(count) => push_count(out, excess_word(why), *count),
        Refusal::StepTooWide(step) => push_count(out, excess_word(why), *step),
        Refusal::GridTooLong(count) => push_count(out, excess_word(why), *count),
    }
}

fn push_fault(out: &mut Vec<u8>, fault: &QueryFault) -> Result<(), AllocError>
    ensures { OnOk result (out.new.items ≡ out.old.items ++ fault_text fault.now) }
{
    match fault {
        QueryFault::Target(n, why) => push_cause_of(out, *n, why),
        QueryFault::UnknownFunction(n) => push_word_of(out, *n, fault_word(fault)),
        QueryFault::BadArgument(n) => push_word_of(out, *n, fault_word(fault)),
        QueryFault::NoTarget
        | QueryFault::TooManyTargets
        | QueryFault::BadTime
        | QueryFault::BadRange
        | QueryFault::BadFormat
        | QueryFault::BadPoints
        | QueryFault::NoMemory => out.extend_from_slice(fault_word(fault)),
    }
}

// What is said of the target with a number: a word.
fn push_word_of(out: &mut Vec<u8>, n: u32, word: &[u8]) -> Result<(), AllocError>
    ensures { OnOk result (out.new.items ≡ out.old.items ++ target_text n word.now) }
{
    push_target(out, n)?;
    out.extend_from_slice(word)
}

// Or why it cannot be read.
fn push_cause_of(out: &mut Vec<u8>, n: u32, why: &TargetCause) -> Result<(), AllocError>
    ensures { OnOk result (out.new.items ≡ out.old.items ++ target_text n (cause_text why.now)) }
{
    push_target(out, n)?;
    match why {
        TargetCause::At(place) => push_count(out, cause_word(why), *place as u64),
        TargetCause::TooDeep | TargetCause::TooLong => out.extend_from_slice(cause_word(why)),
    }
}

// What stands before it.
#[tactic(auto, unfolding(crate::specs::Answer::target_end))]
fn push_target(out: &mut Vec<u8>, n: u32) -> Result<(), AllocError>
    ensures { OnOk result
        (out.new.items ≡ out.old.items ++ (target_word ++ (decimal n ++ target_end))) }
{
    push_target_number(out, n)?;
    out.extend_from_slice(b": ")
}

#[tactic(auto, unfolding(crate::specs::Answer::target_word))]
fn push_target_number(out: &mut Vec<u8>, n: u32) -> Result<(), AllocError>
    ensures { OnOk result (out.new.items ≡ out.old.items ++ (target_word ++ decimal n)) }
{
    push_count(out, b"target ", u64::from(n))
}

// A word and a number.
fn push_count(out: &mut Vec<u8>, word: &[u8], number: u64) -> Result<(), AllocError>
    ensures { OnOk result (out.new.items ≡ out.old.items ++ (word.now ++ decimal number)) }
{
    out.extend_from_slice(word)?;
    out.extend_from_slice(Buffer::new().format(number).as_bytes())
}

#[tactic(auto, unfolding(crate::specs::Answer::cause_word))]
fn cause_word(why: &TargetCause) -> &'static [u8]
    ensures { result.now ≡ cause_word why.now }
{
    match why {
        TargetCause::At(_) => b"unreadable at ",
        TargetCause::TooDeep => b"too deep",
        TargetCause::TooLong => b"too long",
    }
}

#[tactic(auto, unfolding(crate::specs::Answer::fault_word))]
fn fault_word(fault: &QueryFault) -> &'static [u8]
    ensures { result.now ≡ fault_word fault.now }
{
    match fault {
        QueryFault::NoTarget => b"no target",
        QueryFault::TooManyTargets => b"too many targets",
        QueryFault::Target(_, _) => b"",
        QueryFault::UnknownFunction(_) => b"unknown function",
        QueryFault::BadArgument(_) => b"bad argument",
        QueryFault::BadTime => b"bad time",
        QueryFault::BadRange => b"from after until",
        QueryFault::BadFormat => b"bad format",
        QueryFault::BadPoints => b"bad maxDataPoints",
        QueryFault::NoMemory => b"no memory",
    }
}

#[tactic(auto, unfolding(crate::specs::Answer::excess_word))]
fn excess_word(why: &Refusal) -> &'static [u8]
    ensures { result.now ≡ excess_word why.now }
{
    match why {
        Refusal::Query(_) => b"",
        Refusal::TooManySeries(_) => b"too many series: ",
        Refusal::TooManyPoints(_) => b"too many points: ",
        Refusal::StepTooWide(_) => b"step too wide: ",
        Refusal::GridTooLong(_) => b"grid too long: ",
    }
}

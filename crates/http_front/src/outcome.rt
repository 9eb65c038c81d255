//! What comes of requests.
ghost use Rattle.std.specs.Prelude.{◌≡◌, IfOk, OnErr, Ok};
ghost use Rattle.render_plan.specs.Asked.{plan_seen};
ghost use Rattle.render_plan.specs.Bounds.{AreRows};
ghost use Rattle.http_front.specs.Found.{IsFound, IsNoFault};
ghost use Rattle.http_front.specs.Outcomes.{media_of, outcome_of};
ghost use Rattle.render_answer.specs.declared.answer.Answer.TheVariants as answered;

use http_wire::{MediaType, Refusal};
use render_answer::{Answer, Text, answer_within};
use render_plan::{Format, RenderPlan};
use series_set::{Allowance, SeriesRows};
use shared_store::AskFault;
use std::alloc::{AllocError, Global};

/// What came of a request, of which its reply is made.
#[derive(Drop)]
pub enum Outcome {
    /// A body of this kind.
    Found(MediaType, Text),
    /// The reason why there is none, in words.
    Unanswerable(Text),
    /// A refusal without words: nothing was asked.
    Refused(Refusal),
    /// A disk failed.
    DiskFault,
}

impl Outcome {
    ghost use Rattle.http_front.specs.Outcomes.{Borrows};

    /// The same, as an answer of which a reply is made.
    pub fn as_answer(&self) -> http_wire::Answer<'_>
        ensures { Borrows self.now result }
    {
        match self {
            Outcome::Found(media, body) => http_wire::Answer::Found(*media, body.as_slice()),
            Outcome::Unanswerable(text) => http_wire::Answer::Unanswerable(text.as_slice()),
            Outcome::Refused(why) => http_wire::Answer::Refused(*why),
            Outcome::DiskFault => http_wire::Answer::DiskFault,
        }
    }
}

/// What comes of a query that is refused.
pub(crate) fn refused(alloc: Global, why: &render_answer::Refusal) -> Result<Outcome, AllocError>
    ensures { IfOk result (λ outcome. outcome ≡ outcome_of (answered.Refused why.now)) }
{
    let text = why.text(alloc)?;
    Ok(Outcome::Unanswerable(Text::new(text)))
}

/// What comes of a plan for which this was found. Where memory ran out, nothing was; a disk's fault takes no memory.
pub(crate) fn found(
    alloc: Global,
    plan: &RenderPlan,
    found: Result<SeriesRows, AskFault>,
    answer_bytes: u64,
) -> Result<Outcome, AllocError>
    requires { IfOk found AreRows }
    ensures found { IfOk result (IsFound (plan_seen plan.now) found) }
    ensures short { OnErr result (IsNoFault found) }
{
    match found {
        Ok(rows) => made(alloc, plan, rows, Allowance::new(answer_bytes)),
        Err(AskFault::TooManySeries(count)) => {
            refused(alloc, &render_answer::Refusal::TooManySeries(count))
        }
        Err(AskFault::TooManyPoints(count)) => {
            refused(alloc, &render_answer::Refusal::TooManyPoints(count))
        }
        Err(AskFault::DiskFault(_)) => Ok(Outcome::DiskFault),
        Err(AskFault::NoMemory) => Err(AllocError),
    }
}

// What comes of a plan with these rows, in this room. The reply has the text where it stands.
fn made(
    alloc: Global,
    plan: &RenderPlan,
    rows: SeriesRows,
    room: Allowance,
) -> Result<Outcome, AllocError>
    requires { AreRows rows }
    ensures { IfOk result (IsFound (plan_seen plan.now) (Ok rows)) }
{
    match answer_within(alloc, plan, rows, room)? {
        Answer::Body(form, text) => Ok(Outcome::Found(media_of(form), text)),
        Answer::Refused(why) => refused(alloc, &why),
    }
}

// What the body of an answer in this form is.
fn media_of(form: Format) -> MediaType
    ensures { result ≡ media_of form }
{
    match form {
        Format::Json => MediaType::Json,
        Format::Raw => MediaType::Plain,
        Format::Csv => MediaType::Csv,
    }
}

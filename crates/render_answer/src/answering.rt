//! Answering a query.
ghost use Rattle.std.specs.Prelude.{◌≡◌, ◌≤◌, All, IfOk};
ghost use Rattle.render_plan.specs.Asked.{plan_seen};
ghost use Rattle.render_plan.specs.Bounds.{AreRows};
ghost use Rattle.render_plan.specs.declared.settings.Format.TheVariants.{Csv};
ghost use Rattle.render_json.specs.Csv.{latest_csv_end};
ghost use Rattle.series_set.specs.Series.{end_of};
ghost use Rattle.render_answer.specs.Answer.{AnswersRows, body_of};

use crate::answer::{Answer, Text};
use crate::refusal::Refusal;
use render_json::{csv_text, json_text, raw_text};
use render_plan::{Format, RenderPlan};
use series_set::{Allowance, EvalFault, SeriesRows, SeriesSet};
use std::alloc::{AllocError, Global};

/// How many bytes the series, names and text of a question may take where nothing else is said.
pub const ANSWER_BYTES: u64 = 268_435_456;

/// What a query is answered, of these rows: the series that its targets make of them, in its form, or why they have none together. More than
/// [`ANSWER_BYTES`] is want of memory.
pub fn answer_rows(alloc: Global, plan: &RenderPlan, rows: SeriesRows) -> Result<Answer, AllocError>
    requires { AreRows rows }
    ensures { IfOk result (AnswersRows (plan_seen plan.now) rows) }
{
    answer_within(alloc, plan, rows, Allowance::new(ANSWER_BYTES))
}

/// The same in this room, which the rows, what is made of them and the text take as long as they stand. Where there is not enough of it that
/// is want of memory.
pub fn answer_within(
    alloc: Global,
    plan: &RenderPlan,
    rows: SeriesRows,
    mut room: Allowance,
) -> Result<Answer, AllocError>
    requires { AreRows rows }
    ensures { IfOk result (AnswersRows (plan_seen plan.now) rows) }
{
    match plan.evaluate(alloc, rows, &mut room) {
        Ok(set) => {
            let text = text_of(alloc, plan.format(), set, &room)?;
            Ok(Answer::Body(plan.format(), Text::new(text)))
        }
        Err(EvalFault::StepTooWide(step)) => Ok(Answer::Refused(Refusal::StepTooWide(step))),
        Err(EvalFault::TooLong(count)) => Ok(Answer::Refused(Refusal::GridTooLong(count))),
        Err(EvalFault::NoMemory) => Err(AllocError),
    }
}

// Series in a form.
fn text_of(
    alloc: Global,
    format: Format,
    set: SeriesSet,
    room: &Allowance,
) -> Result<Vec<u8>, AllocError>
    requires { format ≡ Csv → All (λ s. end_of s ≤ latest_csv_end) set }
    ensures { IfOk result (λ text. text.items ≡ body_of format set) }
{
    match format {
        Format::Json => json_text(alloc, set, room),
        Format::Raw => raw_text(alloc, set, room),
        Format::Csv => csv_text(alloc, set, room),
    }
}

//! What holds of all answers. The functions do nothing: what they ensure is the law.
ghost use Rattle.std.specs.Prelude.{◌≡◌, ℕ, List, Option};
ghost use Rattle.outside_io.specs.Image.{Image};
ghost use Rattle.carbon_model.specs.State.{State};
ghost use Rattle.render_plan.specs.Needed.{needs_of};
ghost use Rattle.render_plan.specs.Planned.{Plan};
ghost use Rattle.render_plan.specs.Values.{Rows};
ghost use Rattle.found_rows.specs.Rows.{HasTooManyPoints, HasTooManySeries};
ghost use Rattle.render_answer.specs.declared.answer.Answer.{Answer};
ghost use Rattle.render_answer.specs.declared.answer.Answer.TheVariants.{Refused};
ghost use Rattle.render_answer.specs.declared.refusal.Refusal.TheVariants.{TooManyPoints, TooManySeries};
ghost use Rattle.render_answer.specs.Answer.{AnswersPlan, AnswersRows};
ghost use Rattle.answer_law.specs.Told.{AllTold, AreTold};

use found_rows::{queries_end_in_one_way, what_needs_find_is_one_list};

/// Rows leave a plan one answer: what its calls make of series is one, also where they sort.
pub fn rows_leave_one_answer()
    ensures { (plan : Plan) (rows : Rows) (a b : Answer)
        → AnswersRows plan rows a → AnswersRows plan rows b → a ≡ b }
{}

/// A state leaves a plan one answer, where what it keeps of the metrics that are found is known, as where all disks told what they held. Else the
/// values of a metric may be any, and so may the answer: but not where too many series or values are found, which are counted without them.
pub fn a_state_leaves_one_answer()
    ensures one { (told : ℕ → Option Image) (s : State) (now : ℕ) (plan : Plan) (a b : Answer)
        → AreTold told s now (needs_of plan)
        → AnswersPlan told s now plan a → AnswersPlan told s now plan b → a ≡ b }
    ensures all { (told : ℕ → Option Image) (s : State) (now : ℕ) (plan : Plan) (a b : Answer)
        → AllTold told
        → AnswersPlan told s now plan a → AnswersPlan told s now plan b → a ≡ b }
    ensures series { (told : ℕ → Option Image) (s : State) (now : ℕ) (plan : Plan) (count : ℕ)
        (b : Answer) → HasTooManySeries s now (needs_of plan) count
        → AnswersPlan told s now plan b → Refused (TooManySeries count) ≡ b }
    ensures points { (told : ℕ → Option Image) (s : State) (now : ℕ) (plan : Plan) (count : ℕ)
        (b : Answer) → HasTooManyPoints s now (needs_of plan) count
        → AnswersPlan told s now plan b → Refused (TooManyPoints count) ≡ b }
{
    what_needs_find_is_one_list();
    queries_end_in_one_way();
}

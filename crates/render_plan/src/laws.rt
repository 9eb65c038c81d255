//! What holds of all queries. The functions do nothing: what they ensure is the law.
ghost use Rattle.std.specs.Prelude.{ℕ, List};
ghost use Rattle.render_plan.specs.GivenLaws.{AreGiven};

/// All targets of a query that are not empty are read, in order, and of each other parameter the last text that is not empty.
#[tactic(auto, using(crate::proofs::GivenLemmas::are_given))]
pub fn the_last_text_of_a_parameter_holds()
    ensures { (query : List ℕ) (body : List ℕ) → AreGiven query body }
{}

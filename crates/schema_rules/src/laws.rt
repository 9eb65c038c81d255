//! What holds of every rule file. The functions do nothing: what they ensure is the law.

ghost use Rattle.schema_rules.specs.RetentionLaws.{AreOfPieces};

/// The archives of retentions are those of the pieces between commas, in order of step, and there are none
/// exactly where a piece has none.
#[tactic(auto, using(crate::proofs::RetentionLemmas::are_of_pieces))]
pub fn archives_are_those_of_the_pieces()
    ensures { AreOfPieces }
{}

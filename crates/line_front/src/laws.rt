//! What holds of every link. The functions do nothing: what they ensure is the law.

ghost use Rattle.line_front.specs.PointLaws.{PutsWhatIsEmitted};

/// What is put for a link that was read to its end are the points of its lines in their order, and
/// beside them, in theirs, what the rules emit for these.
#[tactic(auto, using(crate::proofs::LawLemmas::puts_what_is_emitted))]
pub fn what_is_put_beside_points_is_what_rules_emit()
    ensures { PutsWhatIsEmitted }
{}

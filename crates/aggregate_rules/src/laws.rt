//! What holds of every rule. The functions do nothing: what they ensure is the law.

ghost use Rattle.aggregate_rules.specs.Readings.{IsReadInOneWay};

/// A pattern covers a path in one way at most, so that what stands under its names is settled.
#[tactic(auto, using(crate::proofs::ReadingLemmas::read_in_one_way))]
pub fn a_path_is_read_in_one_way()
    ensures { IsReadInOneWay }
{}

//! What holds of the value that a method picks from any known values. The functions do nothing: what they
//! ensure is the law.

ghost use Rattle.ring_format.specs.declared.archive.Method.TheVariants.{AbsMax, AbsMin, Max, Min};
ghost use Rattle.rollup.specs.RollupLaws.{IsFarthest, IsGreatest, IsLeast, IsNearest, Picks};

/// `Max` gives a known value that none is above.
#[tactic(auto, using(crate::proofs::LawLemmas::picks_greatest))]
pub fn max_is_the_greatest()
    ensures { Picks Max IsGreatest }
{}

/// `Min` gives a known value that none is below.
#[tactic(auto, using(crate::proofs::LawLemmas::picks_least))]
pub fn min_is_the_least()
    ensures { Picks Min IsLeast }
{}

/// `AbsMax` gives a known value that none is farther from zero than, and of those as far the earliest.
#[tactic(auto, using(crate::proofs::LawLemmas::picks_farthest))]
pub fn abs_max_is_the_earliest_farthest()
    ensures { Picks AbsMax IsFarthest }
{}

/// `AbsMin` gives a known value that none is nearer to zero than, and of those as near the earliest.
#[tactic(auto, using(crate::proofs::LawLemmas::picks_nearest))]
pub fn abs_min_is_the_earliest_nearest()
    ensures { Picks AbsMin IsNearest }
{}

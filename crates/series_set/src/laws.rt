//! What holds of common grids, averages and thinned series. The functions do nothing: what they ensure is the law.
ghost use Rattle.series_set.specs.GridLaws.{AgreeingSeriesKeepTheirGrid, AverageIsRoundedDown, CommonStepIsLeast, FewValuesStay, GridHoldsAllMoments, OwnGridStays};

/// The step of a common grid is a multiple of each series' step, and no lesser number above 0 is.
#[tactic(auto, using(crate::proofs::LawLemmas::common_step_is_least))]
pub fn common_step_is_the_least_multiple()
    ensures { CommonStepIsLeast }
{}

/// All moments of all series lie in their common grid.
#[tactic(auto, using(crate::proofs::LawLemmas::grid_holds_all_moments))]
pub fn common_grid_holds_all_moments()
    ensures { GridHoldsAllMoments }
{}

/// Series that agree in start, end and step keep them as their grid.
#[tactic(auto, using(crate::proofs::LawLemmas::agreeing_series_keep_their_grid))]
pub fn agreeing_series_keep_their_grid()
    ensures { AgreeingSeriesKeepTheirGrid }
{}

/// An average is the greatest number that, taken as often as there are values, is not above their sum.
#[tactic(auto, using(crate::proofs::LawLemmas::average_is_rounded_down))]
pub fn average_is_rounded_down()
    ensures { AverageIsRoundedDown }
{}

/// A series on its own grid is as it was.
#[tactic(auto, using(crate::proofs::LawLemmas::own_grid_is_kept))]
pub fn own_grid_changes_nothing()
    ensures { OwnGridStays }
{}

/// Thinning leaves a series as it is that has no more values than wanted.
#[tactic(auto, using(crate::proofs::LawLemmas::few_values_stay))]
pub fn few_values_stay()
    ensures { FewValuesStay }
{}

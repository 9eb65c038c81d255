//! What holds of all spans and dates. The functions do nothing: what they ensure is the law.

ghost use Rattle.time_range.specs.CalendarLaws.{BeginsWithTheEpoch, DaysFollow, HoursFollow};
ghost use Rattle.time_range.specs.SpanLaws.{AddsUp, AddsUpInAnyOrder, IsOfSpansAlone};

/// A text of spans has the seconds of all of them, in whatever order they stand, and no other text
/// has any.
#[tactic(auto, using(crate::proofs::SpanLawLemmas::adds_up, crate::proofs::SpanLawLemmas::adds_up_in_any_order, crate::proofs::SpanLawLemmas::of_spans_alone))]
pub fn spans_add_up()
    ensures sum { AddsUp }
    ensures order { AddsUpInAnyOrder }
    ensures alone { IsOfSpansAlone }
{}

/// From 1 January 1970 on, which begins with the second 0, each date is 86,400 seconds behind the
/// one before: the next day of its month, the first of the next month, or 1 January. A time of day
/// is its hours and minutes behind its date.
#[tactic(auto, using(crate::proofs::CalendarLemmas::begins_with_the_epoch, crate::proofs::CalendarLemmas::days_follow, crate::proofs::CalendarLemmas::hours_follow))]
pub fn dates_are_a_day_apart()
    ensures epoch { BeginsWithTheEpoch }
    ensures days { DaysFollow }
    ensures hours { HoursFollow }
{}

//! What holds of every metric line. The functions do nothing: what they ensure is the law.

ghost use Rattle.metric_line.specs.LineLaws.{IsNoWantOfMemory, IsReadAlike, IsRefusedAlways, IsStampedNow};

/// Whether a line is refused, and why, does not depend on the moment of reading.
#[tactic(auto, using(crate::proofs::LawLemmas::refused_always))]
pub fn refusals_do_not_depend_on_now()
    ensures { IsRefusedAlways }
{}

/// Only the time `-1` depends on the moment of reading, and it is that moment.
#[tactic(auto, using(crate::proofs::LawLemmas::read_alike, crate::proofs::LawLemmas::stamped_now))]
pub fn only_minus_one_depends_on_now()
    ensures alike { IsReadAlike }
    ensures stamped { IsStampedNow }
{}

/// No line is at fault for want of memory.
#[tactic(auto, using(crate::proofs::LawLemmas::no_want_of_memory))]
pub fn want_of_memory_is_no_fault()
    ensures { IsNoWantOfMemory }
{}

//! The faults of heads and layouts in words.
ghost use Rattle.std.specs.Prelude.{◌≡◌};
ghost use Rattle.ring_look.specs.Words.{advice_words, archive_of_fault, archive_of_layout_fault, damage_advice, fault_words, layout_words};

use ring_format::{HeadFault, LayoutFault};

/// The rule that a layout breaks.
#[tactic(auto, unfolding(crate::specs::Words::layout_words))]
pub fn layout_words(fault: LayoutFault) -> &'static str
    ensures { result.now ≡ layout_words fault }
{
    match fault {
        LayoutFault::NoArchive => "no archive",
        LayoutFault::BadStep(_) => "a step of 0 seconds, or of more than 365 days",
        LayoutFault::StepOrder(_) => "a step that is not below that of the next archive",
        LayoutFault::StepDivides(_) => "a step that does not divide that of the next archive",
        LayoutFault::TooFewPoints(_) => "no points, or fewer than a step of the next archive spans",
        LayoutFault::TooLong(_) => "a retention of more than 4000000000 seconds",
        LayoutFault::Retention(_) => "a retention that is not below that of the next archive",
        LayoutFault::TooManyPoints => "more than 4000000 points in all",
        LayoutFault::BadFactor => "a factor above 1",
    }
}

/// The archive of which a fault of a layout tells, from 0 on; `None` where it tells of none.
#[tactic(auto, unfolding(crate::specs::Words::archive_of_layout_fault))]
pub fn archive_of_layout_fault(fault: LayoutFault) -> Option<u32>
    ensures { result ≡ archive_of_layout_fault fault }
{
    match fault {
        LayoutFault::NoArchive => None,
        LayoutFault::BadStep(place) => Some(place),
        LayoutFault::StepOrder(place) => Some(place),
        LayoutFault::StepDivides(place) => Some(place),
        LayoutFault::TooFewPoints(place) => Some(place),
        LayoutFault::TooLong(place) => Some(place),
        LayoutFault::Retention(place) => Some(place),
        LayoutFault::TooManyPoints => None,
        LayoutFault::BadFactor => None,
    }
}

/// What is wrong with a head.
#[tactic(auto, unfolding(crate::specs::Words::fault_words))]
pub(crate) fn fault_words(fault: HeadFault) -> &'static str
    ensures { result.now ≡ fault_words fault }
{
    match fault {
        HeadFault::Zero => "its head is zero, as a crash may leave it",
        HeadFault::Short => "it is shorter than its head",
        HeadFault::Method => "its first word is no method",
        HeadFault::Count => "its number of archives is not 1 to 25",
        HeadFault::Offset(_) => "an archive that does not begin where the one before it ends",
        HeadFault::Retention => "its retention is not that of its last archive",
        HeadFault::Length => "it does not end with its last archive",
        HeadFault::Layout(fault) => layout_words(fault),
    }
}

/// The archive of which a fault of a head tells.
#[tactic(auto, unfolding(crate::specs::Words::archive_of_fault))]
pub(crate) fn archive_of_fault(fault: HeadFault) -> Option<u32>
    ensures { result ≡ archive_of_fault fault }
{
    match fault {
        HeadFault::Zero => None,
        HeadFault::Short => None,
        HeadFault::Method => None,
        HeadFault::Count => None,
        HeadFault::Offset(place) => Some(place),
        HeadFault::Retention => None,
        HeadFault::Length => None,
        HeadFault::Layout(fault) => archive_of_layout_fault(fault),
    }
}

/// What is to be done with a file whose head has this fault.
#[tactic(auto, unfolding(crate::specs::Words::advice_words))]
pub(crate) fn advice_words(fault: HeadFault) -> &'static str
    ensures { result.now ≡ advice_words fault }
{
    match fault {
        HeadFault::Zero => "it counts as none, and may be removed while carbon is stopped",
        HeadFault::Short => damage_advice(),
        HeadFault::Method => damage_advice(),
        HeadFault::Count => damage_advice(),
        HeadFault::Offset(_) => damage_advice(),
        HeadFault::Retention => damage_advice(),
        HeadFault::Length => damage_advice(),
        HeadFault::Layout(_) => damage_advice(),
    }
}

#[tactic(auto, unfolding(crate::specs::Words::damage_advice))]
fn damage_advice() -> &'static str
    ensures { result.now ≡ damage_advice }
{
    "put a whole copy in its place while carbon is stopped, or move it away: its metric begins anew"
}

//! What holds of quotients. The functions do nothing: what they ensure is the law.
ghost use Rattle.series_funcs.specs.FuncLaws.{QuotientIsRoundedDown, SignsCancel};

/// A quotient by a number above 0 is the greatest number that, taken as often as that says, is not above the dividend.
pub fn quotient_is_rounded_down()
    ensures { QuotientIsRoundedDown }
{}

/// A quotient by a negative number is that of the two negated.
#[tactic(auto, using(crate::proofs::QuotientLemmas::signs_cancel))]
pub fn signs_cancel_in_quotients()
    ensures { SignsCancel }
{}

//! What holds of every text and every value. The functions do nothing: what they ensure is the law.

ghost use Rattle.std.specs.Prelude.{◌≡◌, ◌↔◌, ℕ, ℤ, List, Some, true};
ghost use Rattle.fixed_num.specs.Decimal.{fits, milli};
ghost use Rattle.fixed_num.specs.Milli.{IsMilli};
ghost use Rattle.fixed_num.specs.Print.{milli_text};
ghost use Rattle.fixed_num.specs.Read.{milli_result};
ghost use Rattle.std.specs.Result.{result_ok};

/// What is printed is read back: the text of a value is a number, and its value is that one.
#[tactic(auto, using(crate::proofs::PrintLemmas::printed_is_read))]
pub fn printed_text_is_read_back()
    ensures { (value : ℤ) → IsMilli value → milli (milli_text value) ≡ Some value }
{}

/// What [`read_milli`](crate::read_milli) answers is the value of the text, and it answers a fault
/// for just the texts that have none.
#[tactic(auto, using(crate::proofs::ReadLemmas::milli_result_value))]
pub fn read_text_has_its_value()
    ensures { (text : List ℕ) → result_ok (milli_result text) ≡ milli text }
{}

/// A whole number is a value exactly where it is found to fit.
#[tactic(auto, using(crate::proofs::FitLemmas::fits_is_milli))]
pub fn values_are_what_fits()
    ensures { (number : ℤ) → IsMilli number ↔ fits number ≡ true }
{}

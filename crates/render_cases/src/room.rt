//! The room for what is made in a case.

use series_set::Allowance;

/// More than any case takes.
pub fn plenty() -> Allowance {
    Allowance::new(1 << 40)
}

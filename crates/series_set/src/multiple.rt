//! Common divisors and multiples.
ghost use Rattle.std.specs.Prelude.{◌≡◌, ◌≤◌};
ghost use Rattle.std.specs.Int.{IsGcd};
ghost use Rattle.series_set.specs.Series.{widest_step};
ghost use Rattle.series_set.specs.CommonGrid.{lcm};

/// The least common multiple of two steps.
#[tactic(auto, using(crate::proofs::MultipleLemmas::gcd_some, crate::proofs::MultipleLemmas::lcm_by_gcd, crate::proofs::MultipleLemmas::quotient_some))]
pub(crate) fn lcm(a: u64, b: u64) -> u64
    requires some { 1 ≤ a }
    requires also { 1 ≤ b }
    requires short { a ≤ widest_step }
    requires narrow { b ≤ widest_step }
    ensures value { result ≡ lcm a b }
    ensures least { 1 ≤ result }
{
    a / gcd(a, b) * b
}

// The greatest common divisor, by Euclid's algorithm.
fn gcd(a: u64, b: u64) -> u64
    ensures { IsGcd a b result }
{
    let mut x = a;
    let mut y = b;
    while y != 0 {
        let rest = x % y;
        x = y;
        y = rest;
    }
    x
}

// What time it is.
ghost use Rattle.std.specs.Prelude.{◌≡◌, ℕ, true};
ghost use Rattle.fixed_num.specs.Moment.{is_moment};

/// A clock of whole seconds.
pub trait Clock {
    // The moments that this clock may answer.
    ghost moments: { Self → ℕ → Type 0 };

    /// The moment now, in seconds since the Unix epoch: from 31,536,000 to 4,000,000,000.
    fn now(&self) -> u64
        ensures moment { moments self.now result }
        ensures legal { is_moment result ≡ true };

    /// Waits for a short while. A clock that stands still returns at once.
    fn pause(&self);

    // Each of its moments is a legal one.
    ghost legal_moments: { (clock : Self) (moment : ℕ) → moments clock moment → is_moment moment ≡ true };
}

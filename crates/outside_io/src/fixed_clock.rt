// A clock that stands still.
ghost use Rattle.std.specs.Prelude.{◌≡◌, true};
ghost use Rattle.fixed_num.specs.Moment.{is_moment};

use crate::clock::Clock;

/// A clock that always answers one moment.
#[derive(Clone, Copy, Debug)]
pub struct FixedClock {
    moment: u64,
    ghost legal: { is_moment moment ≡ true },
}

impl FixedClock {
    /// The clock of this moment, in seconds since the Unix epoch.
    pub fn new(moment: u64) -> Self
        requires { is_moment moment ≡ true }
        ensures { ⟦<FixedClock as Clock>⟧.moments result moment }
    {
        FixedClock { moment }
    }
}

impl Clock for FixedClock {
    ghost use Rattle.std.proofs.Common.{rules};

    ghost moments = { λ clock moment. moment ≡ clock.moment };

    ghost legal_moments = { Prim.search rules };

    fn now(&self) -> u64 {
        self.moment
    }

    fn pause(&self) {}
}

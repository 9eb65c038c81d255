// The clock of the system.
ghost use Rattle.std.specs.Prelude.{◌≡◌, true};
ghost use Rattle.fixed_num.specs.Moment.{is_moment};

use fixed_num::{GREATEST_MOMENT, LEAST_MOMENT};
use outside_io::Clock;
use std::thread;
use std::time::Duration;

// How long a pause is: short beside the time that a point may wait to be written, long beside a look at all classes.
const PAUSE_MILLIS: u64 = 50;

/// The clock of the system, in whole seconds.
///
/// A time before 1971 or after 2096 is no legal moment: then the clock answers the first or the last one. So it does
/// with a clock that cannot be read, which it takes for one before 1971.
#[derive(Clone, Copy, Drop)]
pub struct SystemClock<R> {
    rt: R,
}

impl<R: std::time::Clock> SystemClock<R> {
    /// The clock of this runtime.
    pub fn new(rt: R) -> Self {
        SystemClock { rt }
    }
}

impl<R: std::time::Clock> Clock for SystemClock<R> {
    ghost use Rattle.std.proofs.Common.{rules};

    ghost moments = { λ _ moment. is_moment moment ≡ true };

    ghost legal_moments = { Prim.search rules };

    fn now(&self) -> u64 {
        let seconds = match self.rt.since_1970() {
            Ok(time) => time.as_secs(),
            Err(_) => 0,
        };
        seconds.clamp(u64::from(LEAST_MOMENT), u64::from(GREATEST_MOMENT))
    }

    /// Sleeps for 50 milliseconds.
    fn pause(&self) {
        thread::sleep(&self.rt, Duration::from_millis(PAUSE_MILLIS));
    }
}

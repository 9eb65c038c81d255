// A clock that moves on.
ghost use Rattle.std.specs.Prelude.{◌≡◌, true};
ghost use Rattle.fixed_num.specs.Moment.{is_moment};

use outside_io::Clock;
use std::sync::atomic::{AtomicU64, Ordering};

// The first and the last moment that a clock may tell.
const FIRST: u64 = 31_536_000;

const LAST: u64 = 4_000_000_000;

// A clock that moves on by so many seconds whenever it is read.
#[derive(Drop)]
pub(crate) struct MovingClock {
    next: AtomicU64,
    step: u64,
}

impl MovingClock {
    // The clock that tells this moment first.
    pub(crate) fn new(first: u64, step: u64) -> MovingClock {
        MovingClock {
            next: AtomicU64::new(first),
            step,
        }
    }
}

impl Clock for MovingClock {
    ghost use Rattle.std.proofs.Common.{rules};

    ghost moments = { λ _ moment. is_moment moment ≡ true };

    ghost legal_moments = { λ _ _ legal. legal };

    fn now(&self) -> u64 {
        self.next
            .fetch_add(self.step, Ordering::SeqCst)
            .clamp(FIRST, LAST)
    }

    fn pause(&self) {}
}

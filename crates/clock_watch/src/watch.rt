//! A watch.
ghost use Rattle.std.specs.Prelude.{◌≡◌, [], ◌∷◌, ◌++◌, true};
ghost use Rattle.fixed_num.specs.Moment.{is_moment};

use outside_io::Clock;
use std::marker::{Model, PhantomData};
use trace::Trace;

/// What a thread reads a clock by. Contracts see all moments that it told, in order; it takes no
/// memory for them. A moment that was read before is told by the list, and so is one that was read
/// and not used.
#[derive(Drop)]
pub struct Watch<C: Clock> {
    told: Trace<u32>,
    of: PhantomData<C>,
}

impl<C: Clock> Model for Watch<C> {
    ghost use Rattle.std.specs.Prelude.{List, ℕ};

    ghost Value = { List ℕ };

    ghost view = { λ w. w.told };
}

impl<C: Clock> Watch<C> {
    /// A watch that has told nothing.
    pub fn new() -> Watch<C>
        ensures { result ≡ [] }
    {
        Watch {
            told: Trace::new(),
            of: PhantomData,
        }
    }

    /// The moment that the clock tells, in seconds since the Unix epoch. The clock is read once.
    #[tactic(auto, using(crate::proofs::WatchLemmas::moment_fits))]
    pub fn read(&mut self, clock: &C) -> u32
        ensures moment { C.moments clock.now result }
        ensures legal { is_moment result ≡ true }
        ensures told { self.new ≡ self.old ++ result ∷ [] }
    {
        let now = clock.now() as u32;
        self.told.add(&now);
        now
    }
}

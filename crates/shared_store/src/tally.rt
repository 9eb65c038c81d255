//! How many entries of each kind a history has.
ghost use Rattle.std.specs.Prelude.{◌≡◌, []};
ghost use Rattle.shared_store.specs.Tallies.{tally_of, tally_with};

use carbon_history::PutEnd;
use shared_history::Event;

/// How many entries a history has: puts by their outcome, and drains. A count that has come to 2^64
/// - 1 stays there.
#[derive(Clone, Copy, Debug, PartialEq, Eq)]
pub struct Tally {
    /// Points that were stored.
    pub stored: u64,
    /// Points whose value was replaced.
    pub replaced: u64,
    /// Points that found their class full.
    pub full: u64,
    /// Metrics that were drained.
    pub drains: u64,
}

impl Tally {
    ghost use Rattle.std.specs.Prelude.{ℕ};
    ghost use Rattle.shared_history.specs.Events.{entry_of};

    /// Nothing is counted.
    #[tactic(auto, unfolding(crate::specs::Tallies::tally_of))]
    pub fn new() -> Tally
        ensures { result ≡ tally_of [] }
    {
        Tally {
            stored: 0,
            replaced: 0,
            full: 0,
            drains: 0,
        }
    }

    // One more.
    pub(crate) fn count(&mut self, event: &Event<'_>)
        ensures { (pass class : ℕ) → self.new ≡ tally_with self.old (entry_of pass class event.now) }
    {
        match event {
            Event::Put(_, _, _, PutEnd::Stored) => self.stored = self.stored.saturating_add(1),
            Event::Put(_, _, _, PutEnd::Replaced) => {
                self.replaced = self.replaced.saturating_add(1)
            }
            Event::Put(_, _, _, PutEnd::Full) => self.full = self.full.saturating_add(1),
            Event::Drain(_, _) => self.drains = self.drains.saturating_add(1),
            Event::Fault => {}
        }
    }
}

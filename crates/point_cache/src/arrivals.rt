ghost use Rattle.std.specs.Prelude.{◌≡◌, ◌<◌, Some, length, slice_get, map};

use std::marker::Model;

/// The place of a metric, and the number of its arrival.
#[derive(Clone, Copy, PartialEq, Eq, PartialOrd, Ord)]
pub(crate) struct Arrival {
    pub(crate) number: u64,
    pub(crate) place: usize,
}

/// The places of metrics in the order in which they arrived.
#[derive(Drop)]
pub struct Arrivals {
    items: Vec<Arrival>,
}

impl Model for Arrivals {
    ghost use Rattle.std.specs.Prelude.{List, ℕ, map};

    ghost Value = { List ℕ };

    ghost view = { λ a. map (λ arrival. arrival.place) a.items.items };
}

impl Arrivals {
    /// These places.
    pub(crate) fn new(items: Vec<Arrival>) -> Arrivals
        ensures { result ≡ map (λ arrival. arrival.place) items.items }
    {
        Arrivals { items }
    }

    /// How many there are.
    pub fn len(&self) -> usize
        ensures { result ≡ length self.now }
    {
        self.items.len()
    }

    /// The place of the metric that arrived after so many others.
    pub fn place(&self, index: usize) -> usize
        requires { index < length self.now }
        ensures { slice_get self.now index ≡ Some result }
    {
        self.items[index].place
    }
}

//! A list that only contracts read.
ghost use Rattle.std.specs.Prelude.{◌≡◌, List, [], ◌∷◌, ◌++◌};

use std::marker::Model;
use std::mem;
use std::snapshot::Snapshot;

// What happened before, and then this.
#[derive(Drop)]
pub(crate) enum Past<T> {
    Nothing,
    Then(Snapshot<Past<T>>, Snapshot<T>),
}

/// What happened, in order.
#[derive(Drop)]
pub struct Trace<T> {
    past: Snapshot<Past<T>>,
}

impl<T> Model for Trace<T> {
    ghost use Rattle.std.specs.Prelude.{List};
    ghost use Rattle.trace.specs.Past.{listed};

    ghost Value = { List T };

    ghost view = { λ t. listed t.past.value };
}

impl<T> Trace<T> {
    /// Nothing happened yet.
    pub fn new() -> Trace<T>
        ensures { result ≡ [] }
    {
        Trace {
            past: Snapshot::of(&Past::Nothing),
        }
    }

    /// This happened then.
    pub fn add(&mut self, next: &T)
        ensures { self.new ≡ self.old ++ next.now ∷ [] }
    {
        let past = mem::replace(&mut self.past, Snapshot::of(&Past::Nothing));
        self.past = Snapshot::of(&Past::Then(past, Snapshot::of(next)));
    }
}

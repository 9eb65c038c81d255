//! Values whose memory is given back while they are told.
ghost use Rattle.std.specs.Prelude.{◌≡◌};

use series_set::Reading;
use std::marker::Model;

// How many values are told before their memory is given back.
const PIECE: usize = 65_536;

/// The values that are still to be told, in order. Where they are many, those that were told leave their memory in pieces: a text of millions of
/// values takes more than they do, and stands beside what is left of them.
#[derive(Drop)]
pub(crate) struct Remaining {
    last_first: Vec<Reading>,
}

impl Model for Remaining {
    ghost use Rattle.std.specs.Prelude.{List, Option, ℤ, reverse};

    ghost Value = { List (Option ℤ) };

    ghost view = { λ r. reverse r.last_first.items };
}

impl Remaining {
    ghost use Rattle.std.specs.Prelude.{◌≡◌, ◌++◌, [], None, option_to_list};

    /// All of these values.
    pub(crate) fn new(values: Vec<Reading>) -> Remaining
        ensures { result ≡ values.items }
    {
        let mut last_first = values;
        last_first.reverse();
        Remaining { last_first }
    }

    /// The next value, `None` where all are told.
    #[inline(always)]
    pub(crate) fn next(&mut self) -> Option<Reading>
        ensures next { self.old ≡ option_to_list result ++ self.new }
        ensures end { result ≡ None → self.old ≡ [] }
    {
        let value = self.last_first.pop();
        if self.last_first.len() % PIECE == 0 {
            self.last_first.shrink_to_fit();
        }
        value
    }
}

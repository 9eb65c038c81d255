ghost use Rattle.std.specs.Prelude.{◌≡◌};

use fixed_num::Milli;
use std::marker::Model;

/// The values of neighbouring buckets, in order, in thousandths: none where a bucket has none.
#[derive(Drop)]
pub struct Values {
    items: Vec<Option<Milli>>,
}

impl Model for Values {
    ghost use Rattle.std.specs.Prelude.{List, Option, ℤ};

    ghost Value = { List (Option ℤ) };

    ghost view = { λ v. v.items.items };
}

impl Values {
    /// These values.
    pub fn new(items: Vec<Option<Milli>>) -> Values
        ensures { result ≡ items.items }
    {
        Values { items }
    }

    /// The values as a slice.
    pub fn list(&self) -> &[Option<Milli>]
        ensures { result.now ≡ self.now }
    {
        self.items.as_slice()
    }

    /// The values, which are not copied.
    pub fn into_vec(self) -> Vec<Option<Milli>>
        ensures { result.items ≡ self }
    {
        self.items
    }
}

/// What is shown of a metric: the values of buckets, a step apart.
#[derive(Drop)]
pub struct Series {
    /// The first bucket, in seconds since the Unix epoch.
    pub first: u32,
    /// The seconds from one bucket to the next.
    pub step: u32,
    /// The values.
    pub values: Values,
}

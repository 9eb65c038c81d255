//! Lists of series.
ghost use Rattle.std.specs.Prelude.{◌≡◌, ◌++◌, [], ◌∷◌, OnOk, OnErr, length, slice_get, option_map};
ghost use Rattle.series_set.specs.Sizes.{size_of_all};

use crate::allowance::Size;
use crate::series::Series;
use std::alloc::{AllocError, Global};
use std::marker::Model;

/// Series in order.
#[derive(Drop)]
pub struct SeriesSet {
    items: Vec<Series>,
}

impl Model for SeriesSet {
    ghost use Rattle.std.specs.Prelude.{List};
    ghost use Rattle.series_set.specs.Series.{SeriesValue};

    ghost Value = { List SeriesValue };

    ghost view = { λ s. s.items.items };
}

impl SeriesSet {
    /// No series.
    pub fn new(alloc: Global) -> SeriesSet
        ensures { result ≡ [] }
    {
        SeriesSet {
            items: Vec::new(alloc),
        }
    }

    /// These series.
    pub fn from_vec(items: Vec<Series>) -> SeriesSet
        ensures { result ≡ items.items }
    {
        SeriesSet { items }
    }

    /// The series.
    pub fn into_vec(self) -> Vec<Series>
        ensures { result.items ≡ self }
    {
        self.items
    }

    /// Adds a series at the end; where there was no memory the list is as it was.
    pub fn push(&mut self, series: Series) -> Result<(), AllocError>
        ensures ok { OnOk result (self.new ≡ self.old ++ series ∷ []) }
        ensures err { OnErr result (self.new ≡ self.old) }
    {
        self.items.push(series)?;
        Ok(())
    }

    /// The series in order.
    pub fn as_slice(&self) -> &[Series]
        ensures { result.now ≡ self.now }
    {
        self.items.as_slice()
    }

    /// How many series there are.
    pub fn len(&self) -> usize
        ensures { result ≡ length self.now }
    {
        self.items.len()
    }

    /// What the series take.
    pub fn size(&self) -> Size
        ensures { result ≡ size_of_all self.now }
    {
        let mut size = Size::of_text(0);
        for series in &self.items {
            size = size.plus(series.size());
        }
        size
    }
}

/// Lists of series: one for each need of a query, in order.
#[derive(Drop)]
pub struct SeriesRows {
    items: Vec<SeriesSet>,
}

impl Model for SeriesRows {
    ghost use Rattle.std.specs.Prelude.{List};
    ghost use Rattle.series_set.specs.Series.{SeriesValue};

    ghost Value = { List (List SeriesValue) };

    ghost view = { λ s. s.items.items };
}

impl SeriesRows {
    /// No lists.
    pub fn new(alloc: Global) -> SeriesRows
        ensures { result ≡ [] }
    {
        SeriesRows {
            items: Vec::new(alloc),
        }
    }

    /// Adds a list at the end; where there was no memory the lists are as they were.
    pub fn push(&mut self, set: SeriesSet) -> Result<(), AllocError>
        ensures ok { OnOk result (self.new ≡ self.old ++ set ∷ []) }
        ensures err { OnErr result (self.new ≡ self.old) }
    {
        self.items.push(set)?;
        Ok(())
    }

    /// The lists, which are not copied.
    pub fn into_vec(self) -> Vec<SeriesSet>
        ensures { result.items ≡ self }
    {
        self.items
    }

    /// The lists in order.
    pub fn as_slice(&self) -> &[SeriesSet]
        ensures { result.now ≡ self.now }
    {
        self.items.as_slice()
    }

    /// How many lists there are.
    pub fn len(&self) -> usize
        ensures { result ≡ length self.now }
    {
        self.items.len()
    }
}

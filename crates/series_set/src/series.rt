//! The type of a series.
ghost use Rattle.std.specs.Prelude.{◌≡◌, ◌+◌, ◌*◌, ◌≤◌, ◌↔◌, [], IsTrue, SomeIff, IfOk, string_bytes};
ghost use Rattle.series_set.specs.CommonGrid.{has_grid};
ghost use Rattle.series_set.specs.OnGrid.{IsPlaceOf};
ghost use Rattle.series_set.specs.Series.{IsSeries, SeriesValue, end_of, latest_end, most_values};
ghost use Rattle.series_set.specs.Sizes.{size_of};

use crate::allowance::Size;
use crate::grid::Grid;
use crate::reading::Reading;
use std::alloc::AllocError;
use std::marker::Model;

/// The most values of a series or a grid.
pub const MOST_VALUES: u64 = 4_000_000;

/// The latest moment at which a series ends, in seconds since the Unix epoch.
pub const LATEST_END: u64 = 1 << 62;

/// The widest step of series that are brought to a common grid, in seconds: those of 365 days.
pub const WIDEST_STEP: u64 = 31_536_000;

// What a series takes beside its texts and its values: the struct, and what the heap adds to three pieces.
const SERIES_BYTES: usize = 160;

/// Values of neighbouring moments, in thousandths, `None` where one is missing. The first is of the moment `start`, in seconds since the
/// Unix epoch, and each further one of `step` seconds later.
///
/// The step is at least 1, there are at most [`MOST_VALUES`], and the step of the last value ends at [`LATEST_END`] or before.
#[derive(Drop)]
pub struct Series {
    name: String,
    path: String,
    start: u64,
    step: u64,
    values: Vec<Reading>,
}

impl Model for Series {
    ghost use Rattle.std.specs.Prelude.{string_bytes};
    ghost use Rattle.series_set.specs.Series.{IsSeries, SeriesValue};

    ghost Value = { SeriesValue };

    ghost view = { λ s. record {
      name = string_bytes s.name;
      path = string_bytes s.path;
      start = s.start;
      step = s.step;
      values = s.values.items;
    } };

    ghost invariant = { λ s. IsSeries (record {
      name = string_bytes s.name;
      path = string_bytes s.path;
      start = s.start;
      step = s.step;
      values = s.values.items;
    }) };
}

impl Series {
    /// The series of these values, or `None` exactly where the step is 0, there are more than [`MOST_VALUES`], or they end after
    /// [`LATEST_END`].
    pub fn new(
        name: String,
        path: String,
        start: u64,
        step: u64,
        values: Vec<Reading>,
    ) -> Option<Series>
        ensures { let series : SeriesValue = record {
          name = string_bytes name;
          path = string_bytes path;
          start = start;
          step = step;
          values = values.items;
        } in SomeIff result (IsSeries series) series }
    {
        if !is_legal(start, step, values.len()) {
            return None;
        }
        Some(Series {
            name,
            path,
            start,
            step,
            values,
        })
    }

    /// The series of these values, where they are known to make one.
    pub fn from_legal(
        name: String,
        path: String,
        start: u64,
        step: u64,
        values: Vec<Reading>,
    ) -> Series
        requires { IsSeries (record {
          name = string_bytes name;
          path = string_bytes path;
          start = start;
          step = step;
          values = values.items;
        }) }
        ensures { result ≡ record {
          name = string_bytes name;
          path = string_bytes path;
          start = start;
          step = step;
          values = values.items;
        } }
    {
        Series {
            name,
            path,
            start,
            step,
            values,
        }
    }

    /// What stands for the series in a reply.
    pub fn name(&self) -> &str
        ensures { result.now ≡ self.now.name }
    {
        self.name.as_str()
    }

    /// The path of the metric that the series comes from.
    pub fn path(&self) -> &str
        ensures { result.now ≡ self.now.path }
    {
        self.path.as_str()
    }

    /// The moment of the first value, in seconds since the Unix epoch.
    pub fn start(&self) -> u64
        ensures { result ≡ self.now.start }
    {
        self.start
    }

    /// The moment a step after the last value, in seconds since the Unix epoch.
    pub fn end(&self) -> u64
        ensures value { result ≡ end_of self.now }
        ensures early { result ≤ latest_end }
    {
        self.start + self.values.len() as u64 * self.step
    }

    /// The seconds from one value to the next.
    pub fn step(&self) -> u64
        ensures value { result ≡ self.now.step }
        ensures some { 1 ≤ result }
    {
        self.step
    }

    /// The values in order of time, in thousandths, `None` where one is missing.
    pub fn values(&self) -> &[Reading]
        ensures value { result.now ≡ self.now.values }
        ensures legal { IsSeries self.now }
    {
        self.values.as_slice()
    }

    /// What the series takes.
    pub fn size(&self) -> Size
        ensures { result ≡ size_of self.now }
    {
        let path = Size::of_text(self.path.len().saturating_add(SERIES_BYTES));
        let texts = Size::of_name(self.name.len()).plus(path);
        texts.plus(Size::of_values(self.values.len() as u64))
    }

    /// Whether the series has the start, the end and the step of a grid.
    pub fn has_grid(&self, grid: Grid) -> bool
        ensures { result ≡ has_grid grid self.now }
    {
        self.start() == grid.start && self.end() == grid.end && self.step() == grid.step
    }

    /// How many values come before a moment.
    pub fn place_of(&self, moment: u64) -> usize
        ensures { IsPlaceOf self.now moment result }
    {
        let passed = moment.saturating_sub(self.start()).div_ceil(self.step());
        self.values().len().min(passed as usize)
    }

    /// The series under another name.
    pub fn renamed(self, name: String) -> Series
        ensures { result ≡ record self { name = string_bytes name } }
    {
        Series { name, ..self }
    }

    /// The series as one of another path.
    pub fn with_path(self, path: String) -> Series
        ensures { result ≡ record self { path = string_bytes path } }
    {
        Series { path, ..self }
    }

    /// Takes the values out; the series is left without any.
    pub fn take_values(&mut self) -> Vec<Reading>
        ensures values { result.items ≡ self.old.values }
        ensures left { self.new ≡ record self.old { values = [] } }
        ensures legal { IsSeries self.old }
    {
        let alloc = *self.values.allocator();
        std::mem::replace(&mut self.values, Vec::new(alloc))
    }

    /// The series with other values.
    pub fn with_values(self, values: Vec<Reading>) -> Series
        requires { IsSeries (record self { values = values.items }) }
        ensures { result ≡ record self { values = values.items } }
    {
        Series { values, ..self }
    }

    /// Another value of the same series.
    pub fn copy(&self) -> Result<Series, AllocError>
        ensures { IfOk result (λ series. series ≡ self.now) }
    {
        let name = self.name.clone()?;
        let path = self.path.clone()?;
        let values = Vec::from_slice(*self.values.allocator(), self.values.as_slice())?;
        Ok(Series {
            name,
            path,
            start: self.start,
            step: self.step,
            values,
        })
    }
}

// Whether so many values, a step apart, make a series.
fn is_legal(start: u64, step: u64, count: usize) -> bool
    ensures { IsTrue result
        ↔ ((1 ≤ step) × ((count ≤ most_values) × (start + count * step ≤ latest_end))) }
{
    let count = count as u64;
    let end = u128::from(start) + u128::from(count) * u128::from(step);
    step >= 1 && count <= MOST_VALUES && end <= u128::from(LATEST_END)
}

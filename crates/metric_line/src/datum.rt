ghost use Rattle.std.specs.Prelude.{◌≡◌, true};
ghost use Rattle.fixed_num.specs.Milli.{IsMilli};
ghost use Rattle.fixed_num.specs.Moment.{is_moment};

use fixed_num::Milli;
use metric_path::MetricPath;

/// A point of a metric.
#[derive(Drop)]
pub struct Datum {
    /// The metric.
    pub path: MetricPath,
    /// The time in seconds since the Unix epoch, a legal moment.
    pub time: u32,
    /// The value in thousandths.
    pub value: Milli,
    pub ghost legal: { is_moment time ≡ true },
    pub ghost fits: { IsMilli value },
}

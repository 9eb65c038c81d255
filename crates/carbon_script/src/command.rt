use metric_line::{Datum, LineFault};

/// What a line of a script says.
#[derive(Drop)]
pub enum Command<'a> {
    /// A metric line: a point is put.
    Metric(Datum),
    /// A metric line that is refused: it is counted by the reason.
    Refused(LineFault),
    /// A line that is too long: it is counted.
    Long,
    /// `!clock N`: the clock is set to this moment, in seconds since the Unix epoch.
    Clock(u32),
    /// `!ask QUERY`: a query of the render API.
    Ask(&'a [u8]),
    /// `!plan`: the drain of the metric that goes next begins.
    Plan,
    /// `!write`: the next run of a drain goes to its ring file.
    Write,
    /// `!drain`: all that is pending goes to the ring files.
    DrainAll,
    /// Anything else.
    Bad,
}

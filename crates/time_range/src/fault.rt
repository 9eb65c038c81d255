//! Why a text is refused.

/// Why a text is not read as a time or a span.
#[derive(Clone, Copy, Debug, PartialEq, Eq)]
pub enum TimeFault {
    /// The text has not the form of a time, or it names a date or an hour that does not exist.
    NotTime,
    /// The moment lies before the Unix epoch.
    BeforeEpoch,
    /// The moment, or the span's seconds, are above 4,000,000,000.
    TooLate,
}

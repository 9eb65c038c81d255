//! Why a layout is not lawful, and why the head of a file is refused.

/// The first rule of lawful layouts that is broken. Each rule is tested over all archives, from the
/// first, before the next rule. A number names the archive, of a pair the earlier one, and stands at
/// the greatest `u32` for a later one.
#[derive(Clone, Copy, Debug, PartialEq, Eq)]
pub enum LayoutFault {
    /// There is no archive.
    NoArchive,
    /// A step is 0 or above 31,536,000 seconds, which are 365 days.
    BadStep(u32),
    /// A step is not below the next one.
    StepOrder(u32),
    /// A step does not divide the next one.
    StepDivides(u32),
    /// An archive has no points, or does not cover the next one's step.
    TooFewPoints(u32),
    /// An archive's step times its points is above 4,000,000,000 seconds.
    TooLong(u32),
    /// An archive's step times its points is not below that of the next one.
    Retention(u32),
    /// The archives have above 4,000,000 points in all.
    TooManyPoints,
    /// The factor is above 1,000,000 millionths.
    BadFactor,
}

/// The first fault of a file's head, in this order.
#[derive(Clone, Copy, Debug, PartialEq, Eq)]
pub enum HeadFault {
    /// The first 16 bytes, or all where there are fewer, are zero.
    Zero,
    /// The file has fewer than 16 bytes, or ends within the rows of at most 25 archives.
    Short,
    /// The first word is neither 1 to 8 nor 513 to 520.
    Method,
    /// The count of archives is not 1 to 25.
    Count,
    /// The first archive that does not begin where what stands before it ends.
    Offset(u32),
    /// The field is not the last archive's step times its points.
    Retention,
    /// The file does not end with its last archive.
    Length,
    /// The archives or the factor are not lawful.
    Layout(LayoutFault),
}

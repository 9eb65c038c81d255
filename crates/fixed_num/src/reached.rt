//! What the decimal of a text reaches in parts of a unit.

/// The whole number of parts below a fraction, and whether the fraction is whole.
#[derive(Clone, Copy)]
pub(crate) struct Reached {
    /// The parts, or the greatest number of 128 bits with a sign where there are more.
    pub(crate) whole: u128,
    /// Whether nothing is left beside them.
    pub(crate) exact: bool,
}

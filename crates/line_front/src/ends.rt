//! How the service of a link ends.

/// Why the service of a link that brings metric lines ended.
#[derive(Clone, Copy, Debug, PartialEq, Eq)]
pub enum LineCause {
    /// The link was read to its end, all its lines were handled, and what the aggregation rules had
    /// open then was put.
    Closed,
    /// A read failed. All lines of what was taken were handled.
    ReadFault,
    /// As many bytes as a link may bring were taken, and all their lines were handled.
    LinkLimit,
    /// The pass has no room for the entries of another line, or of a point that the rules emit.
    Spent,
    /// Memory ran out.
    NoMemory,
}

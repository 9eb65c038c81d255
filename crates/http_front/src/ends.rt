//! How the service of a link ends.

/// Why the service of a link of HTTP requests ended.
#[derive(Clone, Copy, Debug, PartialEq, Eq)]
pub enum HttpEnd {
    /// The other end closed the link between two requests, or the link ends after the reply to a request.
    Closed,
    /// The link was refused with this status: no request can be read of its bytes, or it ended inside one.
    Refused(u16),
    /// A read failed, before as many bytes were taken as are taken at most. All requests that are whole in what was taken were answered.
    ReadFault,
    /// A write failed.
    WriteFault,
    /// As many bytes as are taken at most were taken, and all requests that are whole in them were answered.
    LinkLimit,
    /// The pass has no room for what a request may enter.
    Spent,
    /// Memory ran out. The link was told so, unless it ran out before the link was read.
    NoMemory,
}

// How a service of lines ends.

/// Why a server ends the service at a line.
#[derive(Clone, Copy, Debug, PartialEq, Eq)]
pub enum Stop {
    /// A write failed.
    WriteFault,
    /// The disk of this class failed.
    DiskFault(u32),
    /// What the server may spend is spent.
    Spent,
    /// Memory ran out at the line.
    NoMemory,
}

/// How a service of lines ended.
#[derive(Clone, Copy, Debug, PartialEq, Eq)]
pub enum ServiceEnd {
    /// The input was read to its end, and all its lines were served.
    Closed,
    /// A read failed, before as many bytes were taken as are taken at most. All lines of what was taken were served.
    ReadFault,
    /// As many bytes as are taken at most were taken, and all their lines were served.
    Limit,
    /// Memory ran out, and not at a line: before a byte was taken, or for the piece that was taken last. All lines of what was
    /// taken before it were served, and none that it ends.
    NoMemory,
    /// The server stopped at a line.
    Stopped(Stop),
}

//! The moments of a drain and of a start at which a crash is tried.

/// Behind which call of the disk a crash comes.
#[derive(Clone, Copy, PartialEq, Eq)]
pub enum Moment {
    /// Behind none.
    Nothing,
    /// Behind a sync of what was found.
    FoundSynced,
    LogCreated,
    LogWritten,
    LogSynced,
    GateCreated,
    GateSynced,
    GateOpened,
    OpenSynced,
    RingCreated,
    RingWritten,
    RingSynced,
    GateClosed,
    ClosedSynced,
}

/// All of them.
pub const MOMENTS: [Moment; 14] = [
    Moment::Nothing,
    Moment::FoundSynced,
    Moment::LogCreated,
    Moment::LogWritten,
    Moment::LogSynced,
    Moment::GateCreated,
    Moment::GateSynced,
    Moment::GateOpened,
    Moment::OpenSynced,
    Moment::RingCreated,
    Moment::RingWritten,
    Moment::RingSynced,
    Moment::GateClosed,
    Moment::ClosedSynced,
];

impl Moment {
    /// What the last call did.
    pub fn text(self) -> &'static str {
        match self {
            Moment::Nothing => "nothing done",
            Moment::FoundSynced => "what was found synced",
            Moment::LogCreated => "log created",
            Moment::LogWritten => "log written",
            Moment::LogSynced => "log synced",
            Moment::GateCreated => "gate created",
            Moment::GateSynced => "gate synced",
            Moment::GateOpened => "gate opened",
            Moment::OpenSynced => "open gate synced",
            Moment::RingCreated => "ring created",
            Moment::RingWritten => "ring written",
            Moment::RingSynced => "ring synced",
            Moment::GateClosed => "gate closed",
            Moment::ClosedSynced => "closed gate synced",
        }
    }

    /// Behind a sync that comes behind this call.
    pub fn synced(self) -> Moment {
        match self {
            Moment::LogCreated | Moment::LogWritten => Moment::LogSynced,
            Moment::GateCreated => Moment::GateSynced,
            Moment::GateOpened => Moment::OpenSynced,
            Moment::RingCreated | Moment::RingWritten => Moment::RingSynced,
            Moment::GateClosed => Moment::ClosedSynced,
            _ => Moment::FoundSynced,
        }
    }
}

//! What a journal holds.
use carbon_history::Entry;
use std::alloc::AllocError;

/// What a journal begins with: under which limit, order and rules the entries came about.
#[derive(Drop)]
pub struct JournalHead {
    /// How many points a class may have pending.
    pub limit: u64,
    /// The order of drains: 0 for max, 1 for sorted, 2 for timesorted, 3 for naive.
    pub order: u8,
    /// The bytes of the schemas file.
    pub schemas: Vec<u8>,
    /// The bytes of the aggregation file.
    pub aggregations: Vec<u8>,
}

/// What a question was answered.
#[derive(Drop)]
pub struct Reply {
    /// The pass that asked.
    pub pass: u32,
    /// The number of the question in the pass.
    pub number: u64,
    /// The query of the question's target.
    pub query: Vec<u8>,
    /// The body of its request.
    pub body: Vec<u8>,
    /// The text that was answered.
    pub text: Vec<u8>,
}

/// One record of a journal.
#[derive(Drop)]
pub enum Record {
    /// An entry of the history.
    Entry(Entry),
    /// A reply to a question.
    Reply(Reply),
}

/// Why no head or no record is read.
#[derive(Clone, Copy, Debug, PartialEq, Eq)]
pub enum FormFault {
    /// The bytes begin with none.
    Unreadable,
    /// The bytes begin with one, and memory ran out.
    NoMemory,
}

impl From<AllocError> for FormFault {
    ghost use Rattle.std.specs.Prelude.{◌≡◌};
    ghost use Rattle.journal_form.specs.declared.record.FormFault.TheVariants.{NoMemory};

    ghost from_gives = { λ _ fault. fault ≡ NoMemory };

    fn from(_: AllocError) -> FormFault {
        FormFault::NoMemory
    }
}

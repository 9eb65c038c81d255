//! What a need finds.
use shard_core::Looked;
use std::alloc::{AllocError, Global};
use std::marker::Model;

/// The metrics that a need finds, as looks at their classes told.
#[derive(Drop)]
pub(crate) struct FoundSet {
    items: Vec<Looked>,
}

impl Model for FoundSet {
    ghost use Rattle.std.specs.Prelude.{List};
    ghost use Rattle.shard_core.specs.declared.looked.Looked.{Looked as Item};

    ghost Value = { List Item };

    ghost view = { λ f. f.items.items };
}

impl FoundSet {
    ghost use Rattle.std.specs.Prelude.{◌≡◌, ◌++◌, [], IfOk, OnOk};
    ghost use Rattle.shared_store.specs.Asking.{PutsInOrder};

    /// Nothing is found.
    pub(crate) fn new(alloc: Global) -> FoundSet
        ensures { result ≡ [] }
    {
        FoundSet {
            items: Vec::new(alloc),
        }
    }

    /// These are found too.
    pub(crate) fn append(&mut self, mut looked: Vec<Looked>) -> Result<(), AllocError>
        ensures { OnOk result (self.new ≡ self.old ++ looked.items) }
    {
        self.items.append(&mut looked)
    }

    /// The same in byte order of the paths. What a class has found is in order already: the sort
    /// keeps such runs, where they have 64 metrics and more, and merges them. No path is found
    /// twice, since it is of one class alone: dropping doubles drops none, and shows that the order
    /// is strict.
    pub(crate) fn in_order(self) -> Result<FoundSet, AllocError>
        ensures { IfOk result (PutsInOrder self) }
    {
        let mut items = self.items;
        items.sort_by(|one, other| one.path.cmp(&other.path))?;
        items.dedup_by(|one, other| one.path == other.path);
        Ok(FoundSet { items })
    }

    /// How many pending points were copied, 2^64 - 1 at most.
    pub(crate) fn pending(&self) -> u64 {
        let mut pending = 0_u64;
        for looked in &self.items {
            pending = pending.saturating_add(looked.pending.list().len() as u64);
        }
        pending
    }

    /// What was looked at, in order.
    pub(crate) fn as_slice(&self) -> &[Looked]
        ensures { result.now ≡ self.now }
    {
        self.items.as_slice()
    }
}

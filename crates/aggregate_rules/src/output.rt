//! The outputs of rules, whose names stand for what the pattern found.
ghost use Rattle.std.specs.Prelude.{◌≡◌, ◌∷◌, [], ◌++◌, OnOk};

use crate::bytes::Bytes;
use std::alloc::{AllocError, Global};
use std::marker::Model;

/// A name of an output, as its number in the pattern, and the bytes behind it.
#[derive(Drop)]
pub(crate) struct OutputPart {
    pub(crate) name: usize,
    pub(crate) text: Bytes,
}

/// Names of an output, each with what stands behind it. Contracts see the list of them.
#[derive(Drop)]
pub(crate) struct OutputParts {
    items: Vec<OutputPart>,
}

impl Model for OutputParts {
    ghost use Rattle.std.specs.Prelude.{List};
    ghost use Rattle.aggregate_rules.specs.declared.output.OutputPart.{OutputPart as Part};

    ghost Value = { List Part };

    ghost view = { λ p. p.items.items };
}

impl OutputParts {
    /// No names.
    pub(crate) fn new(alloc: Global) -> OutputParts
        ensures { result ≡ [] }
    {
        OutputParts {
            items: Vec::new(alloc),
        }
    }

    /// The names as a slice.
    pub(crate) fn as_slice(&self) -> &[OutputPart]
        ensures { result.now ≡ self.now }
    {
        self.items.as_slice()
    }

    /// Adds a name.
    pub(crate) fn push(&mut self, part: OutputPart) -> Result<(), AllocError>
        ensures { OnOk result (self.new ≡ self.old ++ part ∷ []) }
    {
        self.items.push(part)?;
        Ok(())
    }
}

/// An output: the bytes before its first name, and its names.
#[derive(Drop)]
pub(crate) struct Output {
    pub(crate) front: Bytes,
    pub(crate) parts: OutputParts,
}

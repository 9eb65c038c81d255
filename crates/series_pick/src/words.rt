//! What functions are told: a name for series, and numbers of nodes.
use std::marker::Model;

/// A name for series.
#[derive(Drop)]
pub struct Name {
    text: String,
}

impl Model for Name {
    ghost use Rattle.std.specs.Prelude.{List, ℕ, string_bytes};

    ghost Value = { List ℕ };

    ghost view = { λ n. string_bytes n.text };
}

impl Name {
    ghost use Rattle.std.specs.Prelude.{◌≡◌, string_bytes};

    /// The name with this text.
    pub fn from_string(text: String) -> Name
        ensures { result ≡ string_bytes text }
    {
        Name { text }
    }

    pub(crate) fn text(&self) -> &String
        ensures { string_bytes result.now ≡ self.now }
    {
        &self.text
    }
}

/// Numbers of a path's nodes. The first node is 0, and a negative number counts from the end, where -1 is the last.
#[derive(Drop)]
pub struct SignedNodes {
    items: Vec<i32>,
}

impl Model for SignedNodes {
    ghost use Rattle.std.specs.Prelude.{List, ℤ};

    ghost Value = { List ℤ };

    ghost view = { λ n. n.items.items };
}

impl SignedNodes {
    ghost use Rattle.std.specs.Prelude.{◌≡◌};

    /// These numbers.
    pub fn from_vec(items: Vec<i32>) -> SignedNodes
        ensures { result ≡ items.items }
    {
        SignedNodes { items }
    }

    pub(crate) fn as_slice(&self) -> &[i32]
        ensures { result.now ≡ self.now }
    {
        self.items.as_slice()
    }
}

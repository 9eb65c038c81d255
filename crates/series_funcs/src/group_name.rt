//! The names of groups.
use std::hash::{Hash, Hasher};
use std::marker::Model;

/// What a group of series is found by, and named.
#[derive(Drop)]
pub(crate) struct GroupName {
    text: String,
}

impl Model for GroupName {
    ghost use Rattle.std.specs.Prelude.{List, ℕ, string_bytes};

    ghost Value = { List ℕ };

    ghost view = { λ g. string_bytes g.text };
}

impl GroupName {
    ghost use Rattle.std.specs.Prelude.{◌≡◌, string_bytes};

    /// The name with this text.
    pub(crate) fn new(text: String) -> GroupName
        ensures { result ≡ string_bytes text }
    {
        GroupName { text }
    }

    /// The text.
    pub(crate) fn as_str(&self) -> &str
        ensures { result.now ≡ self.now }
    {
        self.text.as_str()
    }
}

impl PartialEq for GroupName {
    ghost use Rattle.std.specs.Str.{bytes_eq};
    ghost use Rattle.std.proofs.Common.{rules};
    ghost use Rattle.std.specs.Cmp.Rules.{comparing};

    ghost eq = { bytes_eq };

    ghost laws = { Prim.search (comparing, rules) };

    fn eq(&self, other: &GroupName) -> bool {
        self.text.as_str() == other.text.as_str()
    }
}

impl Eq for GroupName {
    ghost use Rattle.std.proofs.Common.{rules};
    ghost use Rattle.std.specs.Cmp.Rules.{comparing};

    ghost laws = { Prim.search (comparing, rules) };
}

impl Hash for GroupName {
    ghost use Rattle.std.proofs.Common.{rules};
    ghost use Rattle.std.specs.Hash as fed;
    ghost use Rattle.std.specs.Cmp.Rules.{hashing};

    ghost hash_input = { fed.str };

    ghost respects_eq = { Prim.search (hashing, rules) };

    fn hash<H: Hasher>(&self, state: &mut H) {
        self.text.as_str().hash(state);
    }
}

//! The names of a pattern.
ghost use Rattle.std.specs.Prelude.{◌≡◌, true, IfOk};
ghost use Rattle.std.specs.List.{list_all};
ghost use Rattle.aggregate_rules.specs.RuleTexts.{is_name_byte};

use indexmap::IndexMap;
use std::alloc::{AllocError, Global};
use std::hash::{Hash, Hasher};
use std::marker::Model;

/// A name of a pattern.
#[derive(Drop)]
pub(crate) struct Name {
    text: String,
}

impl Model for Name {
    ghost use Rattle.std.specs.Prelude.{List, ℕ, string_bytes};

    ghost Value = { List ℕ };

    ghost view = { λ n. string_bytes n.text };
}

impl PartialEq for Name {
    ghost use Rattle.std.specs.Str.{bytes_eq};
    ghost use Rattle.std.proofs.Common.{rules};
    ghost use Rattle.std.specs.Cmp.Rules.{comparing};

    ghost eq = { bytes_eq };

    ghost laws = { Prim.search (comparing, rules) };

    fn eq(&self, other: &Name) -> bool {
        self.text.as_str() == other.text.as_str()
    }
}

impl Eq for Name {
    ghost use Rattle.std.proofs.Common.{rules};
    ghost use Rattle.std.specs.Cmp.Rules.{comparing};

    ghost laws = { Prim.search (comparing, rules) };
}

impl Hash for Name {
    ghost use Rattle.std.proofs.Common.{rules};
    ghost use Rattle.std.specs.Hash as fed;
    ghost use Rattle.std.specs.Cmp.Rules.{hashing};

    ghost hash_input = { fed.str };

    ghost respects_eq = { Prim.search (hashing, rules) };

    fn hash<H: Hasher>(&self, state: &mut H) {
        self.text.as_str().hash(state);
    }
}

// A name of these bytes.
fn name_of(alloc: Global, text: &[u8]) -> Result<Name, AllocError>
    requires { list_all is_name_byte text.now ≡ true }
    ensures { IfOk result (λ name. name ≡ text.now) }
{
    let text = String::from_str(alloc, as_text(text))?;
    Ok(Name { text })
}

// The text of the bytes of a name.
fn as_text(name: &[u8]) -> &str
    requires { list_all is_name_byte name.now ≡ true }
    ensures { result.now ≡ name.now }
{
    match str::from_utf8(name) {
        Ok(text) => text,
        Err(_) => unreachable!(),
    }
}

/// The names of a pattern in their order, each once. The value of each is its number, from 0 on.
#[derive(Drop)]
pub(crate) struct Names {
    numbers: IndexMap<Name, usize>,
}

impl Model for Names {
    ghost use Rattle.std.specs.Prelude.{List, ℕ};
    ghost use Rattle.indexmap.specs.IndexMap.{keys};

    ghost Value = { List (List ℕ) };

    ghost view = { λ n. keys n.numbers };
}

impl Names {
    ghost use Rattle.std.specs.Prelude.{[], ◌<◌, IfSome, OnOk, length, position};
    ghost use Rattle.std.specs.Str.{bytes_eq};
    ghost use Rattle.aggregate_rules.specs.RuleTexts.{AddsName};

    /// No names.
    pub(crate) fn new(alloc: Global) -> Names
        ensures { result ≡ [] }
    {
        Names {
            numbers: IndexMap::new(alloc),
        }
    }

    /// Adds a name: `false` exactly where it is there.
    pub(crate) fn add(&mut self, alloc: Global, text: &[u8]) -> Result<bool, AllocError>
        requires { list_all is_name_byte text.now ≡ true }
        ensures { IfOk result (AddsName self.old self.new text.now) }
    {
        let name = name_of(alloc, text)?;
        if self.numbers.contains_key(&name) {
            return Ok(false);
        }
        let number = self.numbers.len();
        self.numbers.insert(name, number)?;
        Ok(true)
    }

    /// The number of a name.
    pub(crate) fn number_of(&self, alloc: Global, text: &[u8]) -> Result<Option<usize>, AllocError>
        requires { list_all is_name_byte text.now ≡ true }
        ensures { IfOk result (λ number. number ≡ position (bytes_eq text.now) self.now) }
    {
        let name = name_of(alloc, text)?;
        Ok(self.numbers.get_index_of(&name))
    }
}

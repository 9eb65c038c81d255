//! The type of a legal path.
ghost use Rattle.std.specs.Prelude.{◌≡◌, ◌≢◌, ◌+◌, ◌≤◌, MatchOption, length, option_copied, slice_get};
ghost use Rattle.metric_path.specs.Path.{nodes_of, path_fault};

use crate::check::fault_of;
use crate::class::fnv1a;
use crate::file_name::{file_name_of, has_dot, stem_of, text_of_stem};
use std::alloc::{AllocError, Global};
use std::cmp::Ordering;
use std::hash::{Hash, Hasher};
use std::marker::Model;

/// How many classes there are.
pub const CLASSES: u32 = 16;

/// Why a text is no path. The first that holds is told, and `NoMemory` only of a legal path.
#[derive(Clone, Copy, Debug, PartialEq, Eq)]
pub enum PathFault {
    /// The text has no bytes.
    Empty,
    /// The text has more than 1,024 bytes, or a node of it more than 240.
    TooLong,
    /// A node has no bytes.
    EmptyNode,
    /// The first byte that a path may not hold stands at this place.
    BadByte(usize),
    /// Memory ran out.
    NoMemory,
}

impl From<AllocError> for PathFault {
    ghost use Rattle.std.specs.Prelude.{◌≡◌};
    ghost use Rattle.metric_path.specs.declared.path.PathFault.TheVariants.{NoMemory};

    ghost from_gives = { λ _ fault. fault ≡ NoMemory };

    fn from(_: AllocError) -> PathFault {
        PathFault::NoMemory
    }
}

/// A legal path.
#[derive(Debug, Drop)]
pub struct MetricPath {
    text: String,
}

impl Model for MetricPath {
    ghost use Rattle.std.specs.Prelude.{◌≡◌, List, ℕ, None, string_bytes};
    ghost use Rattle.metric_path.specs.Path.{path_fault};

    ghost Value = { List ℕ };

    ghost view = { λ p. string_bytes p.text };

    ghost invariant = { λ p. path_fault (string_bytes p.text) ≡ None };
}

impl MetricPath {
    ghost use Rattle.std.specs.Prelude.{◌≡◌, ◌≢◌, ◌<◌, List, ℕ, IfOk, length, slice_get, string_bytes};
    ghost use Rattle.metric_path.specs.Path.{legal_path, nodes_of, path_fault};
    ghost use Rattle.metric_path.specs.Class.{class_count, class_of};
    ghost use Rattle.metric_path.specs.FileName.{HasFileName, file_name_of};

    /// The path with a text that was found to be legal.
    pub fn from_legal(alloc: Global, text: &[u8]) -> Result<MetricPath, AllocError>
        requires { path_fault text.now ≡ None }
        ensures { IfOk result (λ path. path ≡ text.now) }
    {
        // The bytes of a legal path are ASCII.
        let text = unsafe { str::from_utf8_unchecked(text) };
        let text = String::from_str(alloc, text)?;
        Ok(MetricPath { text })
    }

    /// The path with a text that was found to be legal, in the memory of a path that is needed no more.
    pub fn with_legal(self, text: &[u8]) -> Result<MetricPath, AllocError>
        requires { path_fault text.now ≡ None }
        ensures { IfOk result (λ path. path ≡ text.now) }
    {
        // The bytes of a legal path are ASCII.
        let text = unsafe { str::from_utf8_unchecked(text) };
        let mut kept = self.text;
        kept.clear();
        kept.push_str(text)?;
        Ok(MetricPath { text: kept })
    }

    /// The path with this text, or the text's first fault.
    pub fn new(alloc: Global, text: &[u8]) -> Result<MetricPath, PathFault>
        ensures value { result ≢ Err PathFault.NoMemory → result ≡ legal_path text.now }
        ensures memory { result ≡ Err PathFault.NoMemory → legal_path text.now ≡ Ok text.now }
    {
        if let Some(fault) = fault_of(text) {
            return Err(fault);
        }
        match MetricPath::from_legal(alloc, text) {
            Ok(path) => Ok(path),
            Err(_) => Err(PathFault::NoMemory),
        }
    }

    /// The bytes of the path.
    pub fn text(&self) -> &[u8]
        ensures value { result.now ≡ self.now }
        ensures legal { path_fault result.now ≡ None }
    {
        self.text.as_bytes()
    }

    /// The path as text.
    pub fn as_str(&self) -> &str
        ensures value { result.now ≡ self.now }
        ensures legal { path_fault result.now ≡ None }
    {
        self.text.as_str()
    }

    /// Another value of the same path.
    pub fn copy(&self) -> Result<MetricPath, AllocError>
        ensures { IfOk result (λ path. path ≡ self.now) }
    {
        let text = self.text.clone()?;
        Ok(MetricPath { text })
    }

    /// The class of the path, of [`CLASSES`]: the FNV-1a hash of 32 bits of its bytes, modulo their
    /// number.
    pub fn class(&self) -> u32
        ensures value { result ≡ class_of self.now }
        ensures few { result < class_count }
    {
        fnv1a(self.text.as_bytes()) % CLASSES
    }

    /// How many nodes the path has.
    pub fn node_count(&self) -> usize
        ensures { result ≡ length (nodes_of self.now) }
    {
        dot_count(self.text.as_bytes()) + 1
    }

    /// The node at a place, from 0 on.
    pub fn node(&self, i: usize) -> &[u8]
        requires { i < length (nodes_of self.now) }
        ensures { slice_get (nodes_of self.now) i ≡ Some result.now }
    {
        let Some(node) = node_at(self.text.as_bytes(), i) else {
            unreachable!()
        };
        node
    }

    /// The name of the path's file: the text with each dot as `/`, and then `.ring`.
    pub fn file_name(&self) -> Result<String, AllocError>
        ensures { IfOk result (λ name. string_bytes name ≡ file_name_of self.now) }
    {
        let name = file_name_of(*self.text.allocator(), self.text.as_bytes())?;
        match String::from_utf8(name) {
            Ok(name) => Ok(name),
            Err(_) => unreachable!(),
        }
    }

    /// The path whose file has this name, or `None` where no legal path has it.
    pub fn of_file_name(alloc: Global, name: &str) -> Result<Option<MetricPath>, AllocError>
        ensures found { IfOk result (λ path. HasFileName path name.now) }

        // The path of a path's file name is that path.
        ensures own { IfOk result (λ path. (text : List ℕ) → path_fault text ≡ None
            → file_name_of text ≡ name.now → path ≡ Some text) }
    {
        let Some(stem) = stem_of(name.as_bytes()) else {
            return Ok(None);
        };
        if has_dot(stem) {
            return Ok(None);
        }
        let text = text_of_stem(alloc, stem)?;
        Ok(of_text(text))
    }
}

// The path with this text, where it is legal.
fn of_text(text: Vec<u8>) -> Option<MetricPath>
    ensures { MatchOption result (path_fault text.items ≢ None)
        (λ path. (path_fault text.items ≡ None) × (path ≡ text.items)) }
{
    if let Some(_) = fault_of(text.as_slice()) {
        return None;
    }
    match String::from_utf8(text) {
        Ok(text) => Some(MetricPath { text }),
        Err(_) => unreachable!(),
    }
}

// The node at a place, or `None` behind the last.
fn node_at(text: &[u8], i: usize) -> Option<&[u8]>
    ensures { option_copied result ≡ slice_get (nodes_of text.now) i }
{
    text.split(|b| *b == b'.').nth(i)
}

// How many dots a text has.
fn dot_count(text: &[u8]) -> usize
    ensures nodes { result + 1 ≡ length (nodes_of text.now) }
    ensures most { result ≤ length text.now }
{
    text.iter().filter(|b| **b == b'.').count()
}

impl PartialEq for MetricPath {
    ghost use Rattle.std.specs.Str.{bytes_eq};
    ghost use Rattle.std.proofs.Common.{rules};
    ghost use Rattle.std.specs.Cmp.Rules.{comparing};

    ghost eq = { bytes_eq };

    ghost laws = { Prim.search (comparing, rules) };

    fn eq(&self, other: &MetricPath) -> bool {
        self.text.as_str() == other.text.as_str()
    }
}

impl Eq for MetricPath {
    ghost use Rattle.std.proofs.Common.{rules};
    ghost use Rattle.std.specs.Cmp.Rules.{comparing};

    ghost laws = { Prim.search (comparing, rules) };
}

impl Hash for MetricPath {
    ghost use Rattle.std.proofs.Common.{rules};
    ghost use Rattle.std.specs.Hash as fed;
    ghost use Rattle.std.specs.Cmp.Rules.{hashing};

    ghost hash_input = { fed.str };

    ghost respects_eq = { Prim.search (hashing, rules) };

    fn hash<H: Hasher>(&self, state: &mut H) {
        self.text.as_str().hash(state);
    }
}

impl Ord for MetricPath {
    ghost use Rattle.std.proofs.Common.{rules};
    ghost use Rattle.std.specs.Cmp.Rules.{comparing};
    ghost use Rattle.std.specs.Cmp.Lexicographic.{slice_cmp};
    ghost use Rattle.std.specs.Ordering.{nat_cmp};

    ghost cmp = { slice_cmp nat_cmp };

    ghost total = { Prim.search (comparing, rules) };

    ghost matches_partial_cmp = { Prim.search (comparing, rules) };

    ghost matches_eq = { Prim.search (comparing, rules) };

    fn cmp(&self, other: &MetricPath) -> Ordering {
        self.text.as_str().cmp(other.text.as_str())
    }
}

impl PartialOrd for MetricPath {
    ghost use Rattle.std.proofs.Common.{rules};
    ghost use Rattle.std.specs.Cmp.{partial_order_from_own_ties};
    ghost use Rattle.std.specs.Cmp.Rules.{comparing};
    ghost use Rattle.std.specs.Cmp.Lexicographic.{slice_cmp};
    ghost use Rattle.std.specs.Ordering.{as_partial_cmp, nat_cmp};

    ghost partial_cmp = { as_partial_cmp (slice_cmp nat_cmp) };

    ghost laws = { partial_order_from_own_ties (Prim.search (comparing, rules)) (Prim.search (comparing, rules)) };

    fn partial_cmp(&self, other: &MetricPath) -> Option<Ordering> {
        Some(self.cmp(other))
    }
}

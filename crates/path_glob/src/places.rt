//! A node of a path, and where each byte stands in it.
ghost use Rattle.std.specs.Prelude.{◌≡◌, ℕ, ◌==◌, ◌<◌, ◌≤◌, get_or, length};
ghost use Rattle.path_glob.specs.Parts.{covers_byte};
ghost use Rattle.path_glob.specs.Positions.{held};

use crate::cut::ByteSet;
use crate::positions::{Positions, covered};
use std::marker::Model;

/// The positions before each byte of a node, by the byte.
#[derive(Clone, Copy)]
pub(crate) struct Places {
    of: [Positions; 256],
}

impl Places {
    ghost use Rattle.path_glob.specs.Places.{ArePlaces};

    /// Those of a node.
    pub(crate) fn of(node: &[u8]) -> Places
        requires { length node.now ≤ 240 }
        ensures { ArePlaces result node.now }
    {
        let mut of = [Positions::none(); 256];
        for i in 0..node.len() {
            let b = usize::from(node[i]);
            of[b] = of[b].and(i);
        }
        Places { of }
    }
}

/// A node of a path, with the places of its bytes where many pieces are held against it.
#[derive(Drop)]
pub(crate) struct Node<'a> {
    bytes: &'a [u8],
    places: Option<&'a Places>,
}

impl<'a> Model for Node<'a> {
    ghost use Rattle.std.specs.Prelude.{IfSome, List, ℕ};
    ghost use Rattle.path_glob.specs.Places.{ArePlaces};

    ghost Value = { List ℕ };

    ghost view = { λ n. n.bytes.now };

    ghost invariant = { λ n. IfSome n.places (λ places. ArePlaces places.now n.bytes.now) };
}

impl<'a> Node<'a> {
    ghost use Rattle.path_glob.specs.Places.{ArePlaces};

    /// A node against which few pieces are held.
    pub(crate) fn new(bytes: &'a [u8]) -> Node<'a>
        ensures { result ≡ bytes.now }
    {
        Node {
            bytes,
            places: None,
        }
    }

    /// A node with its places.
    pub(crate) fn with_places(bytes: &'a [u8], places: &'a Places) -> Node<'a>
        requires { ArePlaces places.now bytes.now }
        ensures { result ≡ bytes.now }
    {
        Node {
            bytes,
            places: Some(places),
        }
    }

    /// Its bytes.
    pub(crate) fn bytes(&self) -> &[u8]
        ensures { result.now ≡ self.now }
    {
        self.bytes
    }

    /// How many bytes it has.
    pub(crate) fn len(&self) -> usize
        ensures { result ≡ length self.now }
    {
        self.bytes.len()
    }

    /// The positions before this byte.
    pub(crate) fn before(&self, b: u8) -> Positions
        requires { length self.now ≤ 240 }
        ensures { (j : ℕ) → j < length self.now → held result j ≡ (get_or self.now j 0 == b) }
    {
        match self.places {
            Some(places) => return places.of[usize::from(b)],
            None => return covered(ByteSet::One(b), self.bytes),
        }
    }

    /// The positions before the bytes that are one of these.
    pub(crate) fn covered(&self, bytes: ByteSet<'_>) -> Positions
        requires { length self.now ≤ 240 }
        ensures { (j : ℕ) → j < length self.now
            → held result j ≡ covers_byte bytes.entry (get_or self.now j 0) }
    {
        covered(bytes, self.bytes)
    }
}

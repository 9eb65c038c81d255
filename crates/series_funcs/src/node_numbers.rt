//! Numbers of nodes.
use std::marker::Model;

/// Some numbers of a path's nodes, which are counted from 0 on.
#[derive(Drop)]
pub struct NodeNumbers {
    items: Vec<u32>,
}

impl Model for NodeNumbers {
    ghost use Rattle.std.specs.Prelude.{List, ℕ};

    ghost Value = { List ℕ };

    ghost view = { λ n. n.items.items };
}

impl NodeNumbers {
    ghost use Rattle.std.specs.Prelude.{◌≡◌, length};
    ghost use Rattle.series_funcs.specs.NodeTexts.{is_one_of};

    /// These numbers.
    pub fn from_vec(items: Vec<u32>) -> NodeNumbers
        ensures { result ≡ items.items }
    {
        NodeNumbers { items }
    }

    /// How many there are.
    pub fn len(&self) -> usize
        ensures { result ≡ length self.now }
    {
        self.items.len()
    }

    /// Whether the node at a place, from 0 on, is one of them.
    pub fn has(&self, place: usize) -> bool
        ensures { result ≡ is_one_of self.now place }
    {
        self.items.iter().any(|number| *number as usize == place)
    }
}

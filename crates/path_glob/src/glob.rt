//! The type of a glob.
ghost use Rattle.std.specs.Prelude.{◌≡◌};

use crate::check::fault_of;
use crate::cover::{literal_front, text_fits};
use crate::fault::GlobFault;
use metric_path::MetricPath;
use std::alloc::Global;
use std::marker::Model;

/// A glob.
#[derive(Debug, Drop)]
pub struct Glob {
    text: Vec<u8>,
}

impl Model for Glob {
    ghost use Rattle.std.specs.Prelude.{◌≡◌, None};
    ghost use Rattle.path_glob.specs.Faults.{Said, glob_fault, said_by};

    ghost Value = { Said };

    ghost view = { λ g. said_by g.text.items };

    ghost invariant = { λ g. glob_fault g.text.items ≡ None };
}

impl Glob {
    ghost use Rattle.std.specs.Prelude.{◌≡◌, ◌≢◌, ◌↔◌, ℕ, List, IsTrue, None, Ok, Err};
    ghost use Rattle.metric_path.specs.Path.{nodes_of};
    ghost use Rattle.path_glob.specs.Faults.{glob_fault, legal_glob, said_by};
    ghost use Rattle.path_glob.specs.Glob.{Fits};
    ghost use Rattle.path_glob.specs.Laws.{BeginsWith, literal_front};
    ghost use Rattle.path_glob.specs.declared.fault.GlobFault.TheVariants.{NoMemory};

    /// The glob with this text, or the text's first fault.
    pub fn new(alloc: Global, text: &[u8]) -> Result<Glob, GlobFault>
        ensures value { result ≢ Err NoMemory → result ≡ legal_glob text.now }
        ensures memory { result ≡ Err NoMemory → glob_fault text.now ≡ None }
    {
        if let Some(fault) = fault_of(text) {
            return Err(fault);
        }
        match text.to_vec(alloc) {
            Ok(text) => Ok(Glob { text }),
            Err(_) => Err(GlobFault::NoMemory),
        }
    }

    /// The bytes of the glob.
    pub fn text(&self) -> &[u8]
        ensures value { result.now ≡ self.now.text }
        ensures legal { glob_fault result.now ≡ None }
        ensures said { self.now ≡ said_by result.now }
    {
        self.text.as_slice()
    }

    /// Whether the glob fits a path: both have the same number of nodes, and the pieces of each node of the
    /// glob cover the path's node. The work is at most the bytes of the glob times the places in a node of a
    /// path, of which there are 241, whatever the glob. No memory is taken.
    pub fn matches(&self, path: &MetricPath) -> bool
        ensures { IsTrue result ↔ Fits self.now.nodes (nodes_of path.now) }
    {
        text_fits(self.text.as_slice(), path.text())
    }

    /// The bytes before the first wildcard, bracket or brace: all paths that the glob fits begin with them.
    pub fn literal_front(&self) -> &[u8]
        ensures value { result.now ≡ literal_front self.now.text }
        ensures fits { (path : List ℕ) → Fits self.now.nodes (nodes_of path)
            → BeginsWith result.now path }
    {
        literal_front(self.text.as_slice())
    }
}

//! The nodes of the tree that names make.
use metric_path::MetricPath;

/// A node of the tree: its path, and whether it is a leaf or a branch. In order the paths stand in byte
/// order, and a branch before a leaf of the same path.
#[derive(Drop, PartialEq, Eq, PartialOrd, Ord)]
pub(crate) struct Node {
    pub(crate) path: MetricPath,
    pub(crate) is_leaf: bool,
}

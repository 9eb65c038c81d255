//! What the tree of names has to do with their nodes. The function does nothing: what it ensures is the law.
ghost use Rattle.std.specs.Prelude.{◌↔◌, ℕ, List, false};
ghost use Rattle.find_api.specs.Nodes.{HasMoreNodes, Tells};

/// A name goes on from a path, behind a dot, exactly where its first nodes are those of the path and it has
/// more of them.
pub fn branches_are_the_first_nodes()
    ensures { (path name : List ℕ) → Tells false path name ↔ HasMoreNodes path name }
{}

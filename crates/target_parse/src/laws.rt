//! What the grammar says of the reading. The functions do nothing: what they ensure is the law.
ghost use Rattle.std.specs.Prelude.{◌≡◌, ◌≤◌, ℕ, List, IfOk, Ok};
ghost use Rattle.target_parse.specs.Bytes.{most_depth};
ghost use Rattle.target_parse.specs.Reading.{read_target};
ghost use Rattle.target_parse.specs.Target.{Reads};
ghost use Rattle.target_parse.specs.Tree.{Tree, depth, text_of};

/// What is read of a text is in the grammar, and its calls nest at most 32 deep.
pub fn what_is_read_is_in_the_grammar()
    ensures { (text : List ℕ)
        → IfOk (read_target text) (λ tree. Reads text tree × (depth tree ≤ most_depth)) }
{}

/// A text of the grammar whose calls nest at most 32 deep is read, to the tree that it says: so a text says
/// at most one, and what is refused says none.
pub fn texts_of_the_grammar_are_read()
    ensures { (text : List ℕ) (tree : Tree) → Reads text tree → depth tree ≤ most_depth
        → read_target text ≡ Ok tree }
{}

/// The text of what was read is read to the same again.
pub fn the_text_of_a_tree_says_it()
    ensures { (text : List ℕ) (tree : Tree) → read_target text ≡ Ok tree
        → read_target (text_of tree) ≡ Ok tree }
{}

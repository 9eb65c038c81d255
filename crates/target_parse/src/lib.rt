#![tactic(auto)]
//! Render targets, as `alias(sumSeries(servers.{a,b}.cpu), 'all')`, in the grammar of Graphite 1.1's
//! render API with the functions' arguments by position.
//!
//! A target has at most 16,384 bytes, and is a call or a path. Blanks (space and tab) may stand before and
//! after each argument and round the whole.
//!
//! - A call is a letter followed by letters, digits and `_`, directly behind it a `(`, then one or more
//!   arguments with commas between them, and `)`. Calls nest at most 32 deep.
//! - A text argument begins with `'` or `"` and runs to the next same byte. It is UTF-8, and nothing in it
//!   stands for another byte.
//! - Else the longest stretch of bytes that a glob may hold is read, with the commas behind a `{` that no
//!   `}` has closed. In an argument a stretch in the grammar of numbers is a number, and `true` and `false`
//!   are flags. Any other stretch is a path, and so is any that is the whole target.

mod bytes;
mod expr;
mod fault;
mod laws;
mod print;
mod read;
mod word;

pub use expr::Expr;
pub use fault::TargetFault;
pub use laws::{
    texts_of_the_grammar_are_read, the_text_of_a_tree_says_it, what_is_read_is_in_the_grammar,
};
pub use print::text_of;
pub use read::parse;
pub use word::Word;

//! What a target says.
use crate::word::Word;
use path_glob::Glob;

/// What a target says, or an argument of one of its calls.
#[derive(Debug, Drop)]
pub enum Expr {
    /// A call: the name of its function, and its arguments, of which there are one or more.
    Call(Word, Vec<Expr>),
    /// A path, as a glob.
    Path(Glob),
    /// A number, as it stands in the target.
    Number(Word),
    /// `true` or `false`.
    Flag(bool),
    /// A text, with the byte of its quotes, `'` or `"`.
    Text(u8, Word),
}

//! Where the parts of a glob's text end.
ghost use Rattle.std.specs.Prelude.{◌≡◌, ◌==◌, ◌<◌, IfSome, length, position};
ghost use Rattle.path_glob.specs.Reading.{simple_of};
ghost use Rattle.path_glob.specs.Parts.{BracedIn, Cuts, ListIn, PartsAt, PieceIn, simple_said};

// What stands before a mark of a text, and what follows it.
#[derive(Clone, Copy)]
pub(crate) struct Cut<'a> {
    pub(crate) before: &'a [u8],
    pub(crate) after: &'a [u8],
}

// The bytes that a piece of one byte covers.
#[derive(Clone, Copy)]
pub(crate) enum ByteSet<'a> {
    One(u8),
    Any,
    // those of a list, with the text of its members
    Members(&'a [u8]),
}

// A simple piece of a row.
#[derive(Clone, Copy)]
pub(crate) enum SimplePiece<'a> {
    AnyRow,
    Byte(ByteSet<'a>),
}

// The first piece of a row, and what follows it.
#[derive(Clone, Copy)]
pub(crate) struct First<'a> {
    pub(crate) piece: SimplePiece<'a>,
    pub(crate) after: &'a [u8],
}

// What stands before the first braces of a node, in them and behind them.
#[derive(Clone, Copy)]
pub(crate) struct Braced<'a> {
    pub(crate) before: &'a [u8],
    pub(crate) inner: &'a [u8],
    pub(crate) after: &'a [u8],
}

/// A text, cut at its first mark: there the first of its parts ends.
pub(crate) fn cut_at(text: &[u8], mark: u8) -> Option<Cut<'_>>
    ensures cuts { Cuts mark text.now result }
    ensures parts { PartsAt mark text.now result }
{
    match place_of(text, mark) {
        Some(at) => {
            return Some(Cut {
                before: &text[..at],
                after: &text[at + 1..],
            });
        }
        None => return None,
    }
}

// The place of the first mark.
fn place_of(text: &[u8], mark: u8) -> Option<usize>
    ensures value { result ≡ position (λ b. b == mark) text.now }
    ensures within { IfSome result (λ at. at < length text.now) }
{
    text.iter().position(|b| *b == mark)
}

/// The first braces of a node.
pub(crate) fn next_braces(node: &[u8]) -> Option<Braced<'_>>
    ensures { BracedIn node.now result }
{
    let Some(opened) = cut_at(node, b'{') else {
        return None;
    };
    let Some(closed) = cut_at(opened.after, b'}') else {
        return None;
    };
    Some(Braced {
        before: opened.before,
        inner: closed.before,
        after: closed.after,
    })
}

/// The first piece of a row.
pub(crate) fn next_piece(row: &[u8]) -> Option<First<'_>>
    ensures { PieceIn row.now result }
{
    let Some((first, after)) = row.split_first() else {
        return None;
    };
    if *first == b'[' {
        return next_list(after);
    }
    let piece = piece_of(*first);
    Some(First { piece, after })
}

// What a byte outside brackets says.
fn piece_of<'a>(b: u8) -> SimplePiece<'a>
    ensures { simple_said result ≡ simple_of b }
{
    match b {
        b'*' => SimplePiece::AnyRow,
        b'?' => SimplePiece::Byte(ByteSet::Any),
        _ => SimplePiece::Byte(ByteSet::One(b)),
    }
}

// The list whose members come first in a text.
fn next_list(text: &[u8]) -> Option<First<'_>>
    ensures { ListIn text.now result }
{
    match cut_at(text, b']') {
        Some(cut) => {
            let piece = SimplePiece::Byte(ByteSet::Members(cut.before));
            return Some(First {
                piece,
                after: cut.after,
            });
        }
        None => return None,
    }
}

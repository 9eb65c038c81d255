// Where the head of a request ends.
ghost use Rattle.std.specs.Prelude.{◌<◌, length, IfSome};

// What the bytes of a head end with.
#[derive(Clone, Copy)]
pub(crate) enum LineEnd {
    // Nothing but line ends has come, which no head begins with.
    NoText,
    // Neither of those below.
    Text,
    // A line feed.
    Feed,
    // A line feed and a carriage return.
    FeedAndReturn,
}

// How many bytes of the piece stand behind the blank line of the head, where the piece brings it.
pub(crate) fn count_behind_head(end: &mut LineEnd, piece: &[u8]) -> Option<usize>
    ensures { IfSome result (λ count. count < length piece.now) }
{
    for (index, byte) in piece.iter().enumerate() {
        *end = match (*end, *byte) {
            (LineEnd::Feed | LineEnd::FeedAndReturn, b'\n') => {
                return Some(piece.len() - index - 1);
            }
            (LineEnd::NoText, b'\n' | b'\r') => LineEnd::NoText,
            (LineEnd::Feed, b'\r') => LineEnd::FeedAndReturn,
            (_, b'\n') => LineEnd::Feed,
            _ => LineEnd::Text,
        };
    }
    None
}

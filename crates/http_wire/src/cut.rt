// What the bytes that have come on a link begin with.
ghost use Rattle.std.specs.Prelude.{◌≡◌, ◌<◌, Ok, length, take};
ghost use Rattle.std.specs.Option.{ForSome};
ghost use Rattle.httparse.specs.Grammar.{HasNoRequest, MayBecomeRequest};
ghost use Rattle.http_wire.specs.Cuts.{Cuts, IsHeadOf};
ghost use Rattle.http_wire.specs.Requests.{most_head_bytes};

use crate::head::{HeadRead, HeadSpans, read_head};
use crate::refusal::Refusal;
use httparse::spans::Span;

/// The most bytes that a head may have.
pub const MOST_HEAD_BYTES: usize = 16_384;

// Where the parts of a whole request are. The body goes from the end of the head to the end.
#[derive(Clone, Copy)]
pub(crate) struct Place {
    pub(crate) method: Span,
    pub(crate) target: Span,
    pub(crate) minor: u8,
    pub(crate) is_last: bool,
    pub(crate) head_len: usize,
    pub(crate) len: usize,
}

// What bytes begin with, whatever follows them.
#[derive(Clone, Copy)]
pub(crate) enum Cut {
    // No head is whole yet.
    Open,
    // This head is whole, and its body is not.
    OpenBody(HeadSpans),
    Refused(Refusal),
    Whole(Place),
}

// What bytes begin with of which this head was read before, where one was. Then only their number is
// looked at, and no byte is read again.
pub(crate) fn cut_read(bytes: &[u8], head: Option<HeadSpans>) -> Cut
    requires { ForSome head (IsHeadOf bytes.now) }
    ensures { Cuts bytes.now result }
{
    match head {
        Some(spans) => cut_request(bytes, &spans),
        None => cut_front(bytes),
    }
}

fn cut_front(bytes: &[u8]) -> Cut
    ensures { Cuts bytes.now result }
{
    if bytes.is_empty() {
        return Cut::Open;
    }
    let front = &bytes[..bytes.len().min(MOST_HEAD_BYTES)];
    match read_head(front) {
        HeadRead::Whole(spans) => return cut_request(bytes, &spans),
        HeadRead::Partial => return cut_partial(bytes),
        HeadRead::Invalid => return Cut::Refused(Refusal::BadRequest),
    }
}

// The same of bytes whose front is no head yet.
fn cut_partial(bytes: &[u8]) -> Cut
    requires some { 0 < length bytes.now }
    requires partial { HasNoRequest (take most_head_bytes bytes.now) }
    requires unfinished { MayBecomeRequest (take most_head_bytes bytes.now) }
    ensures { Cuts bytes.now result }
{
    if bytes.len() < MOST_HEAD_BYTES {
        return Cut::Open;
    }
    Cut::Refused(Refusal::BadRequest)
}

// The same of bytes whose front is a head.
fn cut_request(bytes: &[u8], spans: &HeadSpans) -> Cut
    requires { IsHeadOf bytes.now spans.now }
    ensures { Cuts bytes.now result }
{
    match spans.body {
        Ok(count) => cut_body(bytes, spans, count),
        Err(why) => Cut::Refused(why),
    }
}

// The same where the head says how long the body is.
fn cut_body(bytes: &[u8], spans: &HeadSpans, count: usize) -> Cut
    requires head { IsHeadOf bytes.now spans.now }
    requires body { spans.now.body ≡ Ok count }
    ensures { Cuts bytes.now result }
{
    if bytes.len() - spans.len < count {
        return Cut::OpenBody(*spans);
    }
    Cut::Whole(Place {
        method: spans.method,
        target: spans.target,
        minor: spans.minor,
        is_last: spans.is_last,
        head_len: spans.len,
        len: spans.len + count,
    })
}

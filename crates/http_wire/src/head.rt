// A head that is read.
ghost use Rattle.std.specs.Prelude.{◌≡◌, ◌≤◌, length};
ghost use Rattle.http_wire.specs.Cuts.{ReadsHead};
ghost use Rattle.http_wire.specs.Requests.{most_fields};

use crate::fields::{body_length, ends_link};
use crate::refusal::Refusal;
use httparse::Status;
use httparse::spans::{EMPTY_HEADER_SPAN, HeaderSpan, RequestSpans, Span, parse_request};

/// The most fields that a head may have.
pub const MOST_FIELDS: usize = 64;

// Where the parts of a head are, and what its fields say.
#[derive(Clone, Copy)]
pub(crate) struct HeadSpans {
    pub(crate) method: Span,
    pub(crate) target: Span,
    pub(crate) minor: u8,
    pub(crate) is_last: bool,
    pub(crate) body: Result<usize, Refusal>,
    pub(crate) len: usize,
}

// What bytes are as a head.
#[derive(Clone, Copy)]
pub(crate) enum HeadRead {
    // More bytes may make one.
    Partial,
    // None of at most 64 fields, whatever follows.
    Invalid,
    Whole(HeadSpans),
}

pub(crate) fn read_head(bytes: &[u8]) -> HeadRead
    ensures { ReadsHead bytes.now result }
{
    let mut room = [EMPTY_HEADER_SPAN; MOST_FIELDS];
    read_head_into(bytes, &mut room)
}

fn read_head_into(bytes: &[u8], room: &mut [HeaderSpan]) -> HeadRead
    requires { length room.old ≡ most_fields }
    ensures { ReadsHead bytes.now result }
{
    match parse_request(bytes, room) {
        Ok(Status::Complete(head)) => {
            let headers = &room[..head.headers];
            HeadRead::Whole(HeadSpans {
                method: head.method,
                target: head.path,
                minor: head.version,
                is_last: ends_link(bytes, head.version, headers),
                body: body_length(bytes, head.method.of(bytes), headers),
                len: head.len,
            })
        }
        Ok(Status::Partial) => HeadRead::Partial,
        Err(_) => HeadRead::Invalid,
    }
}

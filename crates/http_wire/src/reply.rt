//! The bytes of replies.
ghost use Rattle.std.specs.Prelude.{◌≡◌, ◌+◌, ◌++◌, ◌∷◌, [], decimal, length, IfOk, OnErr, OnOk};
ghost use Rattle.http_wire.specs.Replies.{body_of, first_lines, found_line, head_of, last_lines, length_name, refusal_line, reply_bytes, reply_head, text_line};

use crate::refusal::Refusal;
use itoa::Buffer;
use std::alloc::{AllocError, Global};

/// What the body of a reply is.
#[derive(Clone, Copy, Debug, PartialEq, Eq)]
pub enum MediaType {
    /// `application/json`
    Json,
    /// `text/plain`
    Plain,
    /// `text/csv`
    Csv,
}

/// What is replied to a request.
#[derive(Clone, Copy)]
pub enum Reply<'a> {
    /// 200 with a body of this kind.
    Found(MediaType, &'a [u8]),
    /// 400 with a text, to which a line feed is added.
    Text(&'a [u8]),
    /// A refusal without a body.
    Refused(Refusal),
}

/// Puts the bytes of a reply behind others; `is_last` where the link ends after it. Where memory runs out
/// nothing changes.
#[tactic(auto, unfolding(crate::specs::Replies::reply_bytes))]
pub fn push_reply(
    alloc: Global,
    out: &mut Vec<u8>,
    reply: &Reply<'_>,
    is_last: bool,
) -> Result<(), AllocError>
    ensures ok { OnOk result (out.new.items ≡ out.old.items ++ reply_bytes reply.now is_last) }
    ensures err { OnErr result (out.new.items ≡ out.old.items) }
{
    let first = first_lines(reply);
    match reply {
        Reply::Found(_, body) => push_parts(alloc, out, first, body, is_last),
        Reply::Text(text) => {
            let mut body = Vec::from_slice(alloc, text)?;
            body.push(b'\n')?;
            push_parts(alloc, out, first, body.as_slice(), is_last)
        }
        Reply::Refused(_) => push_parts(alloc, out, first, b"", is_last),
    }
}

/// Puts the bytes of a reply up to its body behind others. Where memory runs out nothing changes.
#[tactic(auto, unfolding(crate::specs::Replies::reply_head))]
pub(crate) fn push_reply_head(
    alloc: Global,
    out: &mut Vec<u8>,
    reply: &Reply<'_>,
    is_last: bool,
) -> Result<(), AllocError>
    ensures ok { OnOk result (out.new.items ≡ out.old.items ++ reply_head reply.now is_last) }
    ensures err { OnErr result (out.new.items ≡ out.old.items) }
{
    let head = head_of(alloc, first_lines(reply), body_length(reply), is_last)?;
    out.extend_from_slice(head.as_slice())
}

// What a reply begins with.
fn first_lines(reply: &Reply<'_>) -> &'static [u8]
    ensures { result.now ≡ first_lines reply.now }
{
    match reply {
        Reply::Found(media, _) => found_line(*media),
        Reply::Text(_) => text_line(),
        Reply::Refused(why) => refusal_line(*why),
    }
}

// How many bytes its body has.
fn body_length(reply: &Reply<'_>) -> usize
    ensures { result ≡ length (body_of reply.now) }
{
    match reply {
        Reply::Found(_, body) => body.len(),
        Reply::Text(text) => text.len() + 1,
        Reply::Refused(_) => 0,
    }
}

// Puts a reply behind others: its first lines, the fields that each reply has, and its body.
fn push_parts(
    alloc: Global,
    out: &mut Vec<u8>,
    first: &[u8],
    body: &[u8],
    is_last: bool,
) -> Result<(), AllocError>
    ensures ok { OnOk result
        (out.new.items ≡ out.old.items
        ++ (head_of first.now (length body.now) is_last ++ body.now)) }
    ensures err { OnErr result (out.new.items ≡ out.old.items) }
{
    let head = head_of(alloc, first, body.len(), is_last)?;
    let start = out.len();
    out.extend_from_slice(head.as_slice())?;
    match out.extend_from_slice(body) {
        Ok(()) => Ok(()),
        Err(refused) => {
            out.truncate(start);
            Err(refused)
        }
    }
}

// What stands before the body.
fn head_of(alloc: Global, first: &[u8], count: usize, is_last: bool) -> Result<Vec<u8>, AllocError>
    ensures { IfOk result (λ head. head.items ≡ head_of first.now count is_last) }
{
    let mut head = Vec::from_slice(alloc, first)?;
    push_length_name(&mut head)?;
    push_number(&mut head, count)?;
    head.extend_from_slice(last_lines(is_last))?;
    Ok(head)
}

#[tactic(auto, unfolding(crate::specs::Replies::length_name))]
fn push_length_name(out: &mut Vec<u8>) -> Result<(), AllocError>
    ensures { OnOk result (out.new.items ≡ out.old.items ++ length_name) }
{
    out.extend_from_slice(b"Content-Length: ")
}

fn push_number(out: &mut Vec<u8>, number: usize) -> Result<(), AllocError>
    ensures { OnOk result (out.new.items ≡ out.old.items ++ decimal number) }
{
    out.extend_from_slice(Buffer::new().format(number).as_bytes())
}

#[tactic(auto, unfolding(crate::specs::Replies::found_line))]
fn found_line(media: MediaType) -> &'static [u8]
    ensures { result.now ≡ found_line media }
{
    match media {
        MediaType::Json => b"HTTP/1.1 200 OK\r\nContent-Type: application/json\r\n",
        MediaType::Plain => b"HTTP/1.1 200 OK\r\nContent-Type: text/plain\r\n",
        MediaType::Csv => b"HTTP/1.1 200 OK\r\nContent-Type: text/csv\r\n",
    }
}

#[tactic(auto, unfolding(crate::specs::Replies::text_line))]
fn text_line() -> &'static [u8]
    ensures { result.now ≡ text_line }
{
    b"HTTP/1.1 400 Bad Request\r\nContent-Type: text/plain\r\n"
}

#[tactic(auto, unfolding(crate::specs::Replies::refusal_line))]
fn refusal_line(why: Refusal) -> &'static [u8]
    ensures { result.now ≡ refusal_line why }
{
    match why {
        Refusal::BadRequest => b"HTTP/1.1 400 Bad Request\r\n",
        Refusal::NotFound => b"HTTP/1.1 404 Not Found\r\n",
        Refusal::MethodNotAllowed => { b"HTTP/1.1 405 Method Not Allowed\r\nAllow: GET, POST\r\n" }
        Refusal::LengthRequired => b"HTTP/1.1 411 Length Required\r\n",
        Refusal::ContentTooLarge => b"HTTP/1.1 413 Content Too Large\r\n",
        Refusal::ServerError => b"HTTP/1.1 500 Internal Server Error\r\n",
        Refusal::NotImplemented => b"HTTP/1.1 501 Not Implemented\r\n",
        Refusal::Unavailable => b"HTTP/1.1 503 Service Unavailable\r\n",
    }
}

#[tactic(auto, unfolding(crate::specs::Replies::last_lines))]
fn last_lines(is_last: bool) -> &'static [u8]
    ensures { result.now ≡ last_lines is_last }
{
    if is_last {
        return b"\r\nConnection: close\r\n\r\n";
    }
    b"\r\n\r\n"
}

//! Requests and replies of HTTP.

use crate::given::joined;
use crate::telling::{push_bytes, push_made};
use case_lines::{Case, CaseFault, Told};
use http_wire::{
    Answer, Endpoint, Handed, Item, MediaType, Refusal, Reply, Request, RequestReader, push_answer,
    push_reply, query_of, route,
};
use std::alloc::{AllocError, Global};

/// `requests SIZE STREAM`: what a link tells on which the stream comes in pieces of this size, and then its end. A request is its
/// method, target, minor version, `L` where it is the last and else `-`, and body; a refusal its code; and a bar stands behind each
/// that is told before the end.
pub fn tell_requests(alloc: Global, told: &mut Told, case: &Case) {
    let size = case.number_at(0, told) as usize;
    let stream = joined(alloc, case, 1, told);
    let mut reader = RequestReader::new(alloc);
    for piece in stream.chunks(size.max(1)) {
        feed(&mut reader, piece, told);
        push_requests(&mut reader, told);
    }
    if let Some(why) = reader.end() {
        write!(told, "{}", why.code());
    }
}

// How many bytes of a piece are taken: all where there is no memory.
fn feed(reader: &mut RequestReader, piece: &[u8], told: &mut Told) -> usize {
    match reader.feed(piece) {
        Ok(count) => count,
        Err(_) => {
            told.fail(CaseFault::NoMemory);
            piece.len()
        }
    }
}

// Hands out what waits.
fn push_requests(reader: &mut RequestReader, seen: &mut Told) {
    for _ in 0..u64::MAX {
        match reader.next_request() {
            Some(Handed::Request) => push_request(seen, &reader.request()),
            Some(Handed::Refused(why)) => write!(seen, "{}", why.code()),
            None => return,
        }
        seen.push('|');
    }
}

fn push_request(seen: &mut Told, request: &Request<'_>) {
    push_bytes(seen, request.method);
    seen.push(' ');
    push_bytes(seen, request.target);
    write!(seen, " {}", request.minor);
    seen.push_str(if request.is_last { " L " } else { " - " });
    push_bytes(seen, request.body);
}

/// `requests-fed STREAM`: how many bytes are taken at a time of all that are left, and then the requests as `requests` tells them.
pub fn tell_feeds(alloc: Global, told: &mut Told, case: &Case) {
    let stream = joined(alloc, case, 0, told);
    let mut seen = Told::new(alloc);
    push_feeds(alloc, told, &mut seen, &stream);
    match seen.finish() {
        Ok(seen) => told.push_str(seen.as_str()),
        Err(fault) => told.fail(fault),
    }
}

fn push_feeds(alloc: Global, told: &mut Told, seen: &mut Told, stream: &[u8]) {
    let mut reader = RequestReader::new(alloc);
    let mut rest = stream;
    for _ in 0..stream.len() {
        if rest.is_empty() {
            break;
        }
        let count = feed(&mut reader, rest, told);
        write!(told, "{count} ");
        push_requests(&mut reader, seen);
        rest = rest.get(count..).unwrap_or(&[]);
    }
}

/// `route METHOD TARGET`: what answers the request, or the code of its refusal.
pub fn tell_route(told: &mut Told, case: &Case) {
    match route(case.bytes_at(0, told), case.bytes_at(1, told)) {
        Ok(Endpoint::Render) => told.push_str("render"),
        Ok(Endpoint::Find) => told.push_str("find"),
        Ok(Endpoint::Expand) => told.push_str("expand"),
        Ok(Endpoint::Index) => told.push_str("index"),
        Err(why) => write!(told, "{}", why.code()),
    }
}

/// `query-of TARGET`: the query in the target of a request.
pub fn tell_query_of(told: &mut Told, case: &Case) {
    let target = case.bytes_at(0, told);
    push_bytes(told, query_of(target));
}

/// `reply LINK KIND TEXT`: the bytes of the reply behind others. The link stays `open` or is `closing`; the kind is `json`, `plain`
/// or `csv` of a body, `text` of a reason, or `refused` of a code.
pub fn tell_reply(alloc: Global, told: &mut Told, case: &Case) {
    let is_last = is_closing(case.text_at(0, told), told);
    let kind = case.text_at(1, told);
    let text = joined(alloc, case, 2, told);
    let reply = reply_of(kind, &text, told);
    push_made(told, replied(alloc, &reply, is_last));
}

fn replied(alloc: Global, reply: &Reply<'_>, is_last: bool) -> Result<Vec<u8>, AllocError> {
    let mut out = Vec::from_slice(alloc, b"before")?;
    push_reply(alloc, &mut out, reply, is_last)?;
    Ok(out)
}

fn reply_of<'a>(kind: &str, text: &'a [u8], told: &mut Told) -> Reply<'a> {
    match kind {
        "text" => Reply::Text(text),
        "refused" => Reply::Refused(refusal(text, told)),
        _ => Reply::Found(media_type(kind, told), text),
    }
}

/// `answer ITEM KIND TEXT`: whether the link is `open` or `closing` behind the answer, and its bytes behind others. The item is
/// the target of a GET, the same behind `closing:`, or the code of a refusal; the kind is as that of a reply, or `fault` or `memory`.
pub fn tell_answer(alloc: Global, told: &mut Told, case: &Case) {
    let item = item_of(case.text_at(0, told), told);
    let kind = case.text_at(1, told);
    let text = joined(alloc, case, 2, told);
    let answer = answer_of(kind, &text, told);
    push_answered(alloc, told, &item, &answer);
}

fn push_answered(alloc: Global, told: &mut Told, item: &Item<'_>, answer: &Answer<'_>) {
    let mut out = Vec::new(alloc);
    told.keep(out.extend_from_slice(b"before"));
    match push_answer(alloc, &mut out, item, answer) {
        Ok(is_last) => {
            told.push_str(if is_last { "closing " } else { "open " });
            push_bytes(told, &out);
        }
        Err(_) => told.fail(CaseFault::NoMemory),
    }
}

fn answer_of<'a>(kind: &str, text: &'a [u8], told: &mut Told) -> Answer<'a> {
    match kind {
        "text" => Answer::Unanswerable(text),
        "refused" => Answer::Refused(refusal(text, told)),
        "fault" => Answer::DiskFault,
        "memory" => Answer::NoMemory,
        _ => Answer::Found(media_type(kind, told), text),
    }
}

fn item_of<'a>(text: &'a str, told: &mut Told) -> Item<'a> {
    if text.starts_with('/') {
        return get(text, false);
    }
    match text.strip_prefix("closing:") {
        Some(target) => get(target, true),
        None => Item::Refused(refusal(text.as_bytes(), told)),
    }
}

fn get(target: &str, is_last: bool) -> Item<'_> {
    Item::Request(Request {
        method: b"GET",
        target: target.as_bytes(),
        minor: 1,
        is_last,
        body: b"",
    })
}

fn is_closing(text: &str, told: &mut Told) -> bool {
    match text {
        "open" => false,
        "closing" => true,
        _ => {
            told.malformed();
            false
        }
    }
}

fn media_type(text: &str, told: &mut Told) -> MediaType {
    match text {
        "json" => MediaType::Json,
        "plain" => MediaType::Plain,
        "csv" => MediaType::Csv,
        _ => {
            told.malformed();
            MediaType::Json
        }
    }
}

fn refusal(code: &[u8], told: &mut Told) -> Refusal {
    match code {
        b"400" => Refusal::BadRequest,
        b"404" => Refusal::NotFound,
        b"405" => Refusal::MethodNotAllowed,
        b"411" => Refusal::LengthRequired,
        b"413" => Refusal::ContentTooLarge,
        b"500" => Refusal::ServerError,
        b"501" => Refusal::NotImplemented,
        b"503" => Refusal::Unavailable,
        _ => {
            told.malformed();
            Refusal::BadRequest
        }
    }
}

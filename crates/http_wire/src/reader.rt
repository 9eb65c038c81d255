//! The reader, which keeps the bytes that came and hands out their requests.
ghost use Rattle.std.specs.Prelude.{◌≡◌, ◌≤◌, drop, length};

use crate::cut::{Cut, MOST_HEAD_BYTES, Place, cut_read};
use crate::fields::MOST_BODY_BYTES;
use crate::head::HeadSpans;
use crate::refusal::Refusal;
use std::alloc::{AllocError, Global};
use std::marker::Model;

// As many bytes are kept of a request that is not whole yet.
const MOST_OPEN_BYTES: usize = MOST_HEAD_BYTES + MOST_BODY_BYTES;

/// What [`RequestReader::next_request`] hands out.
#[derive(Clone, Copy, Debug, PartialEq, Eq)]
pub enum Handed {
    /// A request, which [`RequestReader::request`] reads.
    Request,
    /// A refusal, with which the link ends.
    Refused(Refusal),
}

/// A whole request.
#[derive(Clone, Copy)]
pub struct Request<'a> {
    pub method: &'a [u8],
    /// The target as it came, with its query.
    pub target: &'a [u8],
    /// The minor version: 1 of HTTP/1.1, 0 of HTTP/1.0.
    pub minor: u8,
    /// Whether the link ends after the reply.
    pub is_last: bool,
    pub body: &'a [u8],
}

/// Takes the bytes of a link in any pieces, and hands out its requests in order, each once.
#[derive(Drop)]
pub struct RequestReader {
    buffer: Vec<u8>,
    // the bytes before this place were handed out
    at: usize,
    // the head that stands at this place, while its body is awaited
    head: Option<HeadSpans>,
    // whether the link ends with what was handed out
    is_over: bool,
    // where the request that was handed out last begins
    start: usize,
    // its parts, while it can be read
    current: Option<Place>,
}

impl Model for RequestReader {
    ghost use Rattle.http_wire.specs.Reading.{Reading, reading_of, IsLaidOut};

    ghost Value = { Reading };

    ghost view = { λ r. reading_of r.buffer.items r.at r.is_over r.start r.current };

    ghost invariant = { λ r. IsLaidOut r.buffer.items r.at r.head r.start r.current };
}

impl RequestReader {
    ghost use Rattle.std.specs.Prelude.{◌≡◌, ◌≢◌, ◌≤◌, [], None, Some, OnOk, IfOk, IfNone, OnErr, length};
    ghost use Rattle.http_wire.specs.Reading.{HandsNext, HasRoom, IsKept, Takes, end_of, seen};

    /// A reader to which nothing was fed. It takes no memory.
    pub fn new(alloc: Global) -> RequestReader
        ensures { result ≡ record { left = Some []; current = None } }
    {
        RequestReader {
            buffer: Vec::new(alloc),
            at: 0,
            head: None,
            is_over: false,
            start: 0,
            current: None,
        }
    }

    /// Puts a front of a piece behind what was fed, and answers how many bytes it has: all, where there is
    /// room, which there is for some whenever [`RequestReader::next_request`] has answered `None`. The
    /// request that was handed out last cannot be read any more. No bytes are moved where nothing was handed
    /// out since the last piece.
    pub fn feed(&mut self, piece: &[u8]) -> Result<usize, AllocError>
        ensures ok { IfOk result (λ count. Takes self.old.left piece.now count self.new.left) }
        ensures within { IfOk result (λ count. count ≤ length piece.now) }
        ensures err { OnErr result (self.new.left ≡ self.old.left) }
        ensures kept { IsKept self.new.left }
        ensures current { self.new.current ≡ None }
    {
        self.current = None;
        self.start = 0;
        remove_front(&mut self.buffer, self.at);
        self.at = 0;
        if self.is_over {
            return Ok(piece.len());
        }
        let count = piece.len().min(MOST_OPEN_BYTES - self.buffer.len());
        self.buffer.extend_from_slice(&piece[..count])?;
        Ok(count)
    }

    /// Hands out the request that is next, or the refusal that ends the link. `None` where that wants more
    /// bytes, or the link is over; then there is room for a byte more. It takes no memory. A head is read at
    /// each call until it is whole, so that bytes that no head begins with are refused when they come. A
    /// body that is awaited costs a look at the number of its bytes.
    pub fn next_request(&mut self) -> Option<Handed>
        ensures hands { HandsNext result self.old self.new }
        ensures room { IfNone result (HasRoom self.new.left) }
    {
        self.current = None;
        if self.is_over {
            return None;
        }
        let head = self.head;
        self.head = None;
        match cut_read(&self.buffer[self.at..], head) {
            Cut::Open => return None,
            Cut::OpenBody(spans) => {
                self.head = Some(spans);
                return None;
            }
            Cut::Refused(why) => {
                self.is_over = true;
                return Some(Handed::Refused(why));
            }
            Cut::Whole(place) => {
                self.start = self.at;
                self.at += place.len;
                self.is_over = place.is_last;
                self.current = Some(place);
                return Some(Handed::Request);
            }
        }
    }

    /// The request that [`RequestReader::next_request`] handed out last.
    pub fn request(&self) -> Request<'_>
        requires { self.now.current ≢ None }
        ensures { self.now.current ≡ Some (seen result) }
    {
        let Some(place) = self.current else {
            unreachable!()
        };
        let bytes = &self.buffer[self.start..];
        Request {
            method: place.method.of(bytes),
            target: place.target.of(bytes),
            minor: place.minor,
            is_last: place.is_last,
            body: &bytes[place.head_len..place.len],
        }
    }

    /// What the link ends with, once all is handed out: nothing where no byte of a request is open, and else
    /// a refusal.
    pub fn end(&self) -> Option<Refusal>
        ensures { result ≡ end_of self.now.left }
    {
        if self.is_over || self.at == self.buffer.len() {
            return None;
        }
        Some(Refusal::BadRequest)
    }
}

fn remove_front(bytes: &mut Vec<u8>, count: usize)
    requires { count ≤ length bytes.old.items }
    ensures { bytes.new.items ≡ drop count bytes.old.items }
{
    if count == 0 {
        return;
    }
    let left = bytes.len() - count;
    bytes.copy_within(count.., 0);
    bytes.truncate(left);
}

//! What the items of a link are answered.
ghost use Rattle.std.specs.Prelude.{◌≡◌, ◌++◌, IfOk, OnErr, OnOk};
ghost use Rattle.http_wire.specs.Answers.{ends_link_with, head_to, is_no_memory, item_of, reply_of, response_of};

use crate::reader::Request;
use crate::refusal::Refusal;
use crate::reply::{MediaType, Reply, push_reply, push_reply_head};
use std::alloc::{AllocError, Global};

/// What is answered to an item of a link.
#[derive(Clone, Copy)]
pub enum Answer<'a> {
    /// The endpoint made a body of this kind.
    Found(MediaType, &'a [u8]),
    /// The endpoint cannot answer what is asked, and says why.
    Unanswerable(&'a [u8]),
    /// No endpoint is asked: the item is a refusal, or a request that [`crate::route`] refuses.
    Refused(Refusal),
    /// A disk failed.
    DiskFault,
    /// Memory ran out. The link ends after this answer.
    NoMemory,
}

/// An item of a link, as a reader hands it out.
#[derive(Clone, Copy)]
pub enum Item<'a> {
    /// A request.
    Request(Request<'a>),
    /// A refusal, with which the link ends.
    Refused(Refusal),
}

/// Puts the reply that answers an item behind others, and tells whether the link ends after it. Where memory
/// runs out nothing changes.
#[tactic(auto, unfolding(crate::specs::Answers::response_of))]
pub fn push_answer(
    alloc: Global,
    out: &mut Vec<u8>,
    item: &Item<'_>,
    answer: &Answer<'_>,
) -> Result<bool, AllocError>
    ensures ends { IfOk result (λ ends. ends ≡ ends_link_with (item_of item.now) answer.now) }
    ensures ok { OnOk result
        (out.new.items ≡ out.old.items ++ response_of (item_of item.now) answer.now) }
    ensures err { OnErr result (out.new.items ≡ out.old.items) }
{
    let is_last = ends_link_with(item, answer);
    let reply = reply_of(answer);
    push_reply(alloc, out, &reply, is_last)?;
    Ok(is_last)
}

/// Puts the head of that reply behind others: all that comes before its body, so that a long body need not be
/// copied. It tells whether the link ends after the reply. Where memory runs out nothing changes.
#[tactic(auto, unfolding(crate::specs::Answers::head_to))]
pub fn push_head(
    alloc: Global,
    out: &mut Vec<u8>,
    item: &Item<'_>,
    answer: &Answer<'_>,
) -> Result<bool, AllocError>
    ensures ends { IfOk result (λ ends. ends ≡ ends_link_with (item_of item.now) answer.now) }
    ensures ok { OnOk result
        (out.new.items ≡ out.old.items ++ head_to (item_of item.now) answer.now) }
    ensures err { OnErr result (out.new.items ≡ out.old.items) }
{
    let is_last = ends_link_with(item, answer);
    let reply = reply_of(answer);
    push_reply_head(alloc, out, &reply, is_last)?;
    Ok(is_last)
}

// The reply that an answer is.
fn reply_of<'a>(answer: &Answer<'a>) -> Reply<'a>
    ensures { result ≡ reply_of answer.now }
{
    match answer {
        Answer::Found(media, body) => Reply::Found(*media, body),
        Answer::Unanswerable(text) => Reply::Text(text),
        Answer::Refused(why) => Reply::Refused(*why),
        Answer::DiskFault => Reply::Refused(Refusal::ServerError),
        Answer::NoMemory => Reply::Refused(Refusal::Unavailable),
    }
}

// Whether the link ends after an item that is answered so.
fn ends_link_with(item: &Item<'_>, answer: &Answer<'_>) -> bool
    ensures { result ≡ ends_link_with (item_of item.now) answer.now }
{
    match item {
        Item::Request(request) => request.is_last || is_no_memory(answer),
        Item::Refused(_) => true,
    }
}

fn is_no_memory(answer: &Answer<'_>) -> bool
    ensures { result ≡ is_no_memory answer.now }
{
    match answer {
        Answer::NoMemory => true,
        _ => false,
    }
}

//! Writing replies.
ghost use Rattle.std.specs.Prelude.{◌≡◌, ◌++◌, Err, IfErr, IfOk, IfSome, IsErr, OnErr, OnOk};
ghost use Rattle.std.specs.Io.KnownBytes.{Appends};
ghost use Rattle.outside_io.specs.Sink.{AppendsFront};
ghost use Rattle.http_wire.specs.Answers.{body_in, ends_link_with, item_of, response_of};
ghost use Rattle.http_front.specs.Outcomes.{answer_of, reply_to};
ghost use Rattle.http_front.specs.Standing.{FailsToReply};
ghost use Rattle.http_front.specs.Origin.{WritesOnly};

use crate::ends::HttpEnd;
use crate::outcome::Outcome;
use http_wire::{Answer, Item, push_answer, push_head};
use outside_io::{Sink, WriteFault, write_all};
use std::alloc::Global;

// The longest body that is copied, so that its reply is one write.
const MOST_COPIED_BYTES: usize = 65_536;

/// Writes the reply to an item with this outcome, whole, and tells whether the link ends after it. A long body is written where it stands, behind
/// its head; any other reply is one piece.
#[tactic(auto, using(crate::proofs::ReplyLemmas::same_end))]
pub(crate) fn reply<K: Sink>(
    alloc: Global,
    item: &Item<'_>,
    outcome: Outcome,
    out: &mut K,
) -> Result<bool, HttpEnd>
    ensures ends { IfOk result
        (λ ends. ends ≡ ends_link_with (item_of item.now) (answer_of outcome)) }
    ensures replies { OnOk result (Appends (K.written out.old) (K.written out.new)
        (reply_to (item_of item.now) outcome)) }
    ensures fails { IfErr result
        (λ end. FailsToReply end (reply_to (item_of item.now) outcome) (K.written out.old)
        (K.written out.new)) }
    ensures writes { WritesOnly K.Sink out.old out.new (result ≡ Err HttpEnd.WriteFault) }
{
    let answer = outcome.as_answer();
    match long_body(&answer) {
        Some(body) => reply_in_two(alloc, item, &answer, body, out),
        None => reply_in_one(alloc, item, &answer, out),
    }
}

// The body of an answer, where it is long.
fn long_body<'a>(answer: &Answer<'a>) -> Option<&'a [u8]>
    ensures { IfSome result (λ body. body.now ≡ body_in answer.now) }
{
    match answer {
        Answer::Found(_, body) if body.len() > MOST_COPIED_BYTES => Some(body),
        _ => None,
    }
}

// Writes the reply to an item with this answer in one piece.
fn reply_in_one<K: Sink>(
    alloc: Global,
    item: &Item<'_>,
    answer: &Answer<'_>,
    out: &mut K,
) -> Result<bool, HttpEnd>
    ensures ends { IfOk result (λ ends. ends ≡ ends_link_with (item_of item.now) answer.now) }
    ensures replies { OnOk result (Appends (K.written out.old) (K.written out.new)
        (response_of (item_of item.now) answer.now)) }
    ensures fails { IfErr result
        (λ end. FailsToReply end (response_of (item_of item.now) answer.now)
        (K.written out.old) (K.written out.new)) }
    ensures writes { WritesOnly K.Sink out.old out.new (result ≡ Err HttpEnd.WriteFault) }
{
    let mut bytes = Vec::new(alloc);
    match push_answer(alloc, &mut bytes, item, answer) {
        Ok(ends) => match write_all(out, bytes.as_slice()) {
            Ok(()) => Ok(ends),
            Err(_) => Err(HttpEnd::WriteFault),
        },
        Err(_) => Err(HttpEnd::NoMemory),
    }
}

// The same in two pieces: the head, and the body where it stands.
fn reply_in_two<K: Sink>(
    alloc: Global,
    item: &Item<'_>,
    answer: &Answer<'_>,
    body: &[u8],
    out: &mut K,
) -> Result<bool, HttpEnd>
    requires { body.now ≡ body_in answer.now }
    ensures ends { IfOk result (λ ends. ends ≡ ends_link_with (item_of item.now) answer.now) }
    ensures replies { OnOk result (Appends (K.written out.old) (K.written out.new)
        (response_of (item_of item.now) answer.now)) }
    ensures fails { IfErr result
        (λ end. FailsToReply end (response_of (item_of item.now) answer.now)
        (K.written out.old) (K.written out.new)) }
    ensures writes { WritesOnly K.Sink out.old out.new (result ≡ Err HttpEnd.WriteFault) }
{
    let mut head = Vec::new(alloc);
    match push_head(alloc, &mut head, item, answer) {
        Ok(ends) => match write_both(out, head.as_slice(), body) {
            Ok(()) => Ok(ends),
            Err(_) => Err(HttpEnd::WriteFault),
        },
        Err(_) => Err(HttpEnd::NoMemory),
    }
}

// Writes two texts, the one behind the other.
fn write_both<K: Sink>(out: &mut K, first: &[u8], second: &[u8]) -> Result<(), WriteFault>
    ensures written { OnOk result
        (Appends (K.written out.old) (K.written out.new) (first.now ++ second.now)) }
    ensures prefix { OnErr result
        (AppendsFront (K.written out.old) (K.written out.new) (first.now ++ second.now)) }
    ensures writes { WritesOnly K.Sink out.old out.new (IsErr result) }
{
    write_all(out, first)?;
    write_all(out, second)
}

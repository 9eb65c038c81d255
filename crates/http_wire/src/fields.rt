// What the fields of a head say. Spans point into `bytes`, and stand for the name and the value of a field.
ghost use Rattle.std.specs.Prelude.{◌≡◌, ◌<◌, ◌≤◌, length, map, All, IfOk};
ghost use Rattle.std.specs.List.{list_all, list_any};
ghost use Rattle.std.specs.Option.{option_map};
ghost use Rattle.httparse.specs.Spans.{IsHeaderWithin, header_bytes};
ghost use Rattle.http_wire.specs.Fields.{agreed_length, agrees, body_length, connection, content_length, ends_link, first_value, has_close, is_close, is_named, length_by, length_in, most_body_bytes, says_close, says_length, transfer_encoding};

use crate::refusal::Refusal;
use crate::routing::is_post;
use fixed_num::read_whole;
use httparse::spans::HeaderSpan;

/// The most bytes that a body may have.
pub const MOST_BODY_BYTES: usize = 1_048_576;

// The most digits of a length.
const MOST_LENGTH_DIGITS: usize = 18;

/// How long the body of a request is, or why the request is refused.
#[tactic(auto, unfolding(crate::specs::Fields::body_length))]
pub(crate) fn body_length(
    bytes: &[u8],
    method: &[u8],
    headers: &[HeaderSpan],
) -> Result<usize, Refusal>
    requires { All (IsHeaderWithin (length bytes.now)) headers.now }
    ensures { result ≡ body_length method.now (map (header_bytes bytes.now) headers.now) }
{
    if has_field(bytes, headers, transfer_encoding()) {
        return Err(Refusal::NotImplemented);
    }
    match first_value(bytes, headers, content_length()) {
        Some(value) => agreed_length(bytes, headers, length_in(value)),
        None if is_post(method) => Err(Refusal::LengthRequired),
        None => Ok(0),
    }
}

/// Whether the link ends after a request.
pub(crate) fn ends_link(bytes: &[u8], minor: u8, headers: &[HeaderSpan]) -> bool
    requires { All (IsHeaderWithin (length bytes.now)) headers.now }
    ensures { result ≡ ends_link minor (map (header_bytes bytes.now) headers.now) }
{
    minor == 0 || some_says_close(bytes, headers)
}

fn agreed_length(
    bytes: &[u8],
    headers: &[HeaderSpan],
    first: Option<usize>,
) -> Result<usize, Refusal>
    requires { All (IsHeaderWithin (length bytes.now)) headers.now }
    ensures { result ≡ agreed_length (map (header_bytes bytes.now) headers.now) first }
{
    let Some(length) = first else {
        return Err(Refusal::BadRequest);
    };
    if !all_agree(bytes, headers, length) {
        return Err(Refusal::BadRequest);
    }
    if length > MOST_BODY_BYTES {
        return Err(Refusal::ContentTooLarge);
    }
    Ok(length)
}

fn all_agree(bytes: &[u8], headers: &[HeaderSpan], said: usize) -> bool
    requires { All (IsHeaderWithin (length bytes.now)) headers.now }
    ensures { result ≡ list_all (agrees said) (map (header_bytes bytes.now) headers.now) }
{
    for header in headers {
        if !agrees(bytes, header, said) {
            return false;
        }
    }
    true
}

fn some_says_close(bytes: &[u8], headers: &[HeaderSpan]) -> bool
    requires { All (IsHeaderWithin (length bytes.now)) headers.now }
    ensures { result ≡ list_any says_close (map (header_bytes bytes.now) headers.now) }
{
    for header in headers {
        if says_close(bytes, header) {
            return true;
        }
    }
    false
}

fn has_field(bytes: &[u8], headers: &[HeaderSpan], name: &[u8]) -> bool
    requires { All (IsHeaderWithin (length bytes.now)) headers.now }
    ensures { result ≡ list_any (is_named name.now) (map (header_bytes bytes.now) headers.now) }
{
    for header in headers {
        if is_named(bytes, header, name) {
            return true;
        }
    }
    false
}

fn first_value<'b>(bytes: &'b [u8], headers: &[HeaderSpan], name: &[u8]) -> Option<&'b [u8]>
    requires { All (IsHeaderWithin (length bytes.now)) headers.now }
    ensures { option_map (λ value. value.now) result
        ≡ first_value name.now (map (header_bytes bytes.now) headers.now) }
{
    for header in headers {
        if is_named(bytes, header, name) {
            return Some(header.value.of(bytes));
        }
    }
    None
}

fn agrees(bytes: &[u8], header: &HeaderSpan, said: usize) -> bool
    requires { IsHeaderWithin (length bytes.now) header.now }
    ensures { result ≡ agrees said (header_bytes bytes.now header.now) }
{
    !is_named(bytes, header, content_length()) || says_length(header.value.of(bytes), said)
}

fn says_close(bytes: &[u8], header: &HeaderSpan) -> bool
    requires { IsHeaderWithin (length bytes.now) header.now }
    ensures { result ≡ says_close (header_bytes bytes.now header.now) }
{
    is_named(bytes, header, connection()) && has_close(header.value.of(bytes))
}

fn is_named(bytes: &[u8], header: &HeaderSpan, name: &[u8]) -> bool
    requires { IsHeaderWithin (length bytes.now) header.now }
    ensures { result ≡ is_named name.now (header_bytes bytes.now header.now) }
{
    header.name.of(bytes).eq_ignore_ascii_case(name)
}

#[tactic(auto, unfolding(crate::specs::Fields::says_length))]
fn says_length(value: &[u8], wanted: usize) -> bool
    ensures { result ≡ says_length wanted value.now }
{
    match length_in(value) {
        Some(said) => said == wanted,
        None => false,
    }
}

#[tactic(auto, unfolding(crate::specs::Fields::length_in))]
fn length_in(value: &[u8]) -> Option<usize>
    ensures { result ≡ length_in value.now }
{
    if value.len() > MOST_LENGTH_DIGITS {
        return None;
    }
    match read_whole(value) {
        Some(length) => Some(length as usize),
        None => None,
    }
}

fn has_close(value: &[u8]) -> bool
    ensures { result ≡ has_close value.now }
{
    value.split(|b| *b == b',').any(|token| is_close(token))
}

#[tactic(auto, unfolding(crate::specs::Fields::is_close))]
fn is_close(token: &[u8]) -> bool
    ensures { result ≡ is_close token.now }
{
    token.trim_ascii().eq_ignore_ascii_case(b"close")
}

#[tactic(auto, unfolding(crate::specs::Fields::transfer_encoding))]
fn transfer_encoding() -> &'static [u8]
    ensures { result.now ≡ transfer_encoding }
{
    b"Transfer-Encoding"
}

#[tactic(auto, unfolding(crate::specs::Fields::content_length))]
fn content_length() -> &'static [u8]
    ensures { result.now ≡ content_length }
{
    b"Content-Length"
}

#[tactic(auto, unfolding(crate::specs::Fields::connection))]
fn connection() -> &'static [u8]
    ensures { result.now ≡ connection }
{
    b"Connection"
}

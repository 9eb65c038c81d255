//! Where requests go.
ghost use Rattle.std.specs.Prelude.{◌≡◌, ◌<◌, IfSome, length};
ghost use Rattle.std.specs.List.{position};
ghost use Rattle.http_wire.specs.Routes.{endpoint_at, is_get, is_post, is_question_mark, path_of, query_of, route};

use crate::refusal::Refusal;

const RENDER: &[u8] = b"/render";

const RENDER_FOLDER: &[u8] = b"/render/";

const FIND: &[u8] = b"/metrics/find";

const EXPAND: &[u8] = b"/metrics/expand";

const INDEX: &[u8] = b"/metrics/index.json";

const GET: &[u8] = b"GET";

const POST: &[u8] = b"POST";

/// What answers a request.
#[derive(Clone, Copy, Debug, PartialEq, Eq)]
pub enum Endpoint {
    /// `/render` or `/render/`: series.
    Render,
    /// `/metrics/find`: the nodes that a glob finds.
    Find,
    /// `/metrics/expand`: the paths that globs find.
    Expand,
    /// `/metrics/index.json`: all names.
    Index,
}

/// Where a request goes.
///
/// # Errors
///
/// `NotFound` where nothing answers at the path of the target, else `MethodNotAllowed` for a method other
/// than GET and POST.
#[tactic(auto, unfolding(crate::specs::Routes::route))]
pub fn route(method: &[u8], target: &[u8]) -> Result<Endpoint, Refusal>
    ensures { result ≡ route method.now target.now }
{
    let Some(endpoint) = endpoint_at(path_of(target)) else {
        return Err(Refusal::NotFound);
    };
    if is_get(method) || is_post(method) {
        return Ok(endpoint);
    }
    Err(Refusal::MethodNotAllowed)
}

/// What follows the first `?` of a target: no bytes where it has none.
pub fn query_of(target: &[u8]) -> &[u8]
    ensures { result.now ≡ query_of target.now }
{
    match question_mark_in(target) {
        Some(at) => &target[at + 1..],
        None => b"",
    }
}

// A target up to its first `?`.
fn path_of(target: &[u8]) -> &[u8]
    ensures { result.now ≡ path_of target.now }
{
    match question_mark_in(target) {
        Some(at) => &target[..at],
        None => target,
    }
}

// Where the first `?` stands.
fn question_mark_in(target: &[u8]) -> Option<usize>
    ensures value { result ≡ position is_question_mark target.now }
    ensures within { IfSome result (λ at. at < length target.now) }
{
    target.iter().position(|b| *b == b'?')
}

#[tactic(auto, unfolding(crate::specs::Routes::endpoint_at))]
fn endpoint_at(path: &[u8]) -> Option<Endpoint>
    ensures { result ≡ endpoint_at path.now }
{
    if path == RENDER || path == RENDER_FOLDER {
        return Some(Endpoint::Render);
    }
    if path == FIND {
        return Some(Endpoint::Find);
    }
    if path == EXPAND {
        return Some(Endpoint::Expand);
    }
    if path == INDEX {
        return Some(Endpoint::Index);
    }
    None
}

#[tactic(auto, unfolding(crate::specs::Routes::is_get))]
fn is_get(method: &[u8]) -> bool
    ensures { result ≡ is_get method.now }
{
    method == GET
}

#[tactic(auto, unfolding(crate::specs::Routes::is_post))]
pub(crate) fn is_post(method: &[u8]) -> bool
    ensures { result ≡ is_post method.now }
{
    method == POST
}

//! The queries of a request.
ghost use Rattle.std.specs.Prelude.{◌≡◌, ◌≢◌, ◌≤◌, ◌++◌, ◌∷◌, [], IfErr, IfOk, OnOk, Ok, Err, length, map};
ghost use Rattle.std.specs.Cow.{cow_str_bytes};
ghost use Rattle.form_urlencoded.specs.Form.{raw_pairs};
ghost use Rattle.find_api.specs.Queries.{IsQueryCount, globs_from, globs_or_fault, is_query_text, most_queries, queries_of, read_queries};
ghost use Rattle.find_api.specs.declared.fault.FindFault.TheVariants.{NoMemory};

use crate::fault::FindFault;
use path_glob::{Glob, GlobFault};
use std::alloc::{AllocError, Global};
use std::borrow::CowStr;

// The most queries of a request.
const MOST_QUERIES: usize = 128;

/// The globs of a request: its parameters `query` that are not empty, those of the query string and then
/// those of a body, each in order, read as HTML forms are.
///
/// # Errors
///
/// The first that holds: `NoQuery` without one, `TooManyQueries` with more than 128, and `BadQuery` with
/// the number, from 1, of the first that is no glob.
#[tactic(auto, unfolding(crate::specs::Queries::read_queries))]
pub fn read_queries(alloc: Global, query: &[u8], body: &[u8]) -> Result<Vec<Glob>, FindFault>
    ensures ok { IfOk result (λ globs. read_queries query.now body.now ≡ Ok globs.items) }
    ensures err { IfErr result (λ fault. fault ≢ NoMemory
        → read_queries query.now body.now ≡ Err fault) }
    ensures count { IfOk result (λ globs. IsQueryCount (length globs.items)) }
{
    let mut texts = Vec::new(alloc);
    push_queries(alloc, query, &mut texts)?;
    push_queries(alloc, body, &mut texts)?;
    globs_or_fault(alloc, texts.as_slice())
}

// The globs of some queries, or why they are refused.
fn globs_or_fault(alloc: Global, texts: &[CowStr<'_>]) -> Result<Vec<Glob>, FindFault>
    ensures ok { IfOk result (λ globs.
        globs_or_fault (map cow_str_bytes texts.now) ≡ Ok globs.items) }
    ensures err { IfErr result (λ fault. fault ≢ NoMemory
        → globs_or_fault (map cow_str_bytes texts.now) ≡ Err fault) }
    ensures count { IfOk result (λ globs. IsQueryCount (length globs.items)) }
{
    if texts.is_empty() {
        return Err(FindFault::NoQuery);
    }
    if texts.len() > MOST_QUERIES {
        return Err(FindFault::TooManyQueries);
    }
    read_globs(alloc, texts)
}

// The globs that texts are, or the number of the first that is none.
fn read_globs(alloc: Global, texts: &[CowStr<'_>]) -> Result<Vec<Glob>, FindFault>
    requires { length texts.now ≤ most_queries }
    ensures ok { IfOk result
        (λ globs. globs_from 1 (map cow_str_bytes texts.now) ≡ Ok globs.items) }
    ensures err { IfErr result (λ fault. fault ≢ NoMemory
        → globs_from 1 (map cow_str_bytes texts.now) ≡ Err fault) }
    ensures count { IfOk result (λ globs. length globs.items ≡ length texts.now) }
{
    let mut globs = Vec::new(alloc);
    let mut number: u32 = 1;
    for text in texts {
        match Glob::new(alloc, text.as_bytes()) {
            Ok(glob) => push_glob(&mut globs, glob)?,
            Err(GlobFault::NoMemory) => return Err(FindFault::NoMemory),
            Err(_) => return Err(FindFault::BadQuery(number)),
        }
        number += 1;
    }
    Ok(globs)
}

fn push_glob(globs: &mut Vec<Glob>, glob: Glob) -> Result<(), AllocError>
    ensures { OnOk result (globs.new.items ≡ globs.old.items ++ glob ∷ []) }
{
    globs.push(glob)?;
    Ok(())
}

// The queries of a form, in order.
fn push_queries<'a>(
    alloc: Global,
    form: &'a [u8],
    texts: &mut Vec<CowStr<'a>>,
) -> Result<(), AllocError>
    ensures { OnOk result (map cow_str_bytes texts.new.items
        ≡ map cow_str_bytes texts.old.items ++ queries_of (raw_pairs form.now)) }
{
    for pair in form_urlencoded::parse(alloc, form) {
        let (name, value) = pair?;
        if is_query(name.as_str(), value.as_str()) {
            texts.push(value)?;
        }
    }
    Ok(())
}

// Whether a parameter is a query that is not empty.
#[tactic(auto, unfolding(crate::specs::Queries::query_key))]
fn is_query(name: &str, value: &str) -> bool
    ensures { result ≡ is_query_text name.now value.now }
{
    name == "query" && !value.is_empty()
}

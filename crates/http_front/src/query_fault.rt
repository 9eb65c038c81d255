//! Why queries for names are refused, in words.
ghost use Rattle.std.specs.Prelude.{◌≡◌, ◌++◌, IfOk, OnOk, decimal};
ghost use Rattle.http_front.specs.Browses.{fault_text, fault_word, query_end, query_word};
ghost use Rattle.http_front.specs.declared.outcome.Outcome.TheVariants.{Unanswerable};

use crate::outcome::Outcome;
use find_api::FindFault;
use itoa::Buffer;
use render_answer::Text;
use std::alloc::{AllocError, Global};

/// What comes of queries that are refused.
pub(crate) fn refused_queries(alloc: Global, why: &FindFault) -> Result<Outcome, AllocError>
    ensures { IfOk result (λ outcome. outcome ≡ Unanswerable (fault_text why.now)) }
{
    let mut text = Vec::new(alloc);
    push_fault(&mut text, why)?;
    Ok(Outcome::Unanswerable(Text::new(text)))
}

fn push_fault(out: &mut Vec<u8>, why: &FindFault) -> Result<(), AllocError>
    ensures { OnOk result (out.new.items ≡ out.old.items ++ fault_text why.now) }
{
    match why {
        FindFault::BadQuery(n) => push_unreadable(out, *n),
        FindFault::NoQuery | FindFault::TooManyQueries | FindFault::NoMemory => {
            out.extend_from_slice(fault_word(why))
        }
    }
}

// What is said of the query with a number.
#[tactic(auto, unfolding(crate::specs::Browses::query_end))]
fn push_unreadable(out: &mut Vec<u8>, n: u32) -> Result<(), AllocError>
    ensures { OnOk result
        (out.new.items ≡ out.old.items ++ (query_word ++ (decimal n ++ query_end))) }
{
    push_number(out, n)?;
    out.extend_from_slice(b": unreadable")
}

#[tactic(auto, unfolding(crate::specs::Browses::query_word))]
fn push_number(out: &mut Vec<u8>, n: u32) -> Result<(), AllocError>
    ensures { OnOk result (out.new.items ≡ out.old.items ++ (query_word ++ decimal n)) }
{
    out.extend_from_slice(b"query ")?;
    out.extend_from_slice(Buffer::new().format(n).as_bytes())
}

#[tactic(auto, unfolding(crate::specs::Browses::fault_word))]
fn fault_word(why: &FindFault) -> &'static [u8]
    ensures { result.now ≡ fault_word why.now }
{
    match why {
        FindFault::NoQuery => b"no query",
        FindFault::TooManyQueries => b"too many queries",
        FindFault::BadQuery(_) => b"",
        FindFault::NoMemory => b"no memory",
    }
}

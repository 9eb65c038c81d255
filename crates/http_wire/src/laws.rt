//! What the requests of a link and their replies are. The functions do nothing: what they ensure are the laws.
ghost use Rattle.std.specs.Prelude.{◌≡◌, ◌++◌, ◌∷◌, ℕ, List, [], Option, Result, Some, take};
ghost use Rattle.std.specs.Option.{ForSome};
ghost use Rattle.http_wire.specs.Answers.{KeepLink, body_in, head_to, response_of, responses_of};
ghost use Rattle.http_wire.specs.Cuts.{Awaits};
ghost use Rattle.http_wire.specs.Fields.{Field, body_length};
ghost use Rattle.http_wire.specs.Lengths.{LengthIs};
ghost use Rattle.http_wire.specs.Reading.{HandsNext, HandsOut, Reading, Takes, end_items, end_of, handed_items};
ghost use Rattle.http_wire.specs.Requests.{HasItems, Item};
ghost use Rattle.http_wire.specs.declared.answer.Answer.{Answer};
ghost use Rattle.http_wire.specs.declared.reader.Handed.{Handed};
ghost use Rattle.http_wire.specs.declared.refusal.Refusal.{Refusal};

/// The whole bytes of a link come to one list of items.
#[tactic(auto, using(crate::proofs::RequestLemmas::items_unique))]
pub fn requests_are_one()
    ensures { (bytes : List ℕ) (items others : List Item)
        → HasItems bytes items → HasItems bytes others → items ≡ others }
{}

/// Nothing is handed out at first. A piece that is fed, and a request or a refusal that is handed out, keep
/// that what was handed out comes first in what the link comes to, whatever follows.
#[tactic(auto, using(crate::proofs::RequestLemmas::hands))]
pub fn pieces_only_add()
    ensures start { HandsOut [] [] (Some []) }
    ensures feed { (handed : List Item) (taken piece : List ℕ) (count : ℕ)
        (left new : Option (List ℕ)) → HandsOut handed taken left → Takes left piece count new
        → HandsOut handed (taken ++ take count piece) new }
    ensures next { (handed : List Item) (taken : List ℕ) (result : Option Handed)
        (old new : Reading) → HandsOut handed taken old.left → HandsNext result old new
        → HandsOut (handed ++ handed_items result new.current) taken new.left }
{}

/// Where the link ends and nothing more waits, what was handed out, and the refusal that the end tells, are
/// all that its bytes come to.
#[tactic(auto, using(crate::proofs::RequestLemmas::hands_end))]
pub fn the_end_tells_the_rest()
    ensures { (handed : List Item) (taken : List ℕ) (left : Option (List ℕ))
        → HandsOut handed taken left → ForSome left Awaits
        → HasItems taken (handed ++ end_items (end_of left)) }
{}

/// The reply to the next item stands behind those to the items before it, while the link goes on.
#[tactic(auto, using(crate::proofs::AnswerLemmas::replies_more))]
pub fn replies_stand_in_order()
    ensures { (items : List Item) (answers : List Answer) (item : Item) (answer : Answer)
        → KeepLink items answers
        → responses_of (items ++ item ∷ []) (answers ++ answer ∷ [])
        ≡ responses_of items answers ++ response_of item answer }
{}

/// The reply to an item is its head with the body of the answer behind it.
#[tactic(auto, using(crate::proofs::AnswerLemmas::head_and_body))]
pub fn replies_are_heads_and_bodies()
    ensures { (item : Item) (answer : Answer)
        → response_of item answer ≡ head_to item answer ++ body_in answer }
{}

/// How long a body is, or why its request is refused, is what the fields of the head say of it.
#[tactic(auto, using(crate::proofs::LengthLemmas::lengths))]
pub fn lengths_are_what_fields_say()
    ensures is { (method : List ℕ) (fields : List Field)
        → LengthIs method fields (body_length method fields) }
    ensures one { (method : List ℕ) (fields : List Field) (result : Result ℕ Refusal)
        → LengthIs method fields result → body_length method fields ≡ result }
{}

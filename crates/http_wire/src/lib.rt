#![tactic(auto)]
//! HTTP/1.1 as bytes alone: the requests that the bytes of a link come to, in whatever pieces they come, where
//! each of them goes, and the bytes of replies.

mod answer;
mod cut;
mod fields;
mod head;
mod laws;
mod reader;
mod refusal;
mod reply;
mod routing;

pub use answer::{Answer, Item, push_answer, push_head};
pub use cut::MOST_HEAD_BYTES;
pub use fields::MOST_BODY_BYTES;
pub use head::MOST_FIELDS;
pub use laws::{
    lengths_are_what_fields_say, pieces_only_add, replies_are_heads_and_bodies,
    replies_stand_in_order, requests_are_one, the_end_tells_the_rest,
};
pub use reader::{Handed, Request, RequestReader};
pub use refusal::Refusal;
pub use reply::{MediaType, Reply, push_reply};
pub use routing::{Endpoint, query_of, route};
pub use std::alloc::AllocError as NoMemory;

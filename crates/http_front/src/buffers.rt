//! The memory that the service of a link takes before it reads.
ghost use Rattle.std.specs.Prelude.{◌≡◌, ◌<◌, IfOk, length};
ghost use Rattle.http_front.specs.Outcomes.{unavailable_reply};

use http_wire::{Refusal, Reply, push_reply};
use std::alloc::{AllocError, Global};

// How many bytes a read asks for.
const PIECE_BYTES: usize = 65_536;

/// Room for what is read, and what the link is told where memory runs out.
#[derive(Drop)]
pub(crate) struct Buffers {
    pub(crate) piece: Vec<u8>,
    pub(crate) unavailable: Vec<u8>,
    ghost some: { 0 < length piece.items },
    ghost reply: { unavailable.items ≡ unavailable_reply },
}

impl Buffers {
    pub(crate) fn new(alloc: Global) -> Result<Buffers, AllocError> {
        Ok(Buffers {
            piece: zeros(alloc, PIECE_BYTES)?,
            unavailable: unavailable_reply(alloc)?,
        })
    }
}

// So many bytes, all zero.
fn zeros(alloc: Global, count: usize) -> Result<Vec<u8>, AllocError>
    ensures { IfOk result (λ bytes. length bytes.items ≡ count) }
{
    vec![in alloc; 0; count]
}

// The reply where memory ran out, with which a link ends.
#[tactic(auto, unfolding(crate::specs::Outcomes::unavailable_reply))]
fn unavailable_reply(alloc: Global) -> Result<Vec<u8>, AllocError>
    ensures { IfOk result (λ bytes. bytes.items ≡ unavailable_reply) }
{
    let mut bytes = Vec::new(alloc);
    push_reply(
        alloc,
        &mut bytes,
        &Reply::Refused(Refusal::Unavailable),
        true,
    )?;
    Ok(bytes)
}

// What a link was sent.
use std::alloc::{AllocError, Global};
use std::sync::{Arc, Mutex, Wait};

/// The bytes that were written to a link, which outlive the link.
#[derive(Drop)]
pub struct Sent {
    bytes: Arc<Mutex<Vec<u8>>>,
}

impl Sent {
    /// No bytes yet.
    pub fn new(alloc: Global) -> Result<Sent, AllocError> {
        Ok(Sent {
            bytes: Arc::new(alloc, Mutex::new(Vec::new(alloc)))?,
        })
    }

    /// The same bytes once more.
    pub fn share(&self) -> Result<Sent, AllocError> {
        Ok(Sent {
            bytes: Arc::try_clone(&self.bytes)?,
        })
    }

    // More bytes, and how many there are then.
    pub(crate) fn add(&self, rt: &impl Wait, piece: &[u8]) -> Result<usize, AllocError> {
        let mut bytes = self.bytes.lock(rt);
        bytes.extend_from_slice(piece)?;
        Ok(bytes.len())
    }

    /// Whether they are these bytes.
    pub fn are(&self, rt: &impl Wait, wanted: &[u8]) -> bool {
        self.bytes.lock(rt).as_slice() == wanted
    }

    /// Whether these bytes stand at their front.
    pub fn begin_with(&self, rt: &impl Wait, front: &[u8]) -> bool {
        self.bytes.lock(rt).as_slice().starts_with(front)
    }
}

// A sign between threads.
use std::alloc::{AllocError, Global};
use std::sync::Arc;
use std::sync::atomic::{AtomicBool, Ordering};

/// A flag that threads share. Once it is up it stays up.
#[derive(Drop)]
pub struct Flag {
    up: Arc<AtomicBool>,
}

impl Flag {
    /// A flag that is down.
    pub fn new(alloc: Global) -> Result<Flag, AllocError> {
        Ok(Flag {
            up: Arc::new(alloc, AtomicBool::new(false))?,
        })
    }

    /// The same flag once more.
    pub fn share(&self) -> Result<Flag, AllocError> {
        Ok(Flag {
            up: Arc::try_clone(&self.up)?,
        })
    }

    /// Puts it up.
    pub fn raise(&self) {
        self.up.store(true, Ordering::SeqCst);
    }

    /// Whether it is up.
    pub fn is_up(&self) -> bool {
        self.up.load(Ordering::SeqCst)
    }
}

//! What an operator has to see of the nodes.
use std::sync::atomic::{AtomicU64, Ordering};

/// What went wrong at the nodes since the program began, counted.
#[derive(Drop)]
pub struct ErrorCounts {
    refused: AtomicU64,
    slow: AtomicU64,
}

/// What goes wrong.
#[derive(Clone, Copy, Drop)]
pub(crate) enum NodeError {
    /// A connection is not served, for want of descriptors or memory.
    Refused,
    /// A session was closed since its client was too slow.
    Slow,
}

impl ErrorCounts {
    /// Nothing went wrong yet.
    pub fn new() -> ErrorCounts {
        ErrorCounts {
            refused: AtomicU64::new(0),
            slow: AtomicU64::new(0),
        }
    }

    /// How often a connection was not served, for want of descriptors or memory.
    pub fn refused(&self) -> u64 {
        self.refused.load(Ordering::SeqCst)
    }

    /// How many sessions were closed since their clients were too slow.
    pub fn slow(&self) -> u64 {
        self.slow.load(Ordering::SeqCst)
    }

    /// One thing more goes wrong.
    pub(crate) fn add(&self, fault: NodeError) {
        let count = match fault {
            NodeError::Refused => &self.refused,
            NodeError::Slow => &self.slow,
        };
        count.fetch_add(1, Ordering::SeqCst);
    }
}

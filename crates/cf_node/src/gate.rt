//! When a node's workers go on, and what time it is.
use std::time::Clock;

/// The number of the worker that brings publications from the link to the hub.
pub const DISPATCHER: usize = 0;

/// The number of the worker that serves the sockets.
pub const IO_LOOP: usize = 1;

/// Says when a worker takes its next turn, and at which moment.
pub trait Gate {
    /// Whether a worker of a node may take the turn of this number, counted from 1. One that may
    /// not skips the turn; it can also be held inside.
    fn may(&self, node: u8, worker: usize, turn: u64) -> bool;

    /// The moment of a turn, in seconds. It is asked once a turn, after `may`.
    fn now<R: Clock>(&self, rt: &R) -> u64;
}

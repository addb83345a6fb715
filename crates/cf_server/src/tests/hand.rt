//! What the workers of two nodes wait for, and the moments that they are given.
use cf_node::{DISPATCHER, Gate};
use std::sync::atomic::{AtomicU64, Ordering};
use std::thread;
use std::time::Clock;

/// So many turns of a wait, and the test has failed.
const MOST_TURNS: u64 = 100_000_000;

/// Holds each of the four workers of two nodes at its first turn until all four are there. From then on it lets a dispatcher take
/// one turn of `pace`, so that links fill up before it. It gives out the moments, and can hold the dispatcher of node 0.
#[derive(Drop)]
pub(super) struct Hand {
    there: [AtomicU64; 4],
    failed: AtomicU64,
    pace: u64,
    moment: AtomicU64,
    holds: AtomicU64,
    is_held: AtomicU64,
    // The turn of the IO loop of node 0.
    turn: AtomicU64,
}

impl Hand {
    pub(super) fn new(pace: u64) -> Hand {
        Hand {
            there: [
                AtomicU64::new(0),
                AtomicU64::new(0),
                AtomicU64::new(0),
                AtomicU64::new(0),
            ],
            failed: AtomicU64::new(0),
            pace,
            moment: AtomicU64::new(0),
            holds: AtomicU64::new(0),
            is_held: AtomicU64::new(0),
            turn: AtomicU64::new(0),
        }
    }

    fn are_there(&self) -> bool {
        self.there.iter().all(|one| one.load(Ordering::SeqCst) == 1)
    }

    // A worker is there, and waits for the others.
    fn meet(&self, node: u8, worker: usize) {
        if let Some(mine) = self.there.get(usize::from(node % 2) * 2 + worker % 2) {
            mine.store(1, Ordering::SeqCst);
        }
        for _ in 0..MOST_TURNS {
            if self.are_there() {
                return;
            }
            thread::yield_now();
        }
        self.failed.store(1, Ordering::SeqCst);
    }

    /// Whether all four were there.
    pub(super) fn have_met(&self) -> bool {
        self.are_there() && self.failed.load(Ordering::SeqCst) == 0
    }

    // A dispatcher waits while it is held.
    fn wait(&self) {
        for _ in 0..MOST_TURNS {
            if self.holds.load(Ordering::SeqCst) == 0 {
                return;
            }
            self.is_held.store(1, Ordering::SeqCst);
            thread::yield_now();
        }
    }

    /// Whether the dispatcher of node 0 is held within so many turns of a wait.
    pub(super) fn hold(&self) -> bool {
        self.is_held.store(0, Ordering::SeqCst);
        self.holds.store(1, Ordering::SeqCst);
        for _ in 0..MOST_TURNS {
            if self.is_held.load(Ordering::SeqCst) == 1 {
                return true;
            }
            thread::yield_now();
        }
        false
    }

    /// Lets it go.
    pub(super) fn let_go(&self) {
        self.holds.store(0, Ordering::SeqCst);
    }

    /// It is this moment from now on.
    pub(super) fn set_moment(&self, moment: u64) {
        self.moment.store(moment, Ordering::SeqCst);
    }

    /// Whether the IO loop of node 0 begins two turns more within so many turns of a wait.
    pub(super) fn two_turns(&self) -> bool {
        let begun = self.turn.load(Ordering::SeqCst);
        for _ in 0..MOST_TURNS {
            if self.turn.load(Ordering::SeqCst).saturating_sub(begun) >= 2 {
                return true;
            }
            thread::yield_now();
        }
        false
    }
}

impl Gate for Hand {
    fn may(&self, node: u8, worker: usize, turn: u64) -> bool {
        if turn == 1 {
            self.meet(node, worker);
        }
        match (worker, node) {
            (DISPATCHER, 0) => self.wait(),
            (DISPATCHER, _) => {}
            (_, 0) => self.turn.store(turn, Ordering::SeqCst),
            _ => {}
        }
        worker != DISPATCHER || turn.is_multiple_of(self.pace)
    }

    fn now<R: Clock>(&self, _rt: &R) -> u64 {
        self.moment.load(Ordering::SeqCst)
    }
}

//! How much a node may publish while some node is behind: a share of its own, whatever others publish.
use crate::costs::LOOP_BUDGET;
use std::alloc::{AllocError, Global};
use std::mem;

/// A part of a window ends once its publications cost so much: what dispatchers bring on in some tens of milliseconds.
const PART: u64 = 8 * LOOP_BUDGET;

/// A part of the windows of all nodes together has so many publications at most, and that of each node a few.
const MOST: u64 = 64;

const FEW: u64 = 4;

/// What a node published last, in two parts. Once the newer part is full, the older one has to be brought to all nodes before the
/// node publishes more. A link is first in, first out, so a part is brought to a node once so many publications were.
#[derive(Drop)]
pub(crate) struct Window {
    // By node: how many publications were brought to it once the part is.
    older: Vec<u64>,
    newer: Vec<u64>,
    // What was published since the newer part ended costs so much, and is so many publications.
    cost: u64,
    count: u64,
}

impl Window {
    /// Nothing was published yet, and there are so many nodes. An error where memory is refused.
    pub(crate) fn new(alloc: Global, nodes: usize) -> Result<Window, AllocError> {
        let mut older = Vec::new(alloc);
        older.resize(nodes, 0)?;
        let mut newer = Vec::new(alloc);
        newer.resize(nodes, 0)?;
        Ok(Window {
            older,
            newer,
            cost: 0,
            count: 0,
        })
    }

    /// A publication was accepted that costs so much. Whether a part ends with it.
    pub(crate) fn adds(&mut self, cost: u64) -> bool {
        self.cost = self.cost.saturating_add(cost);
        self.count = self.count.saturating_add(1);
        let nodes = (self.newer.len() as u64).max(1);
        self.cost >= PART || self.count >= (MOST / nodes).max(FEW)
    }

    /// A part ends: the next one begins, and the newer one is the older.
    pub(crate) fn turn_over(&mut self) {
        mem::swap(&mut self.older, &mut self.newer);
        self.cost = 0;
        self.count = 0;
    }

    /// The part that just ended is brought to a node once so many publications were.
    pub(crate) fn ends_at(&mut self, node: usize, sent: u64) {
        if let Some(end) = self.newer.get_mut(node) {
            *end = sent;
        }
    }

    /// Whether the older part is brought to a node to which so many publications were.
    pub(crate) fn is_brought(&self, node: usize, brought: u64) -> bool {
        match self.older.get(node) {
            Some(end) => brought >= *end,
            None => true,
        }
    }
}

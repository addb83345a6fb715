//! What a turn of a connection costs its node, counted in bytes that are to be sent.
use std::alloc::{AllocError, Global};
use std::sync::atomic::{AtomicU64, Ordering};

/// What the turns cost that one turn of the loop gives: as much as 20,000 bytes to 300 clients, some
/// ten milliseconds of sending.
pub(crate) const LOOP_BUDGET: u64 = 6_000_000;

/// A call of hub or broker costs as much as so many bytes.
pub(crate) const CALL: u64 = 1_024;

/// A text to the client itself costs as much as so many bytes beside its own.
pub(crate) const TEXT: u64 = 256;

// A push to one client costs as much as so many bytes beside its own.
const PUSH: u64 = 128;

// So many counts are kept for each node. Channels whose names fall on one share it.
const BUCKETS: usize = 4_096;

// So many counts lie on one line of a processor's cache. Those that different threads write lie on lines of their own, so that none
// fetches a line anew for what another one wrote there.
const LINE: usize = 8;

/// What a publication of so many bytes costs that goes to so many clients.
pub(crate) fn cost_of(bytes: usize, clients: u64) -> u64 {
    clients.saturating_mul(PUSH.saturating_add(bytes as u64))
}

/// Whether a text may ask for a publish: one that does has this word, or letters that are written as escapes (RFC 8259, section
/// 7).
pub(crate) fn may_publish(text: &str) -> bool {
    text.contains("publish") || text.contains("\\u")
}

/// To how many clients the publications of a channel go, at all nodes of a program: as many as the
/// last one met at each node. It is an estimate, by which publishers are told apart that cost much.
/// And how far each node is with what was published.
#[derive(Drop)]
pub struct Reach {
    // By node and bucket.
    counts: Vec<AtomicU64>,
    // Each on a line of its own: how many publications the broker has accepted, and, by node, how many were brought to its hub.
    written: Vec<AtomicU64>,
}

// Where it lies how many publications the broker has accepted.
const ACCEPTED: usize = LINE;

// Where it lies how many were brought to a node's hub.
fn brought_at(node: usize) -> usize {
    node.saturating_add(2).saturating_mul(LINE)
}

impl Reach {
    /// Nothing is known yet of channels at so many nodes. An error where memory is refused.
    pub fn new(alloc: Global, nodes: u8) -> Result<Reach, AllocError> {
        Ok(Reach {
            counts: zeros(alloc, BUCKETS.saturating_mul(usize::from(nodes)))?,
            written: zeros(alloc, brought_at(usize::from(nodes)))?,
        })
    }

    /// The broker has accepted a publication. How many it has accepted with that.
    pub(crate) fn count_accepted(&self) -> u64 {
        match self.written.get(ACCEPTED) {
            Some(count) => count.fetch_add(1, Ordering::SeqCst).wrapping_add(1),
            None => 0,
        }
    }

    /// How many publications were brought to a node's hub.
    pub(crate) fn brought(&self, node: usize) -> u64 {
        match self.written.get(brought_at(node)) {
            Some(count) => count.load(Ordering::SeqCst),
            None => 0,
        }
    }

    /// A publication in a channel whose name falls into this bucket was brought to a node's hub, and went to so many of its clients.
    pub(crate) fn keep_reach(&self, node: u8, bucket: usize, clients: u32) {
        if let Some(count) = self.written.get(brought_at(usize::from(node))) {
            count.fetch_add(1, Ordering::SeqCst);
        }
        let at = usize::from(node).saturating_mul(BUCKETS);
        if let Some(count) = self.counts.get(at.saturating_add(bucket)) {
            if count.load(Ordering::Relaxed) != clients as u64 {
                count.store(clients as u64, Ordering::Relaxed);
            }
        }
    }

    /// To how many clients the last publication in a channel went, at all nodes.
    pub(crate) fn clients(&self, channel: &str) -> u64 {
        let bucket = bucket_of(channel);
        let mut clients: u64 = 0;
        for node in self.counts.chunks(BUCKETS) {
            if let Some(count) = node.get(bucket) {
                clients = clients.saturating_add(count.load(Ordering::Relaxed));
            }
        }
        clients
    }
}

// So many counts that stand at 0.
fn zeros(alloc: Global, count: usize) -> Result<Vec<AtomicU64>, AllocError> {
    let mut counts = Vec::new(alloc);
    for _ in 0..count {
        counts.push(AtomicU64::new(0))?;
    }
    Ok(counts)
}

/// The bucket into which a channel's name falls (FNV-1a).
pub(crate) fn bucket_of(channel: &str) -> usize {
    let mut hash: u64 = 0xcbf2_9ce4_8422_2325;
    for byte in channel.as_bytes() {
        hash = (hash ^ u64::from(*byte)).wrapping_mul(0x100_0000_01b3);
    }
    (hash >> 32) as usize % BUCKETS
}

//! The type of a node's sessions and rows.
ghost use Rattle.std.specs.Prelude.{◌≡◌, ◌==◌, ◌≤◌, not};
ghost use Rattle.cf_subscribers.specs.Follows.{AreFollows};
ghost use Rattle.cf_model.specs.Streams.{largest};
ghost use Rattle.cf_hub.specs.Hub.{IsBounded, attached_at, counted, empty, met_refusal, one_if};
ghost use Rattle.cf_hub.specs.Rows.{Agrees};

use crate::pending::Pending;
use crate::session_table::Sessions;
use cf_subscribers::Subscribers;
use std::alloc::Global;
use std::marker::Model;

/// How many sessions a node has at most.
pub const MOST_SESSIONS: u32 = 16_384;

/// How many channels a session follows at most.
pub const MOST_CHANNELS: usize = 128;

/// The sessions of one node, by number, and which channels each follows.
pub struct Hub {
    pub(crate) node: u8,
    pub(crate) boot: u64,
    pub(crate) used: u64,
    pub(crate) sessions: Sessions,
    /// Each number below this one has a session.
    pub(crate) free_from: u32,
    pub(crate) rows: Subscribers,
    pub(crate) refused: u64,
    pub(crate) pending: Pending,
    pub(crate) alloc: Global,
}

// By field, so that what owns a hub isn't proved to drop each part of its parts once more.
impl Drop for Hub {
    fn drop(self) {
        let Hub {
            node: _,
            boot: _,
            used: _,
            sessions: _,
            free_from: _,
            rows: _,
            refused: _,
            pending: _,
            alloc: _,
        } = self;
    }
}

impl Model for Hub {
    ghost use Rattle.cf_hub.specs.Hub.{Node};

    ghost Value = { Node };

    ghost use Rattle.cf_hub.specs.Hub.{AreNumbered, attached_in};
    ghost use Rattle.cf_hub.specs.Places.{numbered};
    ghost use Rattle.cf_hub.specs.Rows.{Agrees};
    ghost use Rattle.cf_hub.specs.Session.{shown_all};

    ghost view = { λ h. record {
      node = h.node;
      boot = h.boot;
      used = h.used;
      sessions = shown_all (numbered 0 h.sessions);
      rows = h.rows;
      refused = h.refused;
      turns = h.pending;
    } };

    ghost invariant = { λ h. Agrees (attached_in h.sessions) h.rows
        × AreNumbered h.free_from (attached_in h.sessions) };
}

impl Hub {
    /// A node's sessions, none at first, under a boot number that the node never had before. It takes no memory.
    pub fn new(alloc: Global, node: u8, boot: u64) -> Hub
        ensures { result ≡ empty node boot }
    {
        Hub {
            node,
            boot,
            used: 0,
            sessions: Sessions::new(alloc),
            free_from: 0,
            rows: Subscribers::new(alloc),
            refused: 0,
            pending: Pending::new(alloc),
            alloc,
        }
    }

    /// The node's boot number. It takes no memory.
    pub fn boot(&self) -> u64
        ensures { result ≡ self.now.boot }
    {
        self.boot
    }

    /// What always holds of a node: a row stands exactly if a session's channel isn't off, each once, the sessions have
    /// numbers below the most, and the count of refused requests fits 64 bits.
    pub fn invariant(&self)
        ensures agrees { Agrees (attached_at self.now) self.now.rows }
        ensures bounded { IsBounded (attached_at self.now) }
        ensures rows { AreFollows self.now.rows }
        ensures small { self.now.refused ≤ largest }
    {
        let _sessions = &self.sessions;
        let _first = self.rows.first("");
        let _refused = self.refused;
    }

    /// Whether one of its calls met a refused request for memory.
    pub fn short(&self) -> bool
        ensures { result ≡ not (self.now.refused == 0) }
    {
        self.refused != 0
    }

    // Memory was refused, if so.
    pub(crate) fn count_refused(&mut self, refused: bool)
        ensures { self.new ≡ met_refusal refused self.old }
    {
        self.refused = count_more(self.refused, refused);
    }
}

/// A count of refused requests and one more, if so.
pub(crate) fn count_more(refused: u64, more: bool) -> u64
    ensures { result ≡ counted (one_if more) refused }
{
    if more {
        refused.saturating_add(1)
    } else {
        refused
    }
}

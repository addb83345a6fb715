//! Publications that come while a subscription is being asked for.
ghost use Rattle.std.specs.Prelude.{◌≡◌, ◌≤◌, ◌||◌, [], ◌∷◌, List, true, false, length, OnOk, OnErr};
ghost use Rattle.cf_protocol.specs.Position.{Position};
ghost use Rattle.cf_model.specs.Recovery.{arrives, has, overfull};
ghost use Rattle.cf_recovery.specs.ArrivalBuffer.{arrival, places, nothing_kept, given_up, with_arrival, TakesRoom, IsWithin, StandsFor, IsRun, ended_at};
ghost use Rattle.cf_model.specs.Recovery.{falls_short, run_length};

use crate::stored::{are_within, find, gather};
use cf_protocol::{Epoch, Position, Publication};
use std::alloc::{AllocError, Global};
use std::marker::Model;

/// The most publications that are kept.
pub const MOST_KEPT: usize = 1000;

/// The publications that came to a node for a channel since a subscription was asked for: each place once, as it came first, and
/// at most 1,000. If one more comes, or memory is refused, all are given up, and nothing is kept from then on.
///
/// Centrifugo, history and recovery: publications are buffered between subscribing and the reply. The limit is this project's
/// own.
#[derive(Drop)]
pub struct Waiting {
    epochs: Vec<Epoch>,
    publications: Vec<Publication>,
    // the highest offset that is kept, or 0
    highest: u64,
    overflow: bool,
    short: bool,
}

impl Model for Waiting {
    ghost use Rattle.cf_recovery.specs.ArrivalBuffer.{ArrivalBuffer};
    ghost use Rattle.cf_recovery.specs.Stored.{kept_of, IsStored};

    ghost Value = { ArrivalBuffer };

    ghost view = { λ w. kept_of w.epochs.items w.publications.items w.overflow w.short };

    ghost invariant = { λ w. IsStored w.epochs.items w.publications.items w.highest w.overflow
        w.short };
}

/// What follows a reply to a subscribe.
#[derive(Drop)]
pub struct Released {
    /// The publications at the offsets that follow the reply's without a gap, in order.
    pub run: Vec<Publication>,
    /// Whether something came that the run does not reach, or of another epoch, or more than is kept: the subscription then ends,
    /// and its client asks again. (Centrifugo's client protocol: insufficient state, code 2500.)
    pub insufficient: bool,
}

impl Waiting {
    /// Nothing yet. It takes no memory.
    pub fn new(alloc: Global) -> Waiting
        ensures empty { result ≡ nothing_kept }
        ensures stands { StandsFor result [] }
    {
        Waiting {
            epochs: Vec::new(alloc),
            publications: Vec::new(alloc),
            highest: 0,
            overflow: false,
            short: false,
        }
    }

    /// Whether one of its calls met a refused request for memory. It takes no memory.
    pub fn short(&self) -> bool
        ensures short { result ≡ self.now.short }
        ensures within { IsWithin self.now }
    {
        self.short // once set it stays so
    }

    /// Keeps a copy of a publication of this epoch, unless one of its place is kept already.
    ///
    /// At the 1,001st place, and if memory is refused, all that is kept is given up, and so is whatever comes later. `short`
    /// tells the second from the first.
    pub fn keep(&mut self, epoch: &Epoch, publication: &Publication)
        ensures kept { self.new.short ≡ self.old.short
            → self.new ≡ with_arrival (arrival epoch.now publication.now) self.old }
        ensures refused { self.old.short ≡ false → self.new.short ≡ true
            → TakesRoom (arrival epoch.now publication.now) self.old × (self.new ≡ given_up true) }
        ensures sticky { self.old.short ≡ true → self.new ≡ self.old }
        ensures stands { (arrived : List Position) → StandsFor self.old arrived
            → StandsFor self.new
            (arrives (record { epoch = epoch.now; offset = publication.now.offset }) arrived) }
        ensures within { IsWithin self.new }
    {
        if self.overflow || self.has(epoch, publication.offset) {
            return;
        }
        if self.is_full() {
            self.give_up(self.short);
            return;
        }
        if self.store(epoch, publication).is_err() {
            self.give_up(true);
        }
    }

    /// What is passed on after a reply that ends at a position: what is kept of its epoch from the next offset on, up to the
    /// first that is missing. The publications are moved out. It takes no memory.
    ///
    /// Centrifugo, history and recovery: the buffered publications are merged with the reply's, and a gap is insufficient state.
    pub fn release(self, at: &Position) -> Released
        ensures run { IsRun self at.now result.run.items }
        ensures buffered { length result.run.items ≤ length self.arrived }
        ensures given_up { self.overflow ≡ true → result.run.items ≡ [] }
        ensures within { IsWithin self }
        ensures insufficient { result.insufficient
            ≡ (self.overflow || falls_short (places self.arrived) (ended_at at.now)) }
        ensures stands { (arrived : List Position) → StandsFor self arrived → self.short ≡ false
            → (length result.run.items ≡ run_length arrived (ended_at at.now))
            × (result.insufficient ≡ falls_short arrived (ended_at at.now)) }
    {
        let Waiting {
            mut epochs,
            mut publications,
            overflow,
            ..
        } = self;
        let count = gather(&mut epochs, &mut publications, at);
        let insufficient = overflow || !are_within(&epochs, &publications, at, count as u64);
        publications.truncate(count);
        Released {
            run: publications,
            insufficient,
        }
    }

    /// Whether a publication of this place is kept.
    fn has(&self, epoch: &Epoch, offset: u64) -> bool
        ensures { result ≡ has (places self.now.arrived) epoch.now offset }
    {
        if self.highest < offset {
            return false; // so it is when publications come in order
        }
        let at = Position {
            epoch: *epoch,
            offset,
        };
        find(&self.epochs, &self.publications, 0, &at, 0).is_some()
    }

    /// Whether one more would be too many.
    fn is_full(&self) -> bool
        ensures { (q : Position) → result ≡ overfull (q ∷ places self.now.arrived) }
    {
        self.publications.len() >= MOST_KEPT
    }

    /// Keeps a copy. If memory is refused nothing changes.
    fn store(&mut self, epoch: &Epoch, publication: &Publication) -> Result<(), AllocError>
        requires { TakesRoom (arrival epoch.now publication.now) self.old }
        ensures ok { OnOk result
            (self.new
            ≡ record self.old
            { arrived = arrival epoch.now publication.now ∷ self.old.arrived }) }
        ensures err { OnErr result (self.new ≡ self.old) }
    {
        let copy = publication.copied()?;
        self.epochs.reserve(1)?;
        self.publications.push(copy)?;
        self.epochs.push(*epoch)?;
        self.highest = self.highest.max(publication.offset);
        Ok(())
    }

    /// Gives up all that is kept, and its memory.
    fn give_up(&mut self, short: bool)
        ensures { self.new ≡ given_up short }
    {
        let alloc = *self.epochs.allocator();
        self.epochs = Vec::new(alloc);
        self.publications = Vec::new(alloc);
        self.highest = 0;
        self.overflow = true;
        self.short = short;
    }
}

//! The two ends of a link.
ghost use Rattle.std.specs.Prelude.{◌≡◌, ◌+◌, ◌<◌, ◌≤◌, length, ◌++◌, ◌∷◌, [], IfOk, IfErr, OnOk, OnErr, MatchOption, IfNone};
ghost use Rattle.cf_link.specs.Link.{IsSameLink, WasFull, WasEmpty, AreLeft};

use crate::bell::Bell;
use crate::log::{Ends, InOrder, Log, Receives, Sends, Total};
use crossbeam_queue::{Pass, RuledArrayQueue};
use std::alloc::{AllocError, Global};
use std::marker::Model;
use std::sync::{Arc, Wait};
use std::time::{Clock, Duration};

pub(crate) type Line<T> = RuledArrayQueue<T, Log<T>, InOrder>;

/// The end that sends. Contracts see the link, its capacity, all that was sent, and what it was told to have been received.
#[derive(Drop)]
pub struct Sender<T> {
    pub(crate) line: Arc<Line<T>>,
    pub(crate) bell: Arc<Bell>,
    pub(crate) pass: Pass<T, Log<T>>,
}

impl<T> Model for Sender<T> {
    ghost use Rattle.std.specs.Prelude.{◌≡◌, true};
    ghost use Rattle.std.specs.Arc.{arc_value};
    ghost use Rattle.crossbeam_queue.specs.Passes.{view as known, IsPassOf, ruled_capacity};
    ghost use Rattle.cf_link.specs.Link.{End};

    ghost Value = { End T };

    ghost view = { λ s. record {
      link = (arc_value s.line).table.shared.table_id;
      capacity = ruled_capacity (arc_value s.line);
      items = (known s.pass).sent;
      told = (known s.pass).received;
    } };

    ghost invariant = { λ s. IsPassOf (arc_value s.line) s.pass × ((known s.pass).pushes ≡ true) };
}

/// The end that receives. Contracts see the link, its capacity, all that was received, and what it was told to have been sent.
#[derive(Drop)]
pub struct Receiver<T> {
    pub(crate) line: Arc<Line<T>>,
    pub(crate) bell: Arc<Bell>,
    pub(crate) pass: Pass<T, Log<T>>,
}

impl<T> Model for Receiver<T> {
    ghost use Rattle.std.specs.Prelude.{◌≡◌, true};
    ghost use Rattle.std.specs.Arc.{arc_value};
    ghost use Rattle.crossbeam_queue.specs.Passes.{view as known, IsPassOf, ruled_capacity};
    ghost use Rattle.cf_link.specs.Link.{End};

    ghost Value = { End T };

    ghost view = { λ s. record {
      link = (arc_value s.line).table.shared.table_id;
      capacity = ruled_capacity (arc_value s.line);
      items = (known s.pass).received;
      told = (known s.pass).sent;
    } };

    ghost invariant = { λ s. IsPassOf (arc_value s.line) s.pass × ((known s.pass).pops ≡ true) };
}

/// A new link with room for so many items, by its two ends. Capacity 0 is no link; an `AllocError` if memory was refused.
pub fn pair<T: Drop>(alloc: Global, capacity: usize) -> Result<(Sender<T>, Receiver<T>), AllocError>
    requires { 0 < capacity }
    ensures link { IfOk result (λ ends. IsSameLink ends.0 ends.1) }
    ensures capacity { IfOk result (λ ends. ends.0.capacity ≡ capacity) }
    ensures nothing { IfOk result (λ ends. (ends.0.items ≡ []) × (ends.1.items ≡ [])) }
    ensures told { IfOk result (λ ends. (ends.0.told ≡ []) × (ends.1.told ≡ [])) }
{
    let (line, mut first) = Line::ruled(alloc, capacity)?;
    let second = line.another::<Ends>(&mut first);
    let line = Arc::new(alloc, line)?;
    let other = Arc::try_clone(&line)?;
    let bell = Arc::new(alloc, Bell::new())?;
    let heard = Arc::try_clone(&bell)?;
    let sender = Sender {
        line,
        bell,
        pass: first,
    };
    let receiver = Receiver {
        line: other,
        bell: heard,
        pass: second,
    };
    Ok((sender, receiver))
}

impl<T> Sender<T> {
    /// Sends an item, and wakes nobody: `ring` does, once for all that was sent. The item comes back if the link was full at one
    /// moment of the call: as many as it has room for were sent behind those that this end was told to have been received. It
    /// takes no memory.
    pub fn send(&mut self, rt: &impl Wait, item: T) -> Result<(), T>
        ensures same { IsSameLink self.new self.old }
        ensures sent { OnOk result (self.new.items ≡ self.old.items ++ item ∷ []) }
        ensures told { self.new.told ≡ self.old.told }
        ensures refused { IfErr result (λ x. (x ≡ item) × (self.new.items ≡ self.old.items)) }
        ensures full { OnErr result (WasFull self.old) }
    {
        self.line.push_as::<Sends, _>(rt, &mut self.pass, item)
    }

    /// Wakes a receiver that sleeps. It takes no memory.
    pub fn ring(&self) {
        self.bell.ring();
    }

    /// How many items wait in the link, at one moment of the call. It takes no memory.
    pub fn waiting(&mut self, rt: &impl Wait) -> usize
        ensures same { self.new ≡ self.old }
        ensures within { result ≤ self.old.capacity }
        ensures sent { length self.old.told + result ≤ length self.old.items }
    {
        self.line.len_as::<Sends, _>(rt, &mut self.pass)
    }

    /// For how many items the link has room.
    pub fn capacity(&self) -> usize
        ensures { result ≡ self.now.capacity }
    {
        self.line.capacity()
    }
}

impl<T> Receiver<T> {
    /// The oldest item that waits. `None` if the link was empty at one moment of the call, and never before all was received
    /// that this end was told to have been sent. It takes no memory.
    pub fn receive(&mut self, rt: &impl Wait) -> Option<T>
        ensures same { IsSameLink self.new self.old }
        ensures received { MatchOption result (self.new.items ≡ self.old.items)
            (λ x. self.new.items ≡ self.old.items ++ x ∷ []) }
        ensures told { self.new.told ≡ self.old.told }
        ensures empty { IfNone result (WasEmpty self.old) }
    {
        self.line.pop_as::<Receives, _>(rt, &mut self.pass)
    }

    /// How many items wait in the link, at one moment of the call. It takes no memory.
    pub fn waiting(&mut self, rt: &impl Wait) -> usize
        ensures same { self.new ≡ self.old }
        ensures within { result ≤ self.old.capacity }
    {
        self.line.len_as::<Receives, _>(rt, &mut self.pass)
    }

    /// The oldest item that waits. If none does it sleeps until the other end rings, or for so long at most, and looks again;
    /// it may wake sooner. `None` as for `receive`. It takes no memory.
    pub fn receive_within<R: Wait + Clock>(&mut self, rt: &R, most: Duration) -> Option<T>
        ensures same { IsSameLink self.new self.old }
        ensures received { MatchOption result (self.new.items ≡ self.old.items)
            (λ x. self.new.items ≡ self.old.items ++ x ∷ []) }
        ensures told { self.new.told ≡ self.old.told }
        ensures empty { IfNone result (WasEmpty self.old) }
    {
        if let Some(item) = self.receive(rt) {
            return Some(item);
        }
        self.bell.tire();
        if let Some(item) = self.receive(rt) {
            self.bell.rouse();
            return Some(item);
        }
        self.bell.sleep(rt, most);
        self.receive(rt)
    }
}

/// Ends a link: how many items were sent and not received. They are dropped.
pub fn settle<T: Drop>(rt: &impl Wait, sender: Sender<T>, receiver: Receiver<T>) -> u64
    requires { sender.link ≡ receiver.link }
    ensures { AreLeft sender.items receiver.items result }
{
    let Sender {
        line,
        bell: _,
        mut pass,
    } = sender;
    let Receiver {
        line: _,
        bell: _,
        pass: other,
    } = receiver;
    line.absorb::<Ends>(&mut pass, other);
    line.len_as::<Total, _>(rt, &mut pass) as u64
}

//! Those who wait for a turn.
ghost use Rattle.std.specs.Prelude.{◌≡◌, ◌==◌, [], ◌∷◌, false, length};
ghost use Rattle.std.specs.Prelude.{MatchOption, IfSome, OnErr, OnOk};
ghost use Rattle.std.specs.Prelude.{◌≤◌, ◌<◌, ◌^◌, ℕ, slice_get, vec_len};
ghost use Rattle.cf_fair.specs.Lane.{IsFirst, is_there, key_at as key_in, with_ticket, without};

use std::alloc::{AllocError, Global};
use std::collections::BTreeSet;
use std::marker::Model;

/// When a slot is due, the number under which it came, and the slot.
pub type Ticket = (u64, u64, usize);

/// Those who wait, in the order in which they will have their turn.
#[derive(Drop)]
pub struct Lane {
    tickets: BTreeSet<Ticket>,
    // By slot: when it is due, and under which number it waits.
    keys: Vec<Option<(u64, u64)>>,
}

impl Model for Lane {
    ghost use Rattle.std.specs.Prelude.{List, ℕ};
    ghost use Rattle.cf_fair.specs.Lane.{AreKept, Ticket};

    ghost Value = { List (ℕ × ℕ × ℕ) };

    ghost view = { λ a. a.tickets.keys };

    ghost invariant = { λ a. AreKept a.tickets.keys a.keys.items };
}

impl Lane {
    /// Nobody waits.
    pub fn new(alloc: Global) -> Lane
        ensures { result ≡ [] }
    {
        Lane {
            tickets: BTreeSet::new(alloc),
            keys: Vec::new(alloc),
        }
    }

    /// One more waits, whose slot doesn't yet.
    ///
    /// # Errors
    ///
    /// If memory is refused nothing changes.
    pub fn add(&mut self, ticket: Ticket) -> Result<(), AllocError>
        requires { is_there ticket.2 self.old ≡ false }
        ensures ok { OnOk result (self.new ≡ with_ticket ticket self.old) }
        ensures err { OnErr result (self.new ≡ self.old) }
    {
        let count = ticket.2.checked_add(1).ok_or(AllocError)?;
        make_room(&mut self.keys, count)?;
        if self.tickets.insert(ticket).is_err() {
            return Err(AllocError);
        }
        self.keys[ticket.2] = Some((ticket.0, ticket.1));
        Ok(())
    }

    /// Who has the next turn, if one waits.
    pub fn first(&self) -> Option<Ticket>
        ensures variant { MatchOption result (self.now ≡ [])
            (λ t. slice_get self.now 0 ≡ Some t) }
        ensures first { IfSome result (λ t. IsFirst t self.now) }
    {
        match self.tickets.first() {
            Some(ticket) => Some(*ticket),
            None => None,
        }
    }

    /// Who has the next turn waits no more.
    pub fn pop(&mut self) -> Option<Ticket>
        ensures variant { MatchOption result ((self.old ≡ []) × (self.new ≡ []))
            (λ t. self.old ≡ t ∷ self.new) }
        ensures first { IfSome result (λ t. IsFirst t self.new) }
    {
        let ticket = self.tickets.pop_first()?;
        self.keys[ticket.2] = None;
        Some(ticket)
    }

    /// A slot waits no more.
    pub fn remove(&mut self, slot: usize)
        ensures { self.new ≡ without slot self.old }
    {
        if let Some((due, number)) = key_at(&self.keys, slot) {
            self.tickets.remove(&(due, number, slot));
            self.keys[slot] = None;
        }
    }

    /// Whether a slot waits.
    pub fn waits(&self, slot: usize) -> bool
        ensures { result ≡ is_there slot self.now }
    {
        key_at(&self.keys, slot).is_some()
    }

    /// How many wait.
    pub fn len(&self) -> usize
        ensures len { result ≡ length self.now }
        ensures small { result < 2 ^ 63 }
    {
        self.tickets.len()
    }
}

// When a slot is due and its number, if it waits.
fn key_at(keys: &[Option<(u64, u64)>], slot: usize) -> Option<(u64, u64)>
    ensures { result ≡ key_in keys.now slot }
{
    match keys.get(slot) {
        Some(key) => *key,
        None => None,
    }
}

// Makes room for so many slots.
fn make_room(keys: &mut Vec<Option<(u64, u64)>>, count: usize) -> Result<(), AllocError>
    ensures same { (k : ℕ) → key_in keys.new.items k ≡ key_in keys.old.items k }
    ensures ok { OnOk result (count ≤ vec_len keys.new) }
{
    if keys.len() < count {
        keys.resize(count, None)?;
    }
    Ok(())
}

//! The sessions that have got something to send, by number.
ghost use Rattle.std.specs.Prelude.{◌≡◌};
ghost use Rattle.cf_hub.specs.Turns.{gets_turn, no_turns};

use std::alloc::{AllocError, Global};
use std::collections::VecDeque;
use std::marker::Model;

/// Numbers of sessions that have got something to send since they were last named, each once, in order.
#[derive(Drop)]
pub(crate) struct Pending {
    numbers: VecDeque<u32>,
    /// By number: whether it is among these.
    is_pending: Vec<bool>,
}

impl Model for Pending {
    ghost use Rattle.std.specs.Prelude.{length};
    ghost use Rattle.std.specs.VecDeque.{deque_capacity};
    ghost use Rattle.cf_hub.specs.Turns.{Turns};
    ghost use Rattle.cf_hub.specs.Flags.{AreFlagged};

    ghost Value = { Turns };

    ghost view = { λ l. record { numbers = l.numbers.items; known = length l.is_pending.items } };

    ghost invariant = { λ l. AreFlagged l.numbers.items l.is_pending.items
        (deque_capacity l.numbers) };
}

impl Pending {
    ghost use Rattle.std.specs.Prelude.{◌≡◌, ◌<◌, ◌∷◌, [], MatchOption, OnOk};
    ghost use Rattle.cf_hub.specs.Turns.{SameTurns, gets_turn, no_turns};

    /// None, and no room. It takes no memory.
    pub(crate) fn new(alloc: Global) -> Pending
        ensures { result ≡ no_turns }
    {
        Pending {
            numbers: VecDeque::new(alloc),
            is_pending: Vec::new(alloc),
        }
    }

    /// Makes room for a number.
    pub(crate) fn make_room(&mut self, number: u32) -> Result<(), AllocError>
        ensures ok { OnOk result (number < self.new.known) }
        ensures same { SameTurns self.old self.new }
    {
        let count = number as usize + 1;
        if count > self.is_pending.len() {
            self.numbers
                .reserve(count.saturating_sub(self.numbers.len()))?;
            self.is_pending.resize(count, false)?;
        }
        Ok(())
    }

    /// Adds a number that has room, unless it is there. It takes no memory.
    pub(crate) fn add(&mut self, number: u32)
        ensures { self.new ≡ gets_turn number self.old }
    {
        let place = number as usize;
        if place < self.is_pending.len() && !self.is_pending[place] {
            self.numbers.push_back_reserved(number);
            self.is_pending[place] = true;
        }
    }

    /// Takes the first number. It takes no memory.
    pub(crate) fn take(&mut self) -> Option<u32>
        ensures known { self.new.known ≡ self.old.known }
        ensures first { MatchOption result ((self.old.numbers ≡ []) × (self.new.numbers ≡ []))
            (λ k. self.old.numbers ≡ k ∷ self.new.numbers) }
    {
        let first = self.numbers.pop_front();
        if let Some(number) = first {
            self.is_pending[number as usize] = false;
        }
        first
    }
}

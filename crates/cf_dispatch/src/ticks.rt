//! When the work of a new second is done: behind what the sockets hold.
use std::marker::Model;

/// The most turns in a row by which a new second waits for sockets that may be ready and weren't told of yet.
pub const MOST_LATE: u32 = 40;

/// The last second whose work was done, and by how many turns the next one is late.
#[derive(Drop)]
pub struct Ticks {
    done: u64,
    late: u32,
}

impl Model for Ticks {
    ghost use Rattle.cf_dispatch.specs.Ticks.{Clock};

    ghost Value = { Clock };

    ghost view = { λ s. record { done = s.done; late = s.late } };
}

impl Ticks {
    ghost use Rattle.std.specs.Prelude.{◌≡◌, ◌<◌, ◌↔◌, IsTrue, not};
    ghost use Rattle.cf_dispatch.specs.Ticks.{tick_after, is_due, new_clock};

    /// At second 0, whose work is done.
    pub fn new() -> Ticks
        ensures { result ≡ new_clock }
    {
        Ticks { done: 0, late: 0 }
    }

    /// The last second whose work was done.
    pub fn done(&self) -> u64
        ensures { result ≡ self.now.done }
    {
        self.done
    }

    /// Whether a new second has begun whose work waits for sockets.
    pub fn is_late(&self) -> bool
        ensures { IsTrue result ↔ (0 < self.now.late) }
    {
        self.late > 0
    }

    /// A turn ends at this moment, in seconds, in which the sockets that it was told of were heard. Whether the work of a new
    /// second is to be done now: where there is one, and no more sockets may be ready, or it has waited for these for 40 turns.
    pub fn turn_ends(&mut self, now: u64, may_be_more: bool) -> bool
        ensures due { result ≡ is_due self.old now may_be_more }
        ensures after { self.new ≡ tick_after self.old now may_be_more }
    {
        if now == self.done {
            return false;
        }
        if may_be_more && self.late < MOST_LATE {
            self.late += 1;
            return false;
        }
        self.done = now;
        self.late = 0;
        true
    }
}

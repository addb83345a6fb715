//! Whether a client has answered its pings in time: what lies unread in its socket isn't late.
use std::marker::Model;

/// So many seconds lie between two pings of a session, as its hub has it.
pub const SECONDS_TO_PING: u64 = 25;

/// So many seconds after a ping its answer is late, as the hub has it, where what its client sends can
/// be heard.
pub const SECONDS_TO_PONG: u64 = 8;

/// When a session was pinged last, and whether its client owes an answer.
#[derive(Drop)]
pub struct PongWatch {
    pinged: u64,
    // Since when the answer that is owed can be heard.
    owed: Option<u64>,
}

impl Model for PongWatch {
    ghost use Rattle.cf_dispatch.specs.Pongs.{Watched};

    ghost Value = { Watched };

    ghost view = { λ w. record { pinged = w.pinged; owed = w.owed } };
}

impl PongWatch {
    ghost use Rattle.std.specs.Prelude.{◌≡◌, None};
    ghost use Rattle.std.specs.Option.{is_some};
    ghost use Rattle.cf_dispatch.specs.Pongs.{pongs_after, is_late};

    /// A session that was attached at this moment, in seconds.
    pub fn new(now: u64) -> PongWatch
        ensures { result ≡ record { pinged = now; owed = None } }
    {
        PongWatch {
            pinged: now,
            owed: None,
        }
    }

    /// The client answers.
    pub fn pong(&mut self)
        ensures { self.new ≡ record self.old { owed = None } }
    {
        self.owed = None;
    }

    /// Whether the client owes an answer.
    pub fn owes(&self) -> bool
        ensures { result ≡ is_some self.now.owed }
    {
        self.owed.is_some()
    }

    /// A new second comes, in which the client is pinged where that is due, and something that it has
    /// sent may be unread. Whether its answer to an earlier ping is late: 8 seconds have passed since
    /// the ping, and since the last second in which something may have been unread.
    pub fn second_comes(&mut self, now: u64, is_unheard: bool) -> bool
        ensures late { result ≡ is_late now is_unheard self.old.owed }
        ensures after { self.new ≡ pongs_after now is_unheard self.old }
    {
        let is_due = now.saturating_sub(self.pinged) >= SECONDS_TO_PING;
        if is_due {
            self.pinged = now;
        }
        let Some(since) = self.owed else {
            if is_due {
                self.owed = Some(now);
            }
            return false;
        };
        if is_unheard {
            self.owed = Some(now);
            return false;
        }
        now.saturating_sub(since) >= SECONDS_TO_PONG
    }
}

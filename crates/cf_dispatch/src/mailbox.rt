//! What a dispatcher stands between: a link at which publications come, and the hub of its node.
ghost use Rattle.std.specs.Prelude.{◌≡◌};
ghost use Rattle.cf_dispatch.specs.Dispatch.{Delivers, stirs};

use cf_hub::Delivered;

/// Where publications come from, and where they go. What each call does it states itself.
pub trait Mailbox {
    /// What comes.
    type Letter;

    ghost use Rattle.std.specs.Prelude.{Option};
    ghost use Rattle.cf_hub.specs.declared.delivered.Delivered.{Delivered as Counts};

    /// This comes, or nothing does.
    ghost receives: { Self → Option Self.Letter → Self → Type 0 };

    /// This is brought to the hub, and so many sessions met it.
    ghost brings: { Self → Self.Letter → Counts → Self → Type 0 };

    /// The IO loop is woken.
    ghost wakes: { Self → Self → Type 0 };

    /// The oldest publication that waits. It may wait for one.
    fn receive(&mut self) -> Option<Self::Letter>
        ensures { receives self.old result self.new };

    /// Brings a publication to the hub, where it is used up.
    fn deliver_next(&mut self, letter: Self::Letter) -> Delivered
        ensures { brings self.old letter result self.new };

    /// Wakes the worker that sends what the hub has.
    fn wake(&mut self)
        ensures { wakes self.old self.new };
}

/// One delivery of a dispatcher: what comes is brought to the hub, and the IO loop is woken where a client got something by it.
pub fn pass_on<M: Mailbox>(mailbox: &mut M)
    ensures { Delivers M.receives M.brings M.wakes mailbox.old mailbox.new }
{
    if let Some(letter) = mailbox.receive() {
        let delivered = mailbox.deliver_next(letter);
        if stirs(&delivered) {
            mailbox.wake();
        }
    }
}

// Whether a client got something by a delivery.
fn stirs(delivered: &Delivered) -> bool
    ensures { result ≡ stirs delivered.now }
{
    delivered.passed > 0 || delivered.ended > 0 || delivered.closed > 0
}

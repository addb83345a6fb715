//! The worker that brings what the broker published to the node's hub.
ghost use Rattle.std.specs.Prelude.{◌≡◌};
ghost use Rattle.cf_dispatch.specs.Dispatch.{Dispatches};

use crate::costs::{Reach, bucket_of};
use crate::gate::{DISPATCHER, Gate};
use crate::shared::{HubToFill, Shared};
use cf_dispatch::{Mailbox, pass_on};
use cf_hub::Delivered;
use cf_link::Receiver;
use cf_shard::{Delivery, Naming, ShardWords};
use std::sync::Wait;
use std::sync::atomic::{AtomicU64, Ordering};
use std::time::{Clock, Duration};
use std::{mem, thread};

// How long it sleeps at most where nothing comes, in milliseconds: a program that ends waits for it
// as long.
const LONGEST_SLEEP: u64 = 500;

// Once publications, and sessions that they met, are so many, no further one is brought under the same lock.
const UNDER_ONE_LOCK: u32 = 256;

/// The dispatcher's end of the node's link, and the hub under its lock.
#[derive(Drop)]
pub(crate) struct NodeMailbox<'a, R, G, N: Naming, W> {
    rt: &'a R,
    gate: &'a G,
    receiver: Receiver<Delivery<N>>,
    words: &'a W,
    shared: &'a Shared<N>,
    // The hub, while more waits to be brought to it.
    hub: Option<HubToFill<'a, N>>,
    // Somebody got something under it, for whom the IO loop wasn't woken yet.
    owes_wake: bool,
    // How many publications were brought under this lock, and sessions met them.
    met: u32,
    node: u8,
    // Where it is kept how many clients a channel's publications go to.
    reach: Option<&'a Reach>,
}

impl<'a, R: Wait, G, N: Naming, W> NodeMailbox<'a, R, G, N, W> {
    /// The mailbox of a node, at its end of the node's link, and who has the words of the broker's shards.
    pub(crate) fn new(
        rt: &'a R,
        gate: &'a G,
        receiver: Receiver<Delivery<N>>,
        words: &'a W,
        shared: &'a Shared<N>,
    ) -> NodeMailbox<'a, R, G, N, W> {
        NodeMailbox {
            rt,
            gate,
            receiver,
            words,
            shared,
            hub: None,
            owes_wake: false,
            met: 0,
            node: 0,
            reach: None,
        }
    }

    /// The same of the node of this number, which keeps there how many clients publications reach.
    pub(crate) fn noting(
        mut self,
        node: u8,
        reach: Option<&'a Reach>,
    ) -> NodeMailbox<'a, R, G, N, W> {
        self.node = node;
        self.reach = reach;
        self
    }

    // Whether the next publication is brought under the same lock.
    fn goes_on(&mut self, delivered: &Delivered) -> bool
        ensures { self.new.receiver ≡ self.old.receiver }
    {
        let met = delivered.passed.saturating_add(delivered.kept);
        self.met = self.met.saturating_add(met).saturating_add(1);
        self.met < UNDER_ONE_LOCK && !self.shared.owes_way() && self.receiver.waiting(self.rt) > 0
    }

    // The hub is let go: the loop is woken for those who got something before this.
    fn wakes_owed(&mut self)
        ensures { self.new.receiver ≡ self.old.receiver }
    {
        if mem::replace(&mut self.owes_wake, false) {
            self.shared.wake();
        }
    }
}

impl<'a, R: Wait + Clock, G: Gate, N: Naming, W: ShardWords<N>> Mailbox
    for NodeMailbox<'a, R, G, N, W> {
    type Letter = Delivery<N>;

    ghost use Rattle.std.specs.Prelude.{◌≡◌, ◌++◌, ◌∷◌, [], MatchOption};
    ghost use Rattle.cf_link.specs.Link.{IsSameLink};

    ghost receives = { λ old came new.
        IsSameLink new.receiver old.receiver
        × MatchOption came (new.receiver.items ≡ old.receiver.items)
        (λ d. new.receiver.items ≡ old.receiver.items ++ d ∷ []) };

    // Between two workers no more can be said of the hub.
    ghost brings = { λ old _ _ new. new.receiver ≡ old.receiver };

    // Whether a wake is still owed may change, and nothing else.
    ghost wakes = { λ old new. new ≡ record old { owes_wake = new.owes_wake } };

    fn receive(&mut self) -> Option<Delivery<N>> {
        self.shared.keep_turn(self.gate.now(self.rt));
        self.receiver
            .receive_within(self.rt, Duration::from_millis(LONGEST_SLEEP))
    }

    fn deliver_next(&mut self, delivery: Delivery<N>) -> Delivered {
        let mut hub = match self.hub.take() {
            Some(hub) => hub,
            None => {
                self.met = 0;
                self.shared.give_way(self.rt);
                self.shared.lock(self.rt)
            }
        };
        let bytes = delivery.publication().body.len();
        let bucket = bucket_of(delivery.channel());
        let delivered = hub.deliver(self.words, delivery);
        self.shared.count_brought(delivered.passed, bytes);
        if let Some(reach) = self.reach {
            reach.keep_reach(self.node, bucket, delivered.passed);
        }
        if self.goes_on(&delivered) {
            self.hub = Some(hub);
        } else {
            drop(hub);
            self.wakes_owed();
        }
        delivered
    }

    // A loop that is woken while the hub is kept from it would wait for that, and be woken once more.
    fn wake(&mut self) {
        if self.hub.is_some() {
            self.owes_wake = true;
        } else {
            self.shared.wake();
        }
    }
}

/// Takes turns until `stop` isn't 0.
pub(crate) fn dispatch<R: Wait + Clock, M: Mailbox, G: Gate>(
    rt: &R,
    node: u8,
    mailbox: &mut M,
    gate: &G,
    stop: &AtomicU64,
)
    ensures { Dispatches M.receives M.brings M.wakes mailbox.old mailbox.new }
{
    let mut turn: u64 = 0;
    for _ in rt.forever() {
        if stop.load(Ordering::SeqCst) != 0 {
            break;
        }
        turn = turn.wrapping_add(1);
        if gate.may(node, DISPATCHER, turn) {
            pass_on(mailbox);
        } else {
            thread::yield_now();
        }
    }
}

//! What a node's two workers share.
ghost use Rattle.std.specs.Prelude.{◌≡◌, ◌≤◌, ◌+◌, ◌↔◌, IsTrue};

use crate::attached_client::LockedHub;
use cf_hub::Delivered;
use cf_node_hub::NodeHub;
use cf_shard::{Delivery, Naming, Passes, ShardWords};
use mio::Waker;
use std::alloc::Global;
use std::marker::Model;
use std::sync::atomic::{AtomicU64, Ordering};
use std::sync::{Mutex, MutexGuard, Wait};
use std::thread;
use std::time::{Clock, Duration};

/// The dispatcher gives way to an IO loop that is behind by so many bytes.
const MOST_BEHIND: u64 = 262_144;

/// The most milliseconds for which it does.
const LONGEST_WAY: u32 = 25;

/// A publication of so many bytes is large.
const LARGE: usize = 16_384;

/// So many bytes of a large publication are worth a millisecond.
const PACE: usize = 32_768;

/// So many clients keep the dispatcher busy for a while: for what follows a publication that was
/// pushed to as many it is woken at once.
const MANY: u32 = 64;

/// The most times that it yields to a loop that waits for the hub.
const MOST_YIELDS: u32 = 1000;

/// A worker that took no turn for more seconds than these doesn't live.
const SECONDS_FOR_TURN: u64 = 2;

/// The hub under its lock, for the dispatcher: publications are brought to it, and nothing else is done there.
#[derive(Drop)]
pub(crate) struct HubToFill<'a, N: Naming> {
    hub: MutexGuard<'a, NodeHub<N>>,
}

impl<'a, N: Naming> Model for HubToFill<'a, N> {
    ghost use Rattle.std.specs.Sync.Mutex.{mutex_guard_value};
    ghost use Rattle.cf_node_hub.specs.Told.{Knowing};

    ghost Value = { Knowing };

    ghost view = { λ h. mutex_guard_value h.hub };
}

impl<'a, N: Naming> HubToFill<'a, N> {
    ghost use Rattle.cf_hub.specs.Hub.{Delivers, EachGetsTurn, tallied};

    /// Brings a publication to each session that follows its channel.
    pub(crate) fn deliver<W: ShardWords<N>>(
        &mut self,
        words: &W,
        delivery: Delivery<N>,
    ) -> Delivered
        ensures each { Delivers delivery.channel delivery.epoch delivery.publication self.old.node
            self.new.node }
        ensures counts { result ≡ tallied delivery.channel delivery.epoch delivery.publication
            self.old.node self.new.node }
        ensures turns { EachGetsTurn delivery.channel self.old.node self.new.node }
    {
        self.hub.deliver(words, delivery)
    }
}

/// The hub, and what wakes the IO loop when there is something to send.
#[derive(Drop)]
pub(crate) struct Shared<N: Naming> {
    hub: Mutex<NodeHub<N>>,
    waker: Waker,
    // Not 0 from a wake on until the loop looks.
    woken: AtomicU64,
    // So many bytes were brought to the hub since the loop had last sent what waited there.
    behind: AtomicU64,
    // So many milliseconds pass before the next publication is brought to the hub.
    rest: AtomicU64,
    // Not 0 while the loop waits for the hub.
    wanted: AtomicU64,
    // How many clients the last publication was pushed to.
    met: AtomicU64,
    // The moment of the dispatcher's last turn, in seconds.
    turned_at: AtomicU64,
}

// Whether a worker that took its last turn at one moment lives at another. Both are in seconds.
fn lives(turned: u64, now: u64) -> bool
    ensures { IsTrue result ↔ (now ≤ turned + SECONDS_FOR_TURN) }
{
    now.saturating_sub(turned) <= SECONDS_FOR_TURN
}

// Keeps a value. One that stands there isn't written anew, so that the other worker, which reads it, needn't fetch it anew.
fn keep(cell: &AtomicU64, value: u64) {
    if cell.load(Ordering::SeqCst) != value {
        cell.store(value, Ordering::SeqCst);
    }
}

impl<N: Naming> Shared<N> {
    /// The hub of a node of this number, at this start of the program, with no session yet, beside what it has seen of the logs.
    pub(crate) fn new(
        alloc: Global,
        node: u8,
        boot: u64,
        waker: Waker,
        seen: Passes<N>,
    ) -> Shared<N> {
        Shared {
            hub: Mutex::new(NodeHub::new(alloc, node, boot, seen)),
            waker,
            woken: AtomicU64::new(0),
            behind: AtomicU64::new(0),
            rest: AtomicU64::new(0),
            wanted: AtomicU64::new(0),
            met: AtomicU64::new(0),
            turned_at: AtomicU64::new(0),
        }
    }

    /// The dispatcher takes a turn at this moment.
    pub(crate) fn keep_turn(&self, now: u64) {
        keep(&self.turned_at, now);
    }

    /// Whether the dispatcher has turned within two seconds.
    pub(crate) fn is_well(&self, now: u64) -> bool {
        lives(self.turned_at.load(Ordering::SeqCst), now)
    }

    /// Whether the last publication was pushed to many clients.
    pub(crate) fn meets_many(&self) -> bool {
        self.met.load(Ordering::SeqCst) >= MANY as u64
    }

    /// Wakes the IO loop, unless it was woken since it last looked.
    pub(crate) fn wake(&self) {
        if self.woken.swap(1, Ordering::SeqCst) == 0 {
            // A loop that can't be woken looks by itself within a second.
            let _ = self.waker.wake();
        }
    }

    /// The IO loop looks: from now on it is woken again.
    pub(crate) fn look(&self) {
        keep(&self.woken, 0);
    }

    /// The hub for the dispatcher.
    pub(crate) fn lock<R: Wait>(&self, rt: &R) -> HubToFill<'_, N> {
        HubToFill {
            hub: self.hub.lock(rt),
        }
    }

    /// The hub for the IO loop, before whom the dispatcher gives way if the loop has to wait for it.
    pub(crate) fn hub<R: Wait>(&self, rt: &R) -> LockedHub<'_, N> {
        if let Some(hub) = self.hub.try_lock() {
            return LockedHub::new(hub);
        }
        self.wanted.store(1, Ordering::SeqCst);
        let hub = self.hub.lock(rt);
        self.wanted.store(0, Ordering::SeqCst);
        LockedHub::new(hub)
    }

    /// The IO loop has sent what waited in the hub, as far as the sockets took it.
    pub(crate) fn catch_up(&self) {
        keep(&self.behind, 0);
    }

    /// A publication of so many bytes was pushed to so many clients' queues in the hub. Where it is a
    /// large one, its readers are left some time for it, a millisecond for each 32,768 bytes begun.
    pub(crate) fn count_brought(&self, count: u32, bytes: usize) {
        keep(&self.met, count as u64);
        if count == 0 {
            return;
        }
        self.behind.fetch_add(bytes as u64, Ordering::SeqCst);
        if bytes >= LARGE {
            self.rest.store((bytes / PACE) as u64 + 1, Ordering::SeqCst);
        }
    }

    /// Whether the dispatcher has to give way before it brings more: to the readers of a large
    /// publication, or to an IO loop that is behind.
    pub(crate) fn owes_way(&self) -> bool {
        self.rest.load(Ordering::SeqCst) != 0 || self.behind.load(Ordering::SeqCst) >= MOST_BEHIND
    }

    // The time passes that is left to the readers of what was brought last.
    fn rest<R: Clock>(&self, rt: &R) {
        for _ in 0..self.rest.swap(0, Ordering::SeqCst) {
            thread::sleep(rt, Duration::from_millis(1));
        }
    }

    /// The dispatcher gives way to an IO loop that is behind by 262,144 bytes, for some 25
    /// milliseconds at most, to one that waits for the hub, and to the readers of a large publication.
    pub(crate) fn give_way<R: Clock>(&self, rt: &R) {
        self.rest(rt);
        for _ in 0..LONGEST_WAY {
            if self.behind.load(Ordering::SeqCst) < MOST_BEHIND {
                break;
            }
            thread::sleep(rt, Duration::from_millis(1));
        }
        self.let_in();
    }

    // The loop takes the hub first, where it waits for it.
    fn let_in(&self) {
        for _ in 0..MOST_YIELDS {
            if self.wanted.load(Ordering::SeqCst) == 0 {
                return;
            }
            thread::yield_now();
        }
    }
}

//! What is taken from the hub for a client whose wire takes more.
ghost use Rattle.std.specs.Prelude.{◌≡◌, ◌≢◌, ◌≤◌, ◌<◌, ◌↔◌, [], IsFalse, IsTrue, Some};
ghost use Rattle.std.specs.VecDeque.{deque_capacity, deque_len};
ghost use Rattle.cf_dispatch.specs.Outlet.{IsAtLimit, IsFull, KeepsRoom, Takes, bytes_in, leaves_more, may_take, waits_at};

use crate::outbox::Outbox;
use cf_node_hub::NodeHub;
use cf_queue::Out;
use cf_shard::Naming;
use std::collections::VecDeque;

/// So many bytes of texts are taken from the hub at once, what the gathering stream takes without a write, or as many items.
const MOST_TAKEN: usize = 65_536;

/// Why no more was taken for a client.
#[derive(Clone, Copy, PartialEq, Eq, Debug)]
pub enum Taken {
    /// Nothing waits for it any more.
    All,
    /// So much was taken as is taken at once. More may wait.
    Limit,
    /// There was no memory for one item more than there was room for. More may wait.
    Memory,
    /// Its wire isn't free, so that nothing was taken.
    Blocked,
}

impl Taken {
    /// Whether more may wait.
    pub fn leaves_more(self) -> bool
        ensures { result ≡ leaves_more self }
    {
        match self {
            Taken::All => false,
            Taken::Limit | Taken::Memory | Taken::Blocked => true,
        }
    }
}

/// Takes what waits for a session, the first first, and puts it behind what was taken for it before, until nothing waits or
/// 65,536 bytes of texts, or as many items, were taken. Where its wire isn't free, or what was taken is another session's,
/// nothing is taken.
pub fn take_for<N: Naming>(
    hub: &mut NodeHub<N>,
    session: u32,
    is_free: bool,
    outbox: &mut Outbox,
) -> Taken
    ensures takes { Takes session hub.old.node hub.new.node outbox.old.outs.items
        outbox.new.outs.items }
    ensures nothing { IsFalse (may_take session is_free outbox.old) →
        (hub.new ≡ hub.old) × (outbox.new ≡ outbox.old) }
    ensures own { IsTrue (may_take session is_free outbox.old) → outbox.new.session ≡ Some session }
    ensures blocked { (result ≡ Taken.Blocked) ↔ IsFalse (may_take session is_free outbox.old) }
    ensures all { result ≡ Taken.All → waits_at hub.new.node session ≡ [] }
    ensures limit { result ≡ Taken.Limit →
        IsAtLimit outbox.old.outs.items outbox.new.outs.items }
    ensures memory { result ≡ Taken.Memory → IsFull outbox.new.outs }
    ensures room { KeepsRoom outbox.old.outs outbox.new.outs }
{
    let may_take = is_free && outbox.is_for(session);
    if !may_take {
        return Taken::Blocked;
    }
    outbox.session = Some(session);
    fill(hub, session, &mut outbox.items)
}

// Takes what waits for a session, as far as that is taken at once.
fn fill<N: Naming>(hub: &mut NodeHub<N>, session: u32, taken: &mut VecDeque<Out>) -> Taken
    ensures takes { Takes session hub.old.node hub.new.node taken.old.items taken.new.items }
    ensures free { result ≢ Taken.Blocked }
    ensures all { result ≡ Taken.All → waits_at hub.new.node session ≡ [] }
    ensures limit { result ≡ Taken.Limit → IsAtLimit taken.old.items taken.new.items }
    ensures memory { result ≡ Taken.Memory → IsFull taken.new }
    ensures room { KeepsRoom taken.old taken.new }
{
    let mut bytes: usize = 0;
    for _count in 0..MOST_TAKEN {
        // Nothing is taken that could be lost.
        if !has_room(taken) {
            return Taken::Memory;
        }
        let Some(out) = hub.take(session) else {
            return Taken::All;
        };
        bytes = bytes.saturating_add(length_of(&out));
        taken.push_back_reserved(out);
        if bytes >= MOST_TAKEN {
            return Taken::Limit;
        }
    }
    Taken::Limit
}

// Whether there is room for one item more, where need be after memory was asked for.
fn has_room(taken: &mut VecDeque<Out>) -> bool
    ensures same { taken.new.items ≡ taken.old.items }
    ensures keeps { deque_capacity taken.old ≤ deque_capacity taken.new }
    ensures room { IsTrue result ↔ (deque_len taken.new < deque_capacity taken.new) }
{
    let _ = if taken.capacity() == 0 {
        // Most clients get one thing at a time, before more is looked for.
        taken.reserve_exact(2)
    } else {
        taken.reserve(1)
    };
    taken.len() < taken.capacity()
}

// How many bytes of text go out.
fn length_of(out: &Out) -> usize
    ensures { result ≡ bytes_in out.now }
{
    match out {
        Out::Text(text) => text.len(),
        Out::Close(_) => 0,
    }
}

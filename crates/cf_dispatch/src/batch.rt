//! What is taken from the hub for the sessions that it names, under one lock.
ghost use Rattle.cf_dispatch.specs.Batch.{TakesBatch, most_at_once};

use cf_node_hub::NodeHub;
use cf_shard::Naming;

/// For so many sessions what waits is taken under one lock of the hub.
pub const SESSIONS_AT_ONCE: usize = 64;

/// Where the clients of a hub's sessions sit. What was taken for one of them stays there: it is never lent.
pub trait Outlets {
    /// Which namespaces are set up, and which word counts which shard's log.
    type Of: Naming;

    ghost use Rattle.std.specs.Prelude.{ℕ, List};
    ghost use Rattle.cf_queue.specs.declared.queue.Out.{Out};
    ghost use Rattle.cf_dispatch.specs.Batch.{TakesAt};

    /// What was taken for a session's client and isn't sent yet was this, and with what is taken now it is that.
    ghost gets: { Self → ℕ → List Out → List Out → Self → Type 0 };

    /// A session has its turn: of what waits for its client some is taken, the first first, behind what was taken for it before,
    /// or nothing.
    fn take(&mut self, hub: &mut NodeHub<Self::Of>, session: u32)
        ensures { TakesAt gets session hub.old.node hub.new.node self.old self.new };
}

/// Gives their turns to up to 64 sessions, in the order in which the hub names them, and to each as often at most as it stands in
/// the hub's list.
pub fn take_batch<O: Outlets>(hub: &mut NodeHub<O::Of>, outlets: &mut O)
    ensures { TakesBatch O.gets most_at_once hub.old.node hub.new.node outlets.old outlets.new }
{
    for _named in 0..SESSIONS_AT_ONCE {
        let Some(session) = hub.next_with_output() else {
            return;
        };
        outlets.take(hub, session);
    }
}

//! What can be seen of a session without a change to it.
ghost use Rattle.std.specs.Prelude.{◌≡◌, is_some, not, option_map};
ghost use Rattle.cf_hub.specs.Checked.{stand_of};
ghost use Rattle.cf_hub.specs.Hub.{attached_at, is_open, sub_at};

use crate::node_hub::NodeHub;
use cf_shard::Naming;

impl<N: Naming> NodeHub<N> {
    /// The id of a session's client. It takes no memory.
    pub fn client_id(&self, session: u32) -> Option<&str>
        ensures { option_map (λ t. t.now) result
            ≡ option_map (λ a. a.badge.client) (attached_at self.now.node session) }
    {
        self.hub.client_id(session)
    }

    /// Whether a session is closed, or there is none. It takes no memory.
    pub fn is_closed(&self, session: u32) -> bool
        ensures { result ≡ not (is_open (attached_at self.now.node session)) }
    {
        self.hub.is_closed(session)
    }

    /// Whether a session's subscription to a channel is finished. It takes no memory.
    pub fn is_subscribed(&self, session: u32, channel: &str) -> bool
        ensures { result ≡ is_some (stand_of (sub_at self.now.node session channel.now)) }
    {
        self.hub.is_subscribed(session, channel)
    }
}

//! What the connections of a node are served with.
ghost use Rattle.std.specs.Prelude.{◌≡◌, true, IfOk, IfSome, IsSome, string_bytes};
ghost use Rattle.cf_protocol.specs.Settings.{settings_of};
ghost use Rattle.cf_session.specs.Standing.{is_idle, tables_of};
ghost use Rattle.cf_shard.specs.Shards.{number_of};
ghost use Rattle.cf_node_hub.specs.Asking.{Answers};
ghost use Rattle.cf_node_hub.specs.Histories.{IsListedIn};
ghost use Rattle.cf_node.specs.Answered.{StoodAt, WasPublished};

use crate::attached_client::LockedHub;
use crate::error_counts::NodeError;
use crate::shared::Shared;
use cf_node_hub::Begun;
use cf_order::Pass;
use cf_presence::Stats;
use cf_protocol::Position;
use cf_session::{Publish, Session};
use cf_shard::{Naming, Refused, ShardWords};
use cf_stream::{History, Published, Recovery};
use std::alloc::Global;
use std::collections::BTreeMap;

/// The node's hub, and the broker with the node's own passes. Each call may wait for a lock, and
/// leaves none taken but the hub's while it is lent.
pub(crate) trait Backend {
    /// Which namespaces are set up, and which word counts which shard's log.
    type Of: Naming;

    /// Who has the words of the shards.
    type Words: ShardWords<Self::Of>;

    /// What allocates.
    fn alloc(&self) -> Global;

    /// A session for a new client.
    fn session(&self) -> Session<'_>
        ensures idle { is_idle result ≡ true }
        ensures tables { (tables_of result).namespaces ≡ Self.Of.Naming.namespaces };

    /// The hub, under its lock.
    fn hub(&self) -> LockedHub<'_, Self::Of>;

    /// The words of the broker's shards.
    fn words(&self) -> &Self::Words;

    /// What is shared with the worker that brings publications.
    fn shared(&self) -> &Shared<Self::Of>;

    /// Whether some node is behind with what was published, with some of what this node published last too, so that who publishes
    /// is to wait.
    fn is_crowded(&self) -> bool;

    /// A publication was accepted that costs so much.
    fn count_accepted(&self, cost: u64);

    /// To how many clients of all nodes what is published in a channel goes, as far as the last
    /// publication there told.
    fn receivers(&self, channel: &str) -> u64;

    /// Wakes the workers that bring on what was published, on every node.
    fn ring(&self);

    /// Something goes wrong that is counted.
    fn count(&self, fault: NodeError);

    /// A publish by a client. Where what was published before went to many of the node's clients,
    /// the worker of this node that brings it on is woken at once.
    fn publish(&self, publish: Publish, now: u64) -> Result<Published, Refused>
        requires { IsSome
            (settings_of Self.Of.Naming.namespaces (string_bytes publish.channel)) }
        ensures { IfOk result (WasPublished Self.Of.Naming.namespaces (string_bytes publish.channel)
            (string_bytes publish.key) (string_bytes publish.body) publish.info) };

    /// A read of the channel's stream for a subscription that has begun, from where it asked: what it answers, and a pass by
    /// which it was read, which has seen what its hub had seen as it began.
    fn read(&self, begun: &mut Begun<Self::Of>, now: u64) -> Result<(Recovery, Pass), Refused>
        requires { IsSome (settings_of Self.Of.Naming.namespaces begun.old.channel) }
        ensures same { begun.new ≡ begun.old }
        ensures word { IfOk result
            (λ r. r.1.word ≡ Self.Of.Naming.words (number_of begun.old.channel)) }
        ensures read { IfOk result
            (λ r. Answers Self.Of.Naming.namespaces begun.old r.1.log r.0) };

    /// A history of a channel's stream: what it answers, and a pass by which it was answered.
    fn history(
        &self,
        channel: &str,
        since: Option<Position>,
        limit: i32,
        now: u64,
    ) -> Result<(History, Pass), Refused>
        requires { IsSome (settings_of Self.Of.Naming.namespaces channel.now) }
        ensures word { IfOk result
            (λ r. r.1.word ≡ Self.Of.Naming.words (number_of channel.now)) }
        ensures listed { IfOk result
            (λ r. IsListedIn Self.Of.Naming.namespaces r.1.log channel.now r.0) };

    /// Where a channel's stream stands, and the length of its shard's log. `None` where nothing
    /// happened in the shard since its log had as many entries as a mark says; that takes no lock.
    fn position_since(&self, channel: &str, mark: Option<u64>) -> Option<(Option<Position>, u64)>
        ensures { IfSome result (StoodAt Self.Of.Naming.namespaces channel.now) };

    /// Brings a moment to all shards of the broker, where this is the node that does.
    fn tick(&self, now: u64);

    /// A client is present in a channel from this moment on, where the channel's namespace keeps
    /// presence. Where memory is refused, it isn't.
    fn enter(&self, channel: &str, client: &str, user: &str, now: u64);

    /// A client is present in a channel no more.
    fn leave(&self, channel: &str, client: &str);

    /// The user of each client that is present in a channel, by the client's id.
    fn list(&self, channel: &str) -> Result<BTreeMap<String, String>, Refused>;

    /// How many clients are present in a channel, and how many different users.
    fn stats(&self, channel: &str) -> Stats;
}

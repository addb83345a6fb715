//! A node's hub, beside what the node has seen of the shards' logs.
ghost use Rattle.std.specs.Prelude.{◌≡◌, ◌≢◌, ◌≤◌, ◌<◌, ◌↔◌, IfErr, IfOk, IsErrOf, None, false, true, length, not, slice_get, option_map, option_and_then, string_bytes};
ghost use Rattle.cf_model.specs.Sessions.{closes_now, is_off, leaves, takes_front};
ghost use Rattle.cf_queue.specs.Meaning.{meaning};
ghost use Rattle.cf_queue.specs.OutQueue.{Close};
ghost use Rattle.cf_subscribers.specs.Follows.{channels_of, sessions_of};
ghost use Rattle.cf_hub.specs.Delivery.{total};
ghost use Rattle.cf_hub.specs.Hub.{Delivers, EachGetsTurn, IsFull, IsLeastFree, IsOpenWith, IsRefused, NoRoom, One, Opens, OthersStay, SameNode, SameRest, attached_at, empty, is_open, sub_at, tallied};
ghost use Rattle.cf_hub.specs.Turns.{SameTurns, gets_turn};
ghost use Rattle.cf_shard.specs.Shards.{lent, number_of, pass_at};
ghost use Rattle.cf_shard.specs.Standing.{StandsIn};
ghost use Rattle.cf_node_hub.specs.Asking.{IsBegun};
ghost use Rattle.cf_node_hub.specs.Seen.{SeesOn, log_at};

use crate::begun::Begun;
use crate::replies::moves_are_among;
use cf_hub::{Delivered, Hub, HubRefusal};
use cf_order::Pass;
use cf_protocol::Position;
use cf_queue::Out;
use cf_shard::{Delivery, Naming, Passes, SHARDS, ShardWords, shard_of};
use std::alloc::Global;
use std::marker::{Model, PhantomData};

/// The sessions of one node, and what it has seen of the shards' logs: each session says notes whose publications stand in what
/// was seen, and replies of its own. Its calls are those of its hub, and say what the hub's own say.
#[derive(Drop)]
pub struct NodeHub<N: Naming> {
    pub(crate) hub: Hub,
    pub(crate) seen: Passes<N>,
}

impl<N: Naming> Model for NodeHub<N> {
    ghost use Rattle.cf_node_hub.specs.Told.{IsReply, Knowing, SpeaksOf};

    ghost Value = { Knowing };

    ghost view = { λ h. record { node = h.hub; seen = h.seen } };

    ghost invariant = { λ h. SpeaksOf IsReply h.seen h.hub };
}

// A pass of a shard that has seen what these have, with no share of its own.
#[tactic(auto, using(crate::proofs::Lending::put_back))]
fn lent_of<N: Naming, W: ShardWords<N>>(passes: &mut Passes<N>, words: &W, shard: usize) -> Pass
    requires { shard < SHARDS }
    ensures same { passes.new ≡ passes.old }
    ensures word { result.word ≡ N.words shard }
    ensures lent { result ≡ lent (pass_at passes.old shard) }
{
    let mut own = passes.take(words, shard);
    let pass = words.shard_word(shard).lend(&mut own);
    passes.put(shard, own);
    pass
}

impl<N: Naming> NodeHub<N> {
    /// A node's sessions, none at first, under a boot number that the node never had before, beside these passes. It takes no
    /// memory.
    pub fn new(alloc: Global, node: u8, boot: u64, seen: Passes<N>) -> NodeHub<N>
        ensures { result ≡ record { node = empty node boot; seen = seen } }
    {
        NodeHub {
            hub: Hub::new(alloc, node, boot),
            seen,
        }
    }

    /// Brings a publication to each session that follows its channel, each once, in order of their subscribing. It takes no other
    /// than what a shard accepted.
    pub fn deliver<W: ShardWords<N>>(&mut self, words: &W, delivery: Delivery<N>) -> Delivered
        ensures each { Delivers delivery.channel delivery.epoch delivery.publication
            self.old.node self.new.node }
        ensures rest { SameNode self.old.node self.new.node }
        ensures counts { result ≡ tallied delivery.channel delivery.epoch delivery.publication
            self.old.node self.new.node }
        ensures adds_up { total result
            ≡ length (sessions_of self.old.node.rows delivery.channel) }
        ensures turns { EachGetsTurn delivery.channel self.old.node self.new.node }
        ensures seen { SeesOn self.old.seen self.new.seen }
        ensures stands { StandsIn (log_at self.new.seen delivery.channel) delivery.channel
            delivery.epoch delivery.publication }
    {
        moves_are_among();
        let shard = shard_of(delivery.channel());
        let delivered = self.hub.deliver(
            delivery.channel(),
            delivery.epoch(),
            delivery.publication(),
        );
        self.seen.learn(words, shard, delivery.evidence());
        delivered
    }

    /// A new session for a client of a user, at a moment in seconds, by its number: the least that no session has.
    pub fn attach(&mut self, user: String, now: u64) -> Result<u32, HubRefusal>
        ensures number { IfOk result (λ k. IsLeastFree self.old.node k) }
        ensures opens { IfOk result
            (λ k. Opens k (string_bytes user) now self.old.node self.new.node) }
        ensures too_many { IsErrOf result HubRefusal.TooMany ↔ NoRoom self.old.node }
        ensures refusals { IfErr result (λ e. e ≢ HubRefusal.TooMany → e ≡ HubRefusal.Memory) }
        ensures err { IfErr result (λ e. IsRefused e self.old.node self.new.node) }
        ensures known { IfOk result (λ k. k < self.new.node.turns.known) }
        ensures turns { SameTurns self.old.node.turns self.new.node.turns }
        ensures seen { self.new.seen ≡ self.old.seen }
    {
        moves_are_among();
        self.hub.attach(user, now)
    }

    /// Makes a subscription that the command `id` asked for, from a position where it gave one. What is answered is to be handed
    /// over with what a read of the channel's stream gives.
    pub fn begin<W: ShardWords<N>>(
        &mut self,
        words: &W,
        session: u32,
        channel: String,
        id: u32,
        since: Option<Position>,
    ) -> Result<Begun<N>, HubRefusal>
        requires { 1 ≤ id }
        ensures ok { IfOk result
            (λ b. IsBegun b session (string_bytes channel) id since self.old self.new) }
        ensures no_session { IsErrOf result HubRefusal.NoSession
            ↔ (is_open (attached_at self.old.node session) ≡ false) }
        ensures already { IsErrOf result HubRefusal.Already
            ↔ IsOpenWith (λ off. off ≡ false) session (string_bytes channel) self.old.node }
        ensures too_many { IsErrOf result HubRefusal.TooMany
            ↔ (IsOpenWith (λ off. off ≡ true) session (string_bytes channel) self.old.node
            × IsFull session self.old.node) }
        ensures err { IfErr result (λ e. IsRefused e self.old.node self.new.node) }
        ensures turns { self.new.node.turns ≡ self.old.node.turns }
        ensures seen { self.new.seen ≡ self.old.seen }
    {
        moves_are_among();
        let pass = lent_of(&mut self.seen, words, shard_of(channel.as_str()));
        let begun = Begun {
            session,
            channel,
            since,
            pass,
            of: PhantomData,
        };
        match self.hub.begin(session, begun.channel(), id, begun.since()) {
            Err(refusal) => Err(refusal),
            Ok(()) => Ok(begun),
        }
    }

    /// The client leaves a channel. Says whether it followed it, or was asking for it. It takes no memory.
    pub fn leave(&mut self, session: u32, channel: &str) -> bool
        ensures found { result ≡ not (is_off (sub_at self.old.node session channel.now)) }
        ensures sessions { One session (leaves channel.now) self.old.node self.new.node }
        ensures rest { SameRest self.old.node self.new.node }
        ensures turns { self.new.node.turns ≡ self.old.node.turns }
        ensures seen { self.new.seen ≡ self.old.seen }
    {
        moves_are_among();
        self.hub.leave(session, channel)
    }

    /// Closes a session with this code, and ends its subscriptions. Of one that was closed before nothing changes. It takes no
    /// memory.
    pub fn close(&mut self, session: u32, code: u16)
        ensures sessions { One session (closes_now (Close code)) self.old.node self.new.node }
        ensures rest { SameRest self.old.node self.new.node }
        ensures turns { self.new.node.turns ≡ gets_turn session self.old.node.turns }
        ensures seen { self.new.seen ≡ self.old.seen }
    {
        moves_are_among();
        self.hub.close(session, code);
    }

    /// Takes what is next for a session's client: a text, or the close. It takes no memory.
    pub fn take(&mut self, session: u32) -> Option<Out>
        ensures front { option_map meaning result
            ≡ option_and_then (λ a. slice_get a.state.notes 0)
            (attached_at self.old.node session) }
        ensures sessions { One session takes_front self.old.node self.new.node }
        ensures rest { SameRest self.old.node self.new.node }
        ensures turns { self.new.node.turns ≡ self.old.node.turns }
        ensures seen { self.new.seen ≡ self.old.seen }
    {
        moves_are_among();
        self.hub.take(session)
    }

    /// A session's end. Says how many subscriptions went with it. It takes no memory.
    pub fn detach(&mut self, session: u32) -> usize
        ensures counted { result ≡ length (channels_of self.old.node.rows session) }
        ensures gone { attached_at self.new.node session ≡ None }
        ensures others { OthersStay session self.old.node self.new.node }
        ensures rest { SameRest self.old.node self.new.node }
        ensures turns { self.new.node.turns ≡ self.old.node.turns }
        ensures seen { self.new.seen ≡ self.old.seen }
    {
        self.hub.detach(session)
    }
}

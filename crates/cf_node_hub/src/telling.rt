//! What a node's sessions are told: reads, replies, texts, checks and pings.
ghost use Rattle.std.specs.Prelude.{◌≡◌, ◌≢◌, ◌↔◌, ℕ, [], IfSome, IsFalse, IsTrue, not, option_map, string_bytes};
ghost use Rattle.cf_model.specs.Sessions.{checks, is_ready, push, reads};
ghost use Rattle.cf_queue.specs.OutQueue.{Text};
ghost use Rattle.cf_hub.specs.Checked.{check_answer};
ghost use Rattle.cf_hub.specs.Finish.{FinishesAt};
ghost use Rattle.cf_hub.specs.Hub.{IsNextTurn, Meets, One, OthersStay, SameNode, SameRest, Ticks, attached_at, queued_in, sub_at, waits_in};
ghost use Rattle.cf_hub.specs.Session.{badge_ponged};
ghost use Rattle.cf_hub.specs.Subscriptions.{reading_of};
ghost use Rattle.cf_hub.specs.Turns.{gets_turn};
ghost use Rattle.cf_hub.specs.WantOfMemory.{OrCloses};
ghost use Rattle.cf_hub.specs.Wordings.{plain, reading};
ghost use Rattle.cf_shard.specs.Shards.{number_of};
ghost use Rattle.cf_node_hub.specs.Asking.{Answers, IsAskedFrom};
ghost use Rattle.cf_node_hub.specs.Histories.{RepliesHistory};
ghost use Rattle.cf_node_hub.specs.Seen.{SeesOn};
ghost use Rattle.cf_node_hub.specs.Told.{IsReply};

use crate::begun::Begun;
use crate::node_hub::NodeHub;
use crate::replies::moves_are_among;
use cf_hub::laws::what_is_said_stays;
use cf_hub::{Checked, Hub, Queued, UnreadSubscription};
use cf_order::Pass;
use cf_protocol::Position;
use cf_shard::{Naming, ShardWords, shard_of};
use cf_stream::Recovery;

// Whether a session asks for a channel from this position, and its stream was not read yet.
fn asks_from(hub: &Hub, session: u32, channel: &str, since: Option<Position>) -> bool
    ensures { IsTrue result ↔ IsAskedFrom since (sub_at hub.now session channel.now) }
{
    hub.unread_subscription(session, channel) == Some(UnreadSubscription { since })
}

impl<N: Naming> NodeHub<N> {
    /// Takes what the read for a subscription gave, once, with the pass by which it was read. It takes no other answer than that
    /// of a read of the channel's shard, from the position from which the subscription asked, and at a point of the shard's log
    /// that has all that the node had seen as it began. False where the session doesn't ask for the channel from there, or has it
    /// already; then no session changes.
    pub fn read_done<W: ShardWords<N>>(
        &mut self,
        words: &W,
        begun: Begun<N>,
        recovery: Recovery,
        pass: Pass,
    ) -> bool
        requires word { pass.word ≡ N.words (number_of begun.channel) }
        requires read { Answers N.namespaces begun pass.log recovery }
        ensures asked { IsTrue result
            ↔ IsAskedFrom begun.since (sub_at self.old.node begun.session begun.channel) }
        ensures sessions { IsTrue result → One begun.session
            (reads (reading recovery.publications.items) begun.channel (reading_of recovery))
            self.old.node self.new.node }
        ensures nothing { IsFalse result → self.new.node ≡ self.old.node }
        ensures rest { SameRest self.old.node self.new.node }
        ensures turns { self.new.node.turns ≡ self.old.node.turns }
        ensures seen { SeesOn self.old.seen self.new.seen }
    {
        moves_are_among();
        what_is_said_stays();
        let channel = begun.channel();
        let session = begun.session();
        self.seen.learn(words, shard_of(channel), pass);
        if !asks_from(&self.hub, session, channel, begun.since()) {
            return false;
        }
        let _was_asked = self.hub.read_done(session, channel, recovery);
        true
    }

    /// Queues the reply of a subscription whose stream was read, the publications that follow it without gap or repeat, and an
    /// unsubscribe push where something is missing then. False where there is nothing to finish; then nothing changes.
    pub fn finish(&mut self, session: u32, channel: &str) -> bool
        ensures found { result ≡ is_ready (sub_at self.old.node session channel.now) }
        ensures session { Meets session
            (λ hit. FinishesAt hit channel.now (sub_at self.old.node session channel.now))
            self.old.node self.new.node }
        ensures rest { SameNode self.old.node self.new.node }
        ensures turns { self.new.node.turns ≡ gets_turn session self.old.node.turns }
        ensures seen { self.new.seen ≡ self.old.seen }
    {
        moves_are_among();
        self.hub.finish(session, channel)
    }

    /// Queues a reply that brings no publications. Where the client is too slow or memory is refused, the session is closed in
    /// place of it.
    pub fn say(&mut self, session: u32, text: String) -> Queued
        requires { IsReply (string_bytes text) }
        ensures said { result ≡ queued_in (attached_at self.new.node session) }
        ensures session { Meets session
            (λ hit. OrCloses hit plain (push plain (Text (string_bytes text))))
            self.old.node self.new.node }
        ensures rest { SameNode self.old.node self.new.node }
        ensures turns { self.new.node.turns ≡ gets_turn session self.old.node.turns }
        ensures seen { self.new.seen ≡ self.old.seen }
    {
        moves_are_among();
        self.hub.say(session, text)
    }

    /// Queues the reply to a history of a channel, with the pass by which it was answered. It takes no other text than one that
    /// says what the channel's shard answered, at a point of its log that the pass has seen. Where the client is too slow or
    /// memory is refused, the session is closed in place of it.
    pub fn say_history<W: ShardWords<N>>(
        &mut self,
        words: &W,
        session: u32,
        channel: &str,
        text: String,
        pass: Pass,
    ) -> Queued
        requires word { pass.word ≡ N.words (number_of channel.now) }
        requires replies { RepliesHistory N.namespaces pass.log channel.now (string_bytes text) }
        ensures said { result ≡ queued_in (attached_at self.new.node session) }
        ensures session { Meets session
            (λ hit. OrCloses hit plain (push plain (Text (string_bytes text))))
            self.old.node self.new.node }
        ensures rest { SameNode self.old.node self.new.node }
        ensures turns { self.new.node.turns ≡ gets_turn session self.old.node.turns }
        ensures seen { SeesOn self.old.seen self.new.seen }
    {
        moves_are_among();
        let shard = shard_of(channel);
        self.seen.learn(words, shard, pass);
        self.hub.say(session, text)
    }

    /// Checks a finished subscription against where its stream stands, none where it has no stream. Where the client is too slow
    /// or memory is refused for the unsubscribe push, the session is closed.
    pub fn check(&mut self, session: u32, channel: &str, top: Option<Position>) -> Checked
        ensures answer { result ≡ check_answer top (sub_at self.old.node session channel.now) }
        ensures session { Meets session
            (λ hit. OrCloses hit plain (checks plain channel.now top))
            self.old.node self.new.node }
        ensures rest { SameNode self.old.node self.new.node }
        ensures turns { self.new.node.turns ≡ gets_turn session self.old.node.turns }
        ensures seen { self.new.seen ≡ self.old.seen }
    {
        moves_are_among();
        self.hub.check(session, channel, top)
    }

    /// The client answered the last ping. It takes no memory.
    pub fn pong(&mut self, session: u32)
        ensures here { attached_at self.new.node session
            ≡ option_map badge_ponged (attached_at self.old.node session) }
        ensures others { OthersStay session self.old.node self.new.node }
        ensures rest { SameRest self.old.node self.new.node }
        ensures turns { self.new.node.turns ≡ self.old.node.turns }
        ensures seen { self.new.seen ≡ self.old.seen }
    {
        self.hub.pong(session);
    }

    /// Queues a ping for each session whose attach or last ping was 25 seconds ago or more, and closes those with 3012 that
    /// left one unanswered for 8. The moment is in seconds.
    pub fn tick(&mut self, now: u64)
        ensures each { Ticks now self.old.node self.new.node }
        ensures rest { SameNode self.old.node self.new.node }
        ensures seen { self.new.seen ≡ self.old.seen }
    {
        moves_are_among();
        self.hub.tick(now);
    }

    /// The number of a session that has got something to send since it was last named, each once, the longest waiting first.
    /// No session changes. It takes no memory.
    pub fn next_with_output(&mut self) -> Option<u32>
        ensures waiting { IfSome result (λ k. waits_in (attached_at self.old.node k) ≢ []) }
        ensures next { IsNextTurn (attached_at self.old.node) self.old.node.turns
            self.new.node.turns result }
        ensures same { self.new.node ≡ record self.old.node { turns = self.new.node.turns } }
        ensures seen { self.new.seen ≡ self.old.seen }
    {
        self.hub.next_with_output()
    }
}

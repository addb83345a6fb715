//! What the node keeps of a client, and what is done in the hub for it, while the hub is lent.
ghost use Rattle.std.specs.Prelude.{◌≡◌, ◌↔◌, ◌≤◌, IfErr, IfOk, IfSome, IsTrue, None, OnErr, OnOk, Some, is_some, string_bytes, true};
ghost use Rattle.cf_model.specs.Sessions.{reads};
ghost use Rattle.cf_hub.specs.Checked.{check_answer, stand_of};
ghost use Rattle.cf_hub.specs.Hub.{One, OthersStay, Ticks, attached_at, queued_in, sub_at};
ghost use Rattle.cf_hub.specs.Subscriptions.{reading_of};
ghost use Rattle.cf_hub.specs.Wordings.{reading};
ghost use Rattle.cf_dispatch.specs.Batch.{TakesBatch, most_at_once};
ghost use Rattle.cf_dispatch.specs.Standing.{looked};
ghost use Rattle.cf_node.specs.Desk.{TakesOwn};
ghost use Rattle.cf_node.specs.Own.{BeginsOwn, Checks, Closes, FailsToAttach, FailsToBegin, Finishes, Goes, Leaves, MovesOwn, OpensOwn, Pongs, Says, SparesOthers, ToOwn};
ghost use Rattle.cf_node_hub.specs.Asking.{Answers, IsAskedFrom};
ghost use Rattle.cf_node_hub.specs.Histories.{RepliesHistory};
ghost use Rattle.cf_node_hub.specs.Told.{IsReply};
ghost use Rattle.cf_shard.specs.Shards.{number_of};

use cf_dispatch::{Outbox, Outlets, PongWatch, Standing, take_batch, take_for};
use cf_hub::{Checked, Queued};
use cf_node_hub::{Begun, NodeHub};
use cf_order::Pass;
use cf_protocol::{ErrorCode, Position};
use cf_session::hub_error;
use cf_shard::{Naming, ShardWords};
use cf_stream::Recovery;
use std::alloc::Global;
use std::collections::VecDeque;
use std::marker::Model;
use std::sync::MutexGuard;

/// A channel in which a client is present.
#[derive(Drop)]
pub(crate) struct Present {
    pub(crate) channel: String,
    /// How many entries its shard's log had at the last check of the subscription's position, where
    /// that was fine.
    pub(crate) mark: Option<u64>,
}

/// What the node keeps of a client. Which session of the hub is its own is known here alone: what is done there for it is done by
/// the private calls below, each of which says what it changes in the hub that it is lent.
#[derive(Drop)]
pub(crate) struct AttachedClient<N: Naming> {
    // The number of its session in the hub, once it is attached, and whether it is over.
    standing: Standing,
    /// Nothing more comes of it: it is present nowhere any more.
    pub(crate) is_gone: bool,
    /// It was counted as too slow.
    pub(crate) is_slow: bool,
    /// The code of a close before it was attached.
    pub(crate) refused: Option<u16>,
    /// Whether it answers its pings in time.
    pub(crate) pongs: PongWatch,
    pub(crate) user: String,
    pub(crate) id: String,
    /// The channels in which it is present, each once.
    pub(crate) channels: VecDeque<Present>,
    /// When its presence and positions were refreshed last, in seconds; once its session is over, when
    /// that was seen.
    pub(crate) refreshed: u64,
    // What its session has begun, until what is read for that comes.
    begun: Option<Box<Option<Begun<N>>>>,
}

impl<N: Naming> AttachedClient<N> {
    /// Nobody yet, at this moment.
    pub(crate) fn new(alloc: Global, now: u64) -> AttachedClient<N> {
        AttachedClient {
            standing: Standing::nobody(),
            is_gone: false,
            is_slow: false,
            refused: None,
            pongs: PongWatch::new(now),
            user: String::new(alloc),
            id: String::new(alloc),
            channels: VecDeque::new(alloc),
            refreshed: now,
            begun: None,
        }
    }

    /// Whether it has a session in the hub.
    pub(crate) fn has_session(&self) -> bool
        ensures { result ≡ is_some self.now.standing.number }
    {
        self.standing.number().is_some()
    }

    /// Whether its session is the one of this number.
    pub(crate) fn is_of(&self, session: u32) -> bool
        ensures { IsTrue result ↔ (self.now.standing.number ≡ Some session) }
    {
        self.standing.number() == Some(session)
    }

    /// Whether its session is over, as far as was looked or told.
    pub(crate) fn is_over(&self) -> bool
        ensures { result ≡ self.now.standing.is_over }
    {
        self.standing.is_over()
    }

    // Looks in the hub whether its session is over.
    fn look(&mut self, hub: &NodeHub<N>)
        ensures { self.new.standing ≡ looked hub.now.node self.old.standing }
    {
        self.standing.look(hub);
    }

    /// Its session is over, as was seen at this moment.
    pub(crate) fn ends(&mut self, now: u64)
        ensures { self.new.standing ≡ record self.old.standing { is_over = true } }
    {
        self.standing.end();
        self.refreshed = now;
    }

    /// Its session, if it has one, sits at this slot from now on.
    pub(crate) fn sits_at(&self, owners: &mut Vec<usize>, slot: usize) {
        if let Some(number) = self.standing.number() {
            if let Some(owner) = owners.get_mut(number as usize) {
                *owner = slot;
            }
        }
    }

    /// The client is present in one channel more. Where memory is refused, it isn't kept, and its
    /// presence ends by itself.
    pub(crate) fn add(&mut self, channel: String) {
        for present in self.channels.iter() {
            if present.channel.as_str() == channel.as_str() {
                return;
            }
        }
        let _ = self.channels.push_back(Present {
            channel,
            mark: None,
        });
    }

    // A session for a user. The answer is the client's id.
    fn attach(
        &mut self,
        hub: &mut NodeHub<N>,
        alloc: Global,
        user: String,
        now: u64,
    ) -> Result<String, ErrorCode>
        ensures ok { OnOk result (OpensOwn self.new.standing.number (string_bytes user) now
            hub.old.node hub.new.node) }
        ensures err { OnErr result (SparesOthers self.new.standing.number hub.old.node
            hub.new.node) }
        ensures code { IfErr result (FailsToAttach hub.old.node) }
    {
        match user.clone() {
            Ok(kept) => self.user = kept,
            Err(_) => return Err(ErrorCode::Internal),
        }
        let number = match hub.attach(user, now) {
            Ok(number) => number,
            Err(refusal) => return Err(hub_error(&refusal)),
        };
        self.standing.attach(number);
        self.pongs = PongWatch::new(now);
        match String::from_str(alloc, hub.client_id(number).unwrap_or("")) {
            Ok(id) => self.id = id,
            Err(_) => return Err(ErrorCode::Internal),
        }
        match self.id.clone() {
            Ok(given) => Ok(given),
            Err(_) => Err(ErrorCode::Internal),
        }
    }

    // A subscription to a channel begins, for the command of this id; none has the id 0.
    fn begin<W: ShardWords<N>>(
        &mut self,
        hub: &mut NodeHub<N>,
        words: &W,
        channel: String,
        id: u32,
        since: Option<Position>,
    ) -> Result<(), ErrorCode>
        ensures ok { OnOk result (BeginsOwn self.old.standing.number (string_bytes channel) id since
            hub.old.node hub.new.node) }
        ensures err { OnErr result (SparesOthers None hub.old.node hub.new.node) }
        ensures code { IfErr result (FailsToBegin self.old.standing.number (string_bytes channel)
            hub.old.node) }
    {
        let Some(number) = self.standing.number() else {
            return Err(ErrorCode::Internal);
        };
        if id == 0 {
            return Err(ErrorCode::Internal);
        }
        // Most clients have one channel, so the first brings no room for more.
        let room = if self.channels.is_empty() {
            self.channels.reserve_exact(1)
        } else {
            self.channels.reserve(1)
        };
        if room.is_err() {
            return Err(ErrorCode::Internal);
        }
        let Ok(mut kept) = Box::new(*channel.allocator(), None) else {
            return Err(ErrorCode::Internal);
        };
        match hub.begin(words, number, channel, id, since) {
            Ok(begun) => {
                *kept = Some(begun);
                self.begun = Some(kept);
                Ok(())
            }
            Err(refusal) => Err(hub_error(&refusal)),
        }
    }

    /// What the client's session has begun, once, where it is of this channel, from this position.
    pub(crate) fn take_begun(&mut self, channel: &str, since: Option<Position>) -> Option<Begun<N>>
        ensures channel { IfSome result (λ b. b.channel ≡ channel.now) }
        ensures own { IfSome result (λ b. self.old.standing.number ≡ Some b.session) }
        ensures since { IfSome result (λ b. b.since ≡ since) }
    {
        let begun = Box::into_inner(self.begun.take()?)?;
        let is_own = self.standing.number() == Some(begun.session());
        let is_there = begun.channel() == channel;
        let is_from = begun.since() == since;
        if is_own && is_there && is_from {
            Some(begun)
        } else {
            None
        }
    }

    // The subscription is finished. Whether it stands then.
    fn finish(&self, hub: &mut NodeHub<N>, channel: &str) -> bool
        ensures own { ToOwn (Finishes channel.now) self.now.standing.number hub.old.node
            hub.new.node }
        ensures stands { IfSome self.now.standing.number
            (λ k. result ≡ is_some (stand_of (sub_at hub.new.node k channel.now))) }
    {
        let Some(number) = self.standing.number() else {
            return false;
        };
        hub.finish(number, channel);
        hub.is_subscribed(number, channel)
    }

    // The client leaves a channel.
    fn leave(&self, hub: &mut NodeHub<N>, channel: &str)
        ensures { ToOwn (Leaves channel.now) self.now.standing.number hub.old.node hub.new.node }
    {
        let Some(number) = self.standing.number() else {
            return;
        };
        hub.leave(number, channel);
    }

    // A reply that brings no publications waits for the client, or its session is closed. `false` where that is closed then, or
    // gone.
    fn say(&self, hub: &mut NodeHub<N>, text: String) -> bool
        requires { IsReply (string_bytes text) }
        ensures own { ToOwn (Says (string_bytes text)) self.now.standing.number hub.old.node
            hub.new.node }
        ensures kept { IfSome self.now.standing.number
            (λ k. IsTrue result ↔ (queued_in (attached_at hub.new.node k) ≡ Queued.Kept)) }
    {
        match self.standing.number() {
            Some(number) => hub.say(number, text) == Queued::Kept,
            None => true,
        }
    }

    // The same of the reply to a history of a channel, with the pass by which that was answered.
    fn say_history<W: ShardWords<N>>(
        &self,
        hub: &mut NodeHub<N>,
        words: &W,
        channel: &str,
        text: String,
        pass: Pass,
    ) -> bool
        requires word { pass.word ≡ N.words (number_of channel.now) }
        requires replies { RepliesHistory N.namespaces pass.log channel.now (string_bytes text) }
        ensures own { ToOwn (Says (string_bytes text)) self.now.standing.number hub.old.node
            hub.new.node }
        ensures kept { IfSome self.now.standing.number
            (λ k. IsTrue result ↔ (queued_in (attached_at hub.new.node k) ≡ Queued.Kept)) }
    {
        match self.standing.number() {
            Some(number) => hub.say_history(words, number, channel, text, pass) == Queued::Kept,
            None => true,
        }
    }

    // The hub owes its session no answer to a ping.
    fn pong(&self, hub: &mut NodeHub<N>)
        ensures { ToOwn Pongs self.now.standing.number hub.old.node hub.new.node }
    {
        let Some(number) = self.standing.number() else {
            return;
        };
        hub.pong(number);
    }

    // Its session is closed with this code.
    fn close(&self, hub: &mut NodeHub<N>, code: u16)
        ensures { ToOwn (Closes code) self.now.standing.number hub.old.node hub.new.node }
    {
        let Some(number) = self.standing.number() else {
            return;
        };
        hub.close(number, code);
    }

    // Checks a subscription of its session against where the channel's stream stands.
    fn check(&self, hub: &mut NodeHub<N>, channel: &str, top: Option<Position>) -> Checked
        ensures own { ToOwn (Checks channel.now top) self.now.standing.number hub.old.node
            hub.new.node }
        ensures answer { IfSome self.now.standing.number
            (λ k. result ≡ check_answer top (sub_at hub.old.node k channel.now)) }
    {
        match self.standing.number() {
            Some(number) => hub.check(number, channel, top),
            None => Checked::Nothing,
        }
    }

    // Takes what waits for its session, and puts it behind what was taken for it before. Whether more may wait.
    fn take(&self, hub: &mut NodeHub<N>, outbox: &mut Outbox) -> bool
        ensures own { TakesOwn self.now.standing.number outbox.old outbox.new }
        ensures moves { MovesOwn self.now.standing.number hub.old.node hub.new.node
            outbox.old.outs.items outbox.new.outs.items }
    {
        match self.standing.number() {
            Some(number) => take_for(hub, number, true, outbox).leaves_more(),
            None => false,
        }
    }

    // Its session goes. From then on it has none, and what it had is over.
    fn detach(&mut self, hub: &mut NodeHub<N>)
        ensures own { ToOwn Goes self.old.standing.number hub.old.node hub.new.node }
        ensures none { self.new.standing.number ≡ None }
    {
        if let Some(number) = self.standing.number() {
            hub.detach(number);
        }
        self.standing = Standing::nobody();
        self.standing.end();
    }

    // Forgets the mark of each subscription that has ended meanwhile.
    fn forgets_ended(&mut self, hub: &NodeHub<N>) {
        let Some(number) = self.standing.number() else {
            return;
        };
        for present in self.channels.iter_mut() {
            if !hub.is_subscribed(number, present.channel.as_str()) {
                present.mark = None;
            }
        }
    }
}

/// A node's hub, under its lock. What can be done there is done by these calls: for a client's own session, or for all of them.
#[derive(Drop)]
pub(crate) struct LockedHub<'a, N: Naming> {
    hub: MutexGuard<'a, NodeHub<N>>,
}

impl<'a, N: Naming> Model for LockedHub<'a, N> {
    ghost use Rattle.std.specs.Sync.Mutex.{mutex_guard_value};
    ghost use Rattle.cf_node_hub.specs.Told.{Knowing};

    ghost Value = { Knowing };

    ghost view = { λ l. mutex_guard_value l.hub };
}

impl<'a, N: Naming> LockedHub<'a, N> {
    ghost use Rattle.std.specs.Sync.Mutex.{mutex_guard_value};

    /// The hub, as it was locked.
    pub(crate) fn new(hub: MutexGuard<'a, NodeHub<N>>) -> LockedHub<'a, N>
        ensures { result ≡ mutex_guard_value hub.entry }
    {
        LockedHub { hub }
    }

    /// A session for a user, which is the client's own from then on. The answer is the client's id.
    pub(crate) fn attach(
        &mut self,
        client: &mut AttachedClient<N>,
        alloc: Global,
        user: String,
        now: u64,
    ) -> Result<String, ErrorCode>
        ensures ok { OnOk result (OpensOwn client.new.standing.number (string_bytes user) now
            self.old.node self.new.node) }
        ensures err { OnErr result (SparesOthers client.new.standing.number self.old.node
            self.new.node) }
        ensures code { IfErr result (FailsToAttach self.old.node) }
    {
        client.attach(&mut self.hub, alloc, user, now)
    }

    /// A subscription of the client to a channel begins, for the command of this id; none has the id 0.
    pub(crate) fn begin<W: ShardWords<N>>(
        &mut self,
        client: &mut AttachedClient<N>,
        words: &W,
        channel: String,
        id: u32,
        since: Option<Position>,
    ) -> Result<(), ErrorCode>
        ensures ok { OnOk result (BeginsOwn client.old.standing.number (string_bytes channel) id
            since self.old.node self.new.node) }
        ensures err { OnErr result (SparesOthers None self.old.node self.new.node) }
        ensures code { IfErr result (FailsToBegin client.old.standing.number (string_bytes channel)
            self.old.node) }
    {
        client.begin(&mut self.hub, words, channel, id, since)
    }

    /// What was read for what began is taken, with the pass by which it was.
    pub(crate) fn read_done<W: ShardWords<N>>(
        &mut self,
        words: &W,
        begun: Begun<N>,
        recovery: Recovery,
        pass: Pass,
    )
        requires word { pass.word ≡ N.words (number_of begun.channel) }
        requires read { Answers N.namespaces begun pass.log recovery }
        ensures asked { IsAskedFrom begun.since (sub_at self.old.node begun.session begun.channel) →
            One begun.session
            (reads (reading recovery.publications.items) begun.channel (reading_of recovery))
            self.old.node self.new.node }
        ensures others { OthersStay begun.session self.old.node self.new.node }
    {
        self.hub.read_done(words, begun, recovery, pass);
    }

    /// A subscription of the client is finished. Whether it stands then.
    pub(crate) fn finish(&mut self, client: &AttachedClient<N>, channel: &str) -> bool
        ensures own { ToOwn (Finishes channel.now) client.now.standing.number self.old.node
            self.new.node }
        ensures stands { IfSome client.now.standing.number
            (λ k. result ≡ is_some (stand_of (sub_at self.new.node k channel.now))) }
    {
        client.finish(&mut self.hub, channel)
    }

    /// The client leaves a channel.
    pub(crate) fn leave(&mut self, client: &AttachedClient<N>, channel: &str)
        ensures { ToOwn (Leaves channel.now) client.now.standing.number self.old.node
            self.new.node }
    {
        client.leave(&mut self.hub, channel);
    }

    /// A reply that brings no publications waits for the client, or its session is closed. `false` where that is closed then, or
    /// gone.
    pub(crate) fn say(&mut self, client: &AttachedClient<N>, text: String) -> bool
        requires { IsReply (string_bytes text) }
        ensures own { ToOwn (Says (string_bytes text)) client.now.standing.number self.old.node
            self.new.node }
        ensures kept { IfSome client.now.standing.number
            (λ k. IsTrue result ↔ (queued_in (attached_at self.new.node k) ≡ Queued.Kept)) }
    {
        client.say(&mut self.hub, text)
    }

    /// The same of the reply to a history of a channel, with the pass by which that was answered.
    pub(crate) fn say_history<W: ShardWords<N>>(
        &mut self,
        client: &AttachedClient<N>,
        words: &W,
        channel: &str,
        text: String,
        pass: Pass,
    ) -> bool
        requires word { pass.word ≡ N.words (number_of channel.now) }
        requires replies { RepliesHistory N.namespaces pass.log channel.now (string_bytes text) }
        ensures own { ToOwn (Says (string_bytes text)) client.now.standing.number self.old.node
            self.new.node }
        ensures kept { IfSome client.now.standing.number
            (λ k. IsTrue result ↔ (queued_in (attached_at self.new.node k) ≡ Queued.Kept)) }
    {
        client.say_history(&mut self.hub, words, channel, text, pass)
    }

    /// The hub owes the client's session no answer to a ping.
    pub(crate) fn pong(&mut self, client: &AttachedClient<N>)
        ensures { ToOwn Pongs client.now.standing.number self.old.node self.new.node }
    {
        client.pong(&mut self.hub);
    }

    /// The client's session is closed with this code.
    pub(crate) fn close(&mut self, client: &AttachedClient<N>, code: u16)
        ensures { ToOwn (Closes code) client.now.standing.number self.old.node self.new.node }
    {
        client.close(&mut self.hub, code);
    }

    /// Checks a subscription of the client against where the channel's stream stands.
    pub(crate) fn check(
        &mut self,
        client: &AttachedClient<N>,
        channel: &str,
        top: Option<Position>,
    ) -> Checked
        ensures own { ToOwn (Checks channel.now top) client.now.standing.number self.old.node
            self.new.node }
        ensures answer { IfSome client.now.standing.number
            (λ k. result ≡ check_answer top (sub_at self.old.node k channel.now)) }
    {
        client.check(&mut self.hub, channel, top)
    }

    /// Takes what waits for the client, and puts it behind what was taken for it before. Whether more may wait.
    pub(crate) fn take(&mut self, client: &AttachedClient<N>, outbox: &mut Outbox) -> bool
        ensures own { TakesOwn client.now.standing.number outbox.old outbox.new }
        ensures moves { MovesOwn client.now.standing.number self.old.node self.new.node
            outbox.old.outs.items outbox.new.outs.items }
    {
        client.take(&mut self.hub, outbox)
    }

    /// The client's session goes. From then on it has none, and what it had is over.
    pub(crate) fn detach(&mut self, client: &mut AttachedClient<N>)
        ensures own { ToOwn Goes client.old.standing.number self.old.node self.new.node }
        ensures none { client.new.standing.number ≡ None }
    {
        client.detach(&mut self.hub);
    }

    /// Looks whether the client's session is over.
    pub(crate) fn look(&self, client: &mut AttachedClient<N>)
        ensures { client.new.standing ≡ looked self.now.node client.old.standing }
    {
        client.look(&self.hub);
    }

    /// Forgets the mark of each subscription of the client that has ended meanwhile.
    pub(crate) fn forgets_ended(&self, client: &mut AttachedClient<N>) {
        client.forgets_ended(&self.hub);
    }

    /// A moment comes to all sessions, in seconds.
    pub(crate) fn tick(&mut self, now: u64)
        ensures { Ticks now self.old.node self.new.node }
    {
        self.hub.tick(now);
    }

    /// Gives some of those sessions their turns for which something waits, as `take_batch` of cf_dispatch does.
    pub(crate) fn give_turns<O: Outlets<Of = N>>(&mut self, outlets: &mut O)
        ensures { TakesBatch O.gets most_at_once self.old.node self.new.node outlets.old
            outlets.new }
    {
        take_batch(&mut self.hub, outlets);
    }
}

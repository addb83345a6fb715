//! What a session asks for, done on hub and broker.
ghost use Rattle.std.specs.Prelude.{◌≡◌, ◌≤◌};
ghost use Rattle.cf_shard.specs.Shards.{number_of};
ghost use Rattle.cf_node_hub.specs.Histories.{IsListedIn};

use crate::attached_client::AttachedClient;
use crate::backend::Backend;
use crate::costs::{CALL, LOOP_BUDGET, TEXT, cost_of, may_publish};
use crate::error_counts::NodeError;
use cf_dispatch::{Group, Outbox, broker_error};
use cf_node_hub::history_reply;
use cf_order::Pass;
use cf_presence::Stats;
use cf_protocol::{CloseCode, ErrorCode, Position};
use cf_session::{CommandExecutor, Publish};
use cf_stream::{History, Published};
use std::collections::BTreeMap;

/// A client that wasn't heard for more seconds than these was idle.
const SECONDS_IDLE: u64 = 2;

/// A turn is dear that costs as much as this.
const DEAR: u64 = LOOP_BUDGET / 64;

/// After so many turns it is known what those of a client cost.
const TURNS_TO_KNOW: u32 = 8;

/// Who carries out what one session asks for: it knows the client, and goes to hub and broker.
#[derive(Drop)]
pub(crate) struct CommandHandler<'a, B: Backend> {
    pub(crate) backend: &'a B,
    pub(crate) client: AttachedClient<B::Of>,
    /// The moment of the turn, in seconds.
    pub(crate) now: u64,
    /// When it was heard last, in seconds.
    pub(crate) heard: u64,
    /// What the turn costs so far in which its client was heard last.
    pub(crate) cost: u64,
    /// What its turns before were expected to cost, of which half is believed of the next one.
    pub(crate) expected: u64,
    /// In how many turns it was heard since it came or was idle.
    pub(crate) turns: u32,
    /// It published something for which nobody was woken yet.
    pub(crate) has_published: bool,
    /// It published while some node was behind: it goes on once none is.
    pub(crate) is_held: bool,
    /// In this turn it hears nothing that may publish: little is known of it, and others wait of whom little is, or who is held
    /// has to.
    pub(crate) is_barred: bool,
    /// The last turn in which texts were heard spent the bounds of one.
    pub(crate) is_spent: bool,
}

impl<'a, B: Backend> CommandExecutor for CommandHandler<'a, B> {
    ghost use Rattle.cf_node.specs.Answered.{IsDone};

    ghost namespaces = { λ _. B.Of.Naming.namespaces };

    // It is over as far as the handler has seen: the hub is asked before each call, and what it says
    // of a text is remembered.
    ghost closed = { λ handler. handler.client.standing.is_over };

    // Between two workers no more can be said of hub and broker than what they answered.
    ghost does = { λ _ act answer _. IsDone B.Of.Naming.namespaces act answer };

    fn is_closed(&self) -> bool {
        self.client.is_over()
    }

    fn attach(&mut self, user: String) -> Result<String, ErrorCode> {
        if self.sees_end() {
            return Err(ErrorCode::Internal);
        }
        let alloc = self.backend.alloc();
        self.backend
            .hub()
            .attach(&mut self.client, alloc, user, self.now)
    }

    fn begin(&mut self, channel: &str, id: u32, since: Option<Position>) -> Result<(), ErrorCode> {
        if self.sees_end() {
            return Err(ErrorCode::Internal);
        }
        let Ok(channel) = String::from_str(self.backend.alloc(), channel) else {
            return Err(ErrorCode::Internal);
        };
        let words = self.backend.words();
        self.backend
            .hub()
            .begin(&mut self.client, words, channel, id, since)
    }

    fn read(&mut self, channel: &str, since: Option<Position>) -> Result<(), ErrorCode> {
        if self.sees_end() {
            return Err(ErrorCode::Internal);
        }
        let Some(mut begun) = self.client.take_begun(channel, since) else {
            return Err(ErrorCode::Internal);
        };
        match self.backend.read(&mut begun, self.now) {
            Ok((recovery, pass)) => {
                let words = self.backend.words();
                self.backend.hub().read_done(words, begun, recovery, pass);
                Ok(())
            }
            Err(refused) => Err(broker_error(refused)),
        }
    }

    // The subscription is finished, and where it stands then, its client is present.
    fn finish(&mut self, channel: String) {
        if !self.sees_end() && self.backend.hub().finish(&self.client, channel.as_str()) {
            self.enter(channel.as_str());
            self.client.add(channel);
        }
    }

    fn leave(&mut self, channel: &str) {
        if self.sees_end() {
            return;
        }
        self.backend.hub().leave(&self.client, channel);
        self.backend.leave(channel, self.client.id.as_str());
        let channels = &mut self.client.channels;
        channels.retain(|one| one.channel.as_str() != channel);
    }

    fn publish(&mut self, publish: Publish) -> Result<(), ErrorCode> {
        if self.sees_end() {
            return Err(ErrorCode::Internal);
        }
        let receivers = self.backend.receivers(publish.channel.as_str());
        let cost = cost_of(publish.body.len(), receivers);
        self.cost = self.cost.saturating_add(cost);
        let answer = self.backend.publish(publish, self.now);
        self.has_published = true;
        if matches!(
            answer,
            Ok(Published {
                repeated: false,
                ..
            })
        ) {
            self.backend.count_accepted(cost);
        }
        self.is_held = self.is_held || self.backend.is_crowded();
        match answer {
            Ok(_) => Ok(()),
            Err(refused) => Err(broker_error(refused)),
        }
    }

    fn history(
        &mut self,
        channel: &str,
        id: u32,
        limit: i32,
        since: Option<Position>,
    ) -> Result<(), ErrorCode> {
        if self.sees_end() {
            return Err(ErrorCode::Internal);
        }
        if id == 0 {
            return Err(ErrorCode::Internal);
        }
        match self.backend.history(channel, since, limit, self.now) {
            Ok((history, pass)) => self.say_history(channel, id, history, pass),
            Err(refused) => Err(broker_error(refused)),
        }
    }

    fn presence(&mut self, channel: &str) -> Result<BTreeMap<String, String>, ErrorCode> {
        if self.sees_end() {
            return Err(ErrorCode::Internal);
        }
        match self.backend.list(channel) {
            Ok(clients) => Ok(clients),
            Err(refused) => Err(broker_error(refused)),
        }
    }

    fn stats(&mut self, channel: &str) -> Stats {
        if self.sees_end() {
            return Stats {
                clients: 0,
                users: 0,
            };
        }
        self.backend.stats(channel)
    }

    // The text waits for the client, or its session is closed, which is remembered.
    fn say(&mut self, text: String) {
        if !self.client.has_session() {
            return;
        }
        self.pay_for(text.as_str());
        let goes_on = self.backend.hub().say(&self.client, text);
        if !goes_on {
            self.stop();
        }
    }

    fn pong(&mut self) {
        self.client.pongs.pong();
        self.backend.hub().pong(&self.client);
    }

    // The session is closed. One that isn't attached has no queue: its close is sent as it is.
    fn close(&mut self, code: CloseCode) {
        let code = code.code();
        if self.client.has_session() {
            self.backend.hub().close(&self.client, code);
        } else {
            self.client.refused = Some(code);
        }
        self.stop();
    }
}

impl<'a, B: Backend> CommandHandler<'a, B> {
    ghost use Rattle.cf_node.specs.Desk.{TakesOwn};

    // A text costs what it weighs.
    fn pay_for(&mut self, text: &str) {
        let bytes = TEXT.saturating_add(text.len() as u64);
        self.cost = self.cost.saturating_add(bytes);
    }

    // The reply to a history waits for the client, or its session is closed. It is written before the
    // hub is locked.
    fn say_history(
        &mut self,
        channel: &str,
        id: u32,
        history: History,
        pass: Pass,
    ) -> Result<(), ErrorCode>
        requires id { 1 ≤ id }
        requires word { pass.word ≡ B.Of.Naming.words (number_of channel.now) }
        requires listed { IsListedIn B.Of.Naming.namespaces pass.log channel.now history }
    {
        if !self.client.has_session() {
            return Err(ErrorCode::Internal);
        }
        let Ok(text) = history_reply(self.backend.alloc(), id, history) else {
            return Err(ErrorCode::Internal);
        };
        self.pay_for(text.as_str());
        let words = self.backend.words();
        let goes_on = self
            .backend
            .hub()
            .say_history(&self.client, words, channel, text, pass);
        if !goes_on {
            self.stop();
        }
        Ok(())
    }

    /// A turn in which its client is heard is to come from this moment on, in seconds.
    pub(crate) fn is_owed(&mut self, now: u64) {
        if now.saturating_sub(self.heard) > SECONDS_IDLE {
            self.turns = 0;
        }
    }

    /// Its client is heard in a turn at this moment, in seconds, whose cost is counted from now on, and in which what may publish
    /// is put off, or not, if little is known of it.
    pub(crate) fn begin_turn(&mut self, now: u64, bars: bool) {
        self.is_barred = bars && self.turns < TURNS_TO_KNOW && !self.is_dear();
        self.turns = self.turns.saturating_add(1);
        self.heard = now;
        self.expected = self.cost.max(self.expected / 2);
        self.cost = CALL;
    }

    // Whether the next turn of its client is expected to be dear: as the last one was, or one before,
    // of whose cost half less is believed with each turn.
    fn is_dear(&self) -> bool {
        self.cost.max(self.expected / 2) >= DEAR
    }

    /// By what its next turn is expected to cost. What its client does next may cost much more than its last turn where it has
    /// shown little since it came or was idle, what it showed was cheap, and it isn't held. Who waits for its turn isn't idle.
    pub(crate) fn group(&self, is_held: bool) -> Group {
        if self.is_dear() {
            Group::Dear
        } else if self.turns < TURNS_TO_KNOW && !is_held {
            Group::Fresh
        } else {
            Group::Cheap
        }
    }

    /// Whether a text that is heard in this turn is put off, since it may publish.
    pub(crate) fn puts_off(&self, text: &str) -> bool {
        self.is_barred && may_publish(text)
    }

    /// Takes what waits for the client's session, and puts it behind what was taken for it before.
    /// Whether more may wait.
    pub(crate) fn take(&self, outbox: &mut Outbox) -> bool
        ensures { TakesOwn self.entry.now.client.standing.number outbox.old outbox.new }
    {
        self.backend.hub().take(&self.client, outbox)
    }

    /// Wakes who brings on what was published in a turn, where nobody was woken for it yet.
    pub(crate) fn ring(&mut self) {
        if self.has_published {
            self.has_published = false;
            self.backend.ring();
        }
    }

    /// Whether the session is over, as the hub has it now. Where it is, its client is present
    /// nowhere from now on.
    pub(crate) fn looks_for_end(&mut self) -> bool {
        if self.is_closed() {
            return true;
        }
        self.backend.hub().look(&mut self.client);
        if !self.is_closed() {
            return false;
        }
        self.end();
        true
    }

    // The same before a call, which is counted.
    fn sees_end(&mut self) -> bool {
        self.cost = self.cost.saturating_add(CALL);
        self.looks_for_end()
    }

    /// The close goes out to the client.
    pub(crate) fn sees_close(&mut self, code: u16) {
        if code == CloseCode::Slow.code() {
            self.count_slow();
        }
        self.stop();
    }

    /// The session does nothing more from now on.
    pub(crate) fn stop(&mut self) {
        if !self.is_closed() {
            self.end();
        }
    }

    /// The client is too slow, which is counted once.
    pub(crate) fn count_slow(&mut self) {
        if !self.client.is_slow {
            self.client.is_slow = true;
            self.backend.count(NodeError::Slow);
        }
    }

    // The session is over.
    fn end(&mut self) {
        self.client.ends(self.now);
        self.leave_all();
    }

    /// The client is present in the channel from this moment on, unless nothing more comes of it.
    /// Where memory is refused, it enters with the next round.
    pub(crate) fn enter(&self, channel: &str) {
        if self.client.is_gone {
            return;
        }
        self.backend.enter(
            channel,
            self.client.id.as_str(),
            self.client.user.as_str(),
            self.now,
        );
    }
}

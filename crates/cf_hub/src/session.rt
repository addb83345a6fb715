//! One session: its subscriptions, and what waits for its client.
ghost use Rattle.std.specs.Prelude.{◌≡◌};

use crate::fate::Fate;
use crate::step::Step;
use crate::subscription::{Meets, Met, Progress, take_at, take_out};
use crate::wording::{end_text, push_text, shared};
use bytes::ByteStr;
use cf_protocol::{CloseCode, Epoch, Publication};
use cf_queue::{OutQueue, QueueRefusal};
use cf_recovery::Verdict;
use indexmap::IndexMap;
use std::alloc::Global;

/// How many bytes of text may wait for one client.
const QUEUE_LIMIT: usize = 1_048_576;

/// One client's session.
#[derive(Drop)]
pub(crate) struct AttachedSession {
    pub(crate) client: String,
    pub(crate) user: String,
    pub(crate) subscriptions: IndexMap<String, Box<Progress>>,
    pub(crate) queue: OutQueue,
    pub(crate) pinged: u64,
    pub(crate) awaits_pong: bool,
    ghost limited: { queue.limit ≡ 1048576 },
}

impl AttachedSession {
    ghost use Rattle.std.specs.Prelude.{◌≡◌, ◌⊎◌, ◌||◌, ◌∷◌, [], Some, None, true, false, IfSome, string_bytes, not, ◌&&◌, if◌then◌else◌, map};
    ghost use Rattle.cf_queue.specs.OutQueue.{Text, Close};
    ghost use Rattle.cf_hub.specs.Session.{badge_of, state_of};
    ghost use Rattle.cf_model.specs.Sessions.{Off, closes_now, is_off, opens, put_sub};
    ghost use Rattle.cf_hub.specs.Sessions.{Acts, EndsAs, IsBrought, Moves, SaysText, Tells, closed_or, fate_brought, new_badge, pushes, says_one, unsaid, wants_memory};
    ghost use Rattle.cf_hub.specs.Wordings.{IsWritten, push_text};

    /// A client's session, with no subscription and nothing that waits.
    pub(crate) fn new(alloc: Global, client: String, user: String, now: u64) -> AttachedSession
        ensures state { state_of result ≡ opens }
        ensures badge { badge_of result ≡ new_badge (string_bytes client) (string_bytes user) now }
    {
        AttachedSession {
            client,
            user,
            subscriptions: IndexMap::new(alloc),
            queue: OutQueue::new(alloc, QUEUE_LIMIT),
            pinged: now,
            awaits_pong: false,
        }
    }

    /// Closes it, unless it is closed, and says whether it was open. It takes no memory.
    pub(crate) fn close(&mut self, code: u16) -> bool
        ensures state { state_of self.new ≡ closes_now (Close code) (state_of self.old) }
        ensures open { result ≡ not (state_of self.old).closed }
        ensures badge { badge_of self.new ≡ badge_of self.old }
    {
        if self.queue.is_closed() {
            return false;
        }
        self.subscriptions.clear();
        self.subscriptions.shrink_to_fit();
        self.queue.close(code);
        true
    }

    /// Queues a text, or closes the session. Says whether memory was refused, as it was for a text that isn't there.
    pub(crate) fn say(&mut self, text: Option<ByteStr>) -> bool
        ensures state { SaysText result text self.old self.new }
        ensures badge { badge_of self.new ≡ badge_of self.old }
    {
        let Some(text) = text else {
            return self.refuse(QueueRefusal::Memory);
        };
        match self.queue.push(text) {
            Ok(()) => false,
            Err((refusal, text)) => {
                drop(text);
                self.refuse(refusal)
            }
        }
    }

    /// Closes the session if a text that was refused so makes it. Says whether memory was refused.
    fn refuse(&mut self, refusal: QueueRefusal) -> bool
        ensures state { Moves (unsaid refusal) self.old self.new }
        ensures memory { result ≡ wants_memory refusal }
        ensures badge { badge_of self.new ≡ badge_of self.old }
    {
        match refusal {
            QueueRefusal::Closed => false,
            QueueRefusal::Slow => {
                let _open = self.close(CloseCode::Slow.code());
                false
            }
            QueueRefusal::Memory => {
                let _open = self.close(CloseCode::InternalError.code());
                true
            }
        }
    }

    /// Queues a text, and says what that did.
    pub(crate) fn tell(&mut self, text: String) -> Step
        ensures state { Acts result.refused (says_one (string_bytes text)) self.old self.new }
        ensures offs { EndsAs result.fate [] self.old self.new }
        ensures badge { badge_of self.new ≡ badge_of self.old }
    {
        let was_closed = self.queue.is_closed();
        let refused = self.say(shared(Ok(text)));
        self.step(was_closed, Fate::Passed, refused)
    }

    /// Queues the push of a publication that was written for all, or one of its own if it was not, or closes the session.
    /// Says whether memory was refused.
    fn enqueue_publication(
        &mut self,
        alloc: Global,
        written: &Option<ByteStr>,
        channel: &str,
        publication: &Publication,
    ) -> bool
        requires { IsWritten written.now channel.now publication.now }
        ensures state { Acts result (says_one (push_text channel.now publication.now))
            self.old self.new }
        ensures badge { badge_of self.new ≡ badge_of self.old }
    {
        match written {
            Some(text) => match self.queue.push_shared(text) {
                Ok(()) => false,
                Err(refusal) => self.refuse(refusal),
            },
            None => self.say(push_text(alloc, channel, publication)),
        }
    }

    /// Queues the pushes of publications in order, or closes the session amid them. Says whether memory was refused.
    pub(crate) fn enqueue_run(&mut self, alloc: Global, channel: &str, run: &[Publication]) -> bool
        ensures state { Tells result (pushes channel.now run.now) self.old self.new }
        ensures badge { badge_of self.new ≡ badge_of self.old }
    {
        let mut refused = false;
        for publication in run {
            refused |= self.say(push_text(alloc, channel, publication));
        }
        refused
    }

    /// Whether it follows a channel, or is asking for it.
    pub(crate) fn has(&self, channel: &str) -> bool
        ensures { result ≡ not (is_off ((state_of self.now).subs channel.now)) }
    {
        self.subscriptions.contains_key(channel)
    }

    /// What a call did: it closed the session, or else this.
    pub(crate) fn step(&self, was_closed: bool, fate: Fate, refused: bool) -> Step
        ensures fate { result.fate ≡ closed_or was_closed self.now fate }
        ensures refused { result.refused ≡ refused }
    {
        if !was_closed && self.queue.is_closed() {
            Step {
                fate: Fate::Closed,
                refused,
            }
        } else {
            Step { fate, refused }
        }
    }

    /// The channel's subscription ends.
    pub(crate) fn leave(&mut self, channel: &str)
        ensures state { state_of self.new ≡ put_sub channel.now Off (state_of self.old) }
        ensures badge { badge_of self.new ≡ badge_of self.old }
        ensures queue { self.new.queue ≡ self.old.queue }
    {
        take_out(&mut self.subscriptions, channel);
    }

    /// Brings a publication. Its text is handed in if it was written.
    pub(crate) fn deliver_here(
        &mut self,
        alloc: Global,
        channel: &str,
        epoch: &Epoch,
        publication: &Publication,
        written: &Option<ByteStr>,
    ) -> Step
        requires { IsWritten written.now channel.now publication.now }
        ensures state { IsBrought result.refused channel.now epoch.now publication.now
            self.old self.new }
        ensures fate { result.fate
            ≡ fate_brought channel.now epoch.now publication.now self.old self.new }
        ensures badge { badge_of self.new ≡ badge_of self.old }
    {
        let was_closed = self.queue.is_closed();
        let Met { meets, refused } = take_at(&mut self.subscriptions, channel, epoch, publication);
        match meets {
            Meets::Nothing => Step::none(),
            Meets::Buffer => Step {
                fate: Fate::Kept,
                refused,
            },
            Meets::On(Verdict::Drop) => Step::none(),
            Meets::On(Verdict::Pass) => {
                let refused = self.enqueue_publication(alloc, written, channel, publication);
                self.step(was_closed, Fate::Passed, refused)
            }
            Meets::On(Verdict::Insufficient) => {
                self.leave(channel);
                let refused = self.say(end_text(alloc, channel));
                self.step(was_closed, Fate::Ended, refused)
            }
        }
    }
}

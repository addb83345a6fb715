//! A subscription from its asking to its reply.
ghost use Rattle.std.specs.Prelude.{◌≡◌, ◌+◌, ◌⊎◌, ℕ, List, Bool, length, map, MatchOption, Some, option_map, is_some, false};
ghost use Rattle.cf_protocol.specs.Datum.{numbered};
ghost use Rattle.cf_hub.specs.Reply.{Answers, AnswersIn, stands, was_read};
ghost use Rattle.cf_model.specs.Sessions.{is_asked, is_ready};
ghost use Rattle.cf_hub.specs.Subscriptions.{SetsAt, names, progress_at, sub_of};

use crate::fate::Fate;
use crate::session::AttachedSession;
use crate::step::Step;
use crate::subscription::Progress;
use crate::wording::{end_text, reply_text};
use cf_protocol::{Epoch, Position, Publication};
use cf_recovery::Released;
use cf_stream::Recovery;
use indexmap::IndexMap;
use std::alloc::Global;
use std::mem;

/// The reply of a subscription, and what follows it.
#[derive(Drop)]
pub(crate) struct Answered {
    pub id: u32,
    pub was_recovering: bool,
    pub recovery: Recovery,
    pub released: Released,
}

/// What stands in for a subscription while it changes.
fn nowhere() -> Progress {
    let at = Position {
        epoch: Epoch::none(),
        offset: 0,
    };
    Progress::On {
        at,
        behind_at: None,
    }
}

/// The offset of the last of these, which follow an offset without a gap, or else that offset.
fn end_of(offset: u64, run: &[Publication]) -> u64
    requires { run.now ≡ numbered offset (map (λ x. x.datum) run.now) }
    ensures { result ≡ offset + length run.now }
{
    match run.last() {
        None => offset,
        Some(last) => last.offset,
    }
}

impl Progress {
    /// Takes what the read of the stream gave, once. Says whether it was asked for.
    fn read(&mut self, recovery: Recovery) -> bool
        ensures asked { result ≡ is_asked (sub_of (Some self.old)) }
        ensures after { self.new ≡ was_read recovery self.old }
    {
        let (progress, was_asked) = match mem::replace(self, nowhere()) {
            Progress::Asked { id, since, waiting } => {
                let ready = Progress::Ready {
                    id,
                    was_recovering: since.is_some(),
                    recovery,
                    waiting,
                };
                (ready, true)
            }
            other => {
                drop(recovery);
                (other, false)
            }
        };
        // By a call, since what an assignment lets go is spelled out by variant.
        drop(mem::replace(self, progress));
        was_asked
    }

    /// Gives the reply and what follows it, if the stream was read, and stands behind both.
    fn answer(&mut self) -> Option<Answered>
        ensures { MatchOption result
            ((self.new ≡ self.old) × (is_ready (sub_of (Some self.old)) ≡ false))
            (λ a. Answers a self.old × (self.new ≡ stands a)) }
    {
        let (progress, answered) = match mem::replace(self, nowhere()) {
            Progress::Ready {
                id,
                was_recovering,
                recovery,
                waiting,
            } => {
                let end = recovery.position;
                let released = waiting.release(&end);
                let at = Position {
                    epoch: end.epoch,
                    offset: end_of(end.offset, &released.run),
                };
                let answered = Answered {
                    id,
                    was_recovering,
                    recovery,
                    released,
                };
                (
                    Progress::On {
                        at,
                        behind_at: None,
                    },
                    Some(answered),
                )
            }
            other => (other, None),
        };
        // By a call, as in `read`.
        drop(mem::replace(self, progress));
        answered
    }
}

/// Takes what the read of a channel's stream gave, once. Says whether the channel was asked for.
#[tactic(auto, using(std::proofs::lemmas::Map::Text::text_keys))]
pub(crate) fn read_at(
    subscriptions: &mut IndexMap<String, Box<Progress>>,
    channel: &str,
    recovery: Recovery,
) -> bool
    ensures asked { result ≡ is_asked (sub_of (progress_at subscriptions.old channel.now)) }
    ensures after { SetsAt subscriptions.old subscriptions.new channel.now
        (option_map (was_read recovery) (progress_at subscriptions.old channel.now)) }
    ensures order { names subscriptions.new ≡ names subscriptions.old }
{
    match subscriptions.get_mut(channel) {
        None => false,
        Some(progress) => progress.read(recovery),
    }
}

/// Gives a channel's reply and what follows it.
#[tactic(auto, using(std::proofs::lemmas::Map::Text::text_keys))]
fn answer_at(subscriptions: &mut IndexMap<String, Box<Progress>>, channel: &str) -> Option<Answered>
    ensures answered { MatchOption result
        (SetsAt subscriptions.old subscriptions.new channel.now
        (progress_at subscriptions.old channel.now)
        × (is_ready (sub_of (progress_at subscriptions.old channel.now)) ≡ false))
        (λ a. AnswersIn a (progress_at subscriptions.old channel.now)
        × SetsAt subscriptions.old subscriptions.new channel.now (Some (stands a))) }
    ensures order { names subscriptions.new ≡ names subscriptions.old }
{
    match subscriptions.get_mut(channel) {
        None => None,
        Some(progress) => progress.answer(),
    }
}

impl AttachedSession {
    ghost use Rattle.std.specs.Prelude.{◌≡◌, ◌&&◌, not, if◌then◌else◌, MatchOption, List, ℕ, true, false};
    ghost use Rattle.cf_hub.specs.Reply.{answer_notes, finish_texts};
    ghost use Rattle.cf_hub.specs.Session.{badge_of, state_of};
    ghost use Rattle.cf_model.specs.Sessions.{is_asked, is_ready};
    ghost use Rattle.cf_hub.specs.Sessions.{EndsAs, FinishesSession, Moves, Tells, closed_or, finish_fate, leaves_if};

    /// The channel's subscription ends, if so.
    fn leave_if(&mut self, channel: &str, ends: bool)
        ensures state { Moves (leaves_if ends channel.now) self.old self.new }
        ensures badge { badge_of self.new ≡ badge_of self.old }
    {
        if ends {
            self.leave(channel);
        }
    }

    /// Queues a channel's reply, the run that follows it, and an unsubscribe push if something is missing then. Says whether
    /// there was something to finish.
    pub(crate) fn finish(&mut self, alloc: Global, channel: &str) -> (bool, Step)
        ensures found { result.0 ≡ is_ready ((state_of self.old).subs channel.now) }
        ensures state { FinishesSession result.1.refused channel.now self.old self.new }
        ensures offs { EndsAs result.1.fate channel.now self.old self.new }
        ensures badge { badge_of self.new ≡ badge_of self.old }
    {
        let was_closed = self.queue.is_closed();
        match answer_at(&mut self.subscriptions, channel) {
            None => (false, Step::none()),
            Some(answered) => {
                self.leave_if(channel, answered.released.insufficient);
                (
                    true,
                    self.enqueue_finish(alloc, channel, was_closed, answered),
                )
            }
        }
    }

    /// Queues a reply, the run that follows it, and an unsubscribe push if something is missing then.
    fn enqueue_finish(
        &mut self,
        alloc: Global,
        channel: &str,
        was_closed: bool,
        answered: Answered,
    ) -> Step
        ensures state { Tells result.refused (finish_texts channel.now answered) self.old self.new }
        ensures fate { result.fate ≡ closed_or was_closed self.new (finish_fate answered) }
        ensures badge { badge_of self.new ≡ badge_of self.old }
    {
        let ends = answered.released.insufficient;
        let refused = self.enqueue_answer(alloc, channel, answered);
        if !ends {
            return self.step(was_closed, Fate::Passed, refused);
        }
        let end = self.say(end_text(alloc, channel));
        self.step(was_closed, Fate::Ended, refused | end)
    }

    /// Queues a reply and the run that follows it. Says whether memory was refused.
    fn enqueue_answer(&mut self, alloc: Global, channel: &str, answered: Answered) -> bool
        ensures state { Tells result (answer_notes channel.now answered) self.old self.new }
        ensures badge { badge_of self.new ≡ badge_of self.old }
    {
        let Answered {
            id,
            was_recovering,
            recovery,
            released,
        } = answered;
        let first = self.say(reply_text(alloc, id, was_recovering, recovery));
        let second = self.enqueue_run(alloc, channel, &released.run);
        first | second
    }
}

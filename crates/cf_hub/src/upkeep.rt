//! A session's position checks, and its pings.
ghost use Rattle.std.specs.Prelude.{◌≡◌, Some, option_map};
ghost use Rattle.cf_hub.specs.Checked.{check_answer, after_check};
ghost use Rattle.cf_hub.specs.Subscriptions.{SetsAt, progress_at, sub_of};

use crate::checked::{Checked, position_check};
use crate::fate::Fate;
use crate::session::AttachedSession;
use crate::step::Step;
use crate::subscription::Progress;
use crate::wording::{end_text, ping_text};
use cf_protocol::{CloseCode, Position};
use indexmap::IndexMap;
use std::alloc::Global;

/// How many seconds there are from ping to ping.
const PING_SECONDS: u64 = 25;

/// How many seconds a ping may be unanswered.
const PONG_SECONDS: u64 = 8;

impl Progress {
    /// Checks it against where its stream stands, and keeps where it stands itself if it is behind.
    fn check(&mut self, top: Option<Position>) -> Checked
        ensures answer { result ≡ check_answer top (sub_of (Some self.old)) }
        ensures after { self.new ≡ after_check result self.old }
    {
        let Progress::On { at, behind_at } = self else {
            return Checked::Nothing;
        };
        let checked = position_check(top, at, *behind_at);
        *behind_at = match checked {
            Checked::Behind => Some(at.offset),
            _ => None,
        };
        checked
    }
}

/// Checks the subscription of a channel.
#[tactic(auto, using(std::proofs::lemmas::Map::Text::text_keys))]
fn check_at(
    subscriptions: &mut IndexMap<String, Box<Progress>>,
    channel: &str,
    top: Option<Position>,
) -> Checked
    ensures answer { result
        ≡ check_answer top (sub_of (progress_at subscriptions.old channel.now)) }
    ensures after { SetsAt subscriptions.old subscriptions.new channel.now
        (option_map (after_check result) (progress_at subscriptions.old channel.now)) }
{
    match subscriptions.get_mut(channel) {
        None => Checked::Nothing,
        Some(progress) => progress.check(top),
    }
}

impl AttachedSession {
    ghost use Rattle.std.specs.Prelude.{◌≡◌, ◌&&◌, ◌-◌, nat_le, List, ℕ, Some, None, []};
    ghost use Rattle.cf_hub.specs.Checked.{check_answer};
    ghost use Rattle.cf_hub.specs.Session.{badge_of, state_of, ticked};
    ghost use Rattle.cf_model.specs.Sessions.{checks};
    ghost use Rattle.cf_hub.specs.Sessions.{Acts, EndsAs, ticks_of};
    ghost use Rattle.cf_hub.specs.Wordings.{plain};

    /// Checks a finished subscription against where its stream stands. None if there is none to check.
    pub(crate) fn check(
        &mut self,
        alloc: Global,
        channel: &str,
        top: Option<Position>,
    ) -> (Checked, Step)
        ensures answer { result.0 ≡ check_answer top ((state_of self.old).subs channel.now) }
        ensures state { Acts result.1.refused (checks plain channel.now top) self.old self.new }
        ensures offs { EndsAs result.1.fate channel.now self.old self.new }
        ensures badge { badge_of self.new ≡ badge_of self.old }
    {
        let was_closed = self.queue.is_closed();
        let checked = check_at(&mut self.subscriptions, channel, top);
        match checked {
            Checked::Ended => {
                self.leave(channel);
                let refused = self.say(end_text(alloc, channel));
                (checked, self.step(was_closed, Fate::Ended, refused))
            }
            _ => (checked, Step::passed()),
        }
    }

    /// Queues a ping if one is due, and closes the session if the last one is unanswered for too long.
    pub(crate) fn tick(&mut self, alloc: Global, now: u64) -> Step
        ensures state { Acts result.refused (ticks_of now self.old) self.old self.new }
        ensures badge { badge_of self.new ≡ ticked now (badge_of self.old) }
        ensures offs { EndsAs result.fate [] self.old self.new }
    {
        let was_closed = self.queue.is_closed();
        let seconds = now.saturating_sub(self.pinged);
        if self.awaits_pong && seconds >= PONG_SECONDS {
            let _open = self.close(CloseCode::NoPong.code());
            return self.step(was_closed, Fate::Passed, false);
        }
        if seconds < PING_SECONDS {
            return Step::passed();
        }
        self.pinged = now;
        self.awaits_pong = true;
        let refused = self.say(ping_text(alloc));
        self.step(was_closed, Fate::Passed, refused)
    }
}

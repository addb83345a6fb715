//! Sessions of a node: they come, are closed and go, and answer pings.
ghost use Rattle.std.specs.Prelude.{◌≡◌, [], IfOk, string_bytes};
ghost use Rattle.cf_queue.specs.OutQueue.{Close};
ghost use Rattle.cf_model.specs.Sessions.{closes_now};
ghost use Rattle.cf_hub.specs.Hub.{Pings, attached_in, client_id, is_open};
ghost use Rattle.cf_hub.specs.Session.{badge_ponged};
ghost use Rattle.cf_hub.specs.Sessions.{BecomesIn, EndsIn, MeetsIn, MovesIn, OthersStayIn};

use crate::hub::{Hub, MOST_SESSIONS, count_more};
use crate::refusal::HubRefusal;
use crate::session::AttachedSession;
use crate::session_table::Sessions;
use crate::step::Step;
use crate::subscriptions::settle;
use std::alloc::{AllocError, Global};

impl Hub {
    ghost use Rattle.std.specs.Prelude.{◌≡◌, ◌≢◌, ◌↔◌, ◌<◌, ℕ, IfErr, IfNone, IfOk, IfSome, IsErrOf, MatchOption, None, OnErr, OnOk, length, not, option_map, string_bytes};
    ghost use Rattle.std.specs.Option.{option_copied};
    ghost use Rattle.cf_subscribers.specs.Follows.{channels_of};
    ghost use Rattle.cf_queue.specs.OutQueue.{Close};
    ghost use Rattle.cf_model.specs.Sessions.{closes_now};
    ghost use Rattle.cf_model.specs.Streams.{largest, most_sessions};
    ghost use Rattle.cf_hub.specs.Hub.{HasNoneFrom, IsLeastFree, IsNextFrom, IsRefused, IsSame, NoRoom, One, Opens, OthersStay, PingStep, SameNode, SameRest, Ticks, attached_at, is_open};
    ghost use Rattle.cf_hub.specs.Rows.{Agrees};
    ghost use Rattle.cf_hub.specs.Session.{attached_of, badge_ponged};
    ghost use Rattle.cf_hub.specs.Turns.{SameTurns, gets_turn};

    /// A new session, by its number: the least that no session has.
    pub fn attach(&mut self, user: String, now: u64) -> Result<u32, HubRefusal>
        ensures number { IfOk result (λ k. IsLeastFree self.old k) }
        ensures opens { IfOk result (λ k. Opens k (string_bytes user) now self.old self.new) }
        ensures too_many { IsErrOf result HubRefusal.TooMany ↔ NoRoom self.old }
        ensures refusals { IfErr result (λ e. e ≢ HubRefusal.TooMany → e ≡ HubRefusal.Memory) }
        ensures err { IfErr result (λ e. IsRefused e self.old self.new) }
        ensures known { IfOk result (λ k. k < self.new.turns.known) }
        ensures turns { SameTurns self.old.turns self.new.turns }
    {
        let Some(number) = self.free_number() else {
            return Err(HubRefusal::TooMany);
        };
        match self.open(number, user, now) {
            Ok(()) => Ok(number),
            Err(_) => {
                self.count_refused(true);
                Err(HubRefusal::Memory)
            }
        }
    }

    /// The least number that no session has, while one more session may come.
    fn free_number(&self) -> Option<u32>
        ensures { MatchOption result (NoRoom self.now)
            (λ k. IsLeastFree self.now k × (k < most_sessions) × (self.now.used < largest)) }
    {
        if self.used == u64::MAX {
            return None;
        }
        for number in self.free_from..MOST_SESSIONS {
            if self.session(number).is_none() {
                return Some(number);
            }
        }
        None
    }

    /// Opens a session under a number that is free.
    fn open(&mut self, number: u32, user: String, now: u64) -> Result<(), AllocError>
        requires free { IsLeastFree self.old number }
        requires below { number < most_sessions }
        requires left { self.old.used < largest }
        ensures opens { OnOk result (Opens number (string_bytes user) now self.old self.new) }
        ensures err { OnErr result (IsSame self.old self.new) }
        ensures known { OnOk result (number < self.new.turns.known) }
        ensures turns { SameTurns self.old.turns self.new.turns }
    {
        self.pending.make_room(number)?;
        let client = write_client_id(self.alloc, self.node, self.boot, self.used + 1)?;
        let session = AttachedSession::new(self.alloc, client, user, now);
        self.sessions.insert(self.alloc, number, session)?;
        self.free_from = number + 1;
        self.used += 1;
        Ok(())
    }

    /// A session's end. Says how many subscriptions went with it. It takes no memory.
    pub fn detach(&mut self, session: u32) -> usize
        ensures counted { result ≡ length (channels_of self.old.rows session) }
        ensures gone { attached_at self.new session ≡ None }
        ensures others { OthersStay session self.old self.new }
        ensures agrees { Agrees (attached_at self.new) self.new.rows }
        ensures rest { SameRest self.old self.new }
        ensures turns { self.new.turns ≡ self.old.turns }
    {
        self.sessions.remove(session);
        self.free_from = self.free_from.min(session);
        self.rows.detach(session)
    }

    /// The id of a session's client. It takes no memory.
    pub fn client_id(&self, session: u32) -> Option<&str>
        ensures { option_map (λ t. t.now) result
            ≡ option_map (λ a. a.badge.client) (attached_at self.now session) }
    {
        match self.session(session) {
            None => None,
            Some(session) => Some(session.client.as_str()),
        }
    }

    /// The name of a session's user. It takes no memory.
    pub fn user(&self, session: u32) -> Option<&str>
        ensures { option_map (λ t. t.now) result
            ≡ option_map (λ a. a.badge.user) (attached_at self.now session) }
    {
        match self.session(session) {
            None => None,
            Some(session) => Some(session.user.as_str()),
        }
    }

    /// Whether a session is closed, or there is none. It takes no memory.
    pub fn is_closed(&self, session: u32) -> bool
        ensures { result ≡ not (is_open (attached_at self.now session)) }
    {
        match self.session(session) {
            None => true,
            Some(session) => session.queue.is_closed(),
        }
    }

    /// Closes a session with this code, and ends its subscriptions. Of one that was closed before nothing changes. It takes no
    /// memory.
    pub fn close(&mut self, session: u32, code: u16)
        ensures sessions { One session (closes_now (Close code)) self.old self.new }
        ensures rest { SameRest self.old self.new }
        ensures turns { self.new.turns ≡ gets_turn session self.old.turns }
    {
        self.pending.add(session);
        if close_one(&mut self.sessions, session, code) {
            let _gone = self.rows.detach(session);
        }
    }

    /// The client answered the last ping. It takes no memory.
    pub fn pong(&mut self, session: u32)
        ensures here { attached_at self.new session
            ≡ option_map badge_ponged (attached_at self.old session) }
        ensures others { (k : ℕ) → k ≢ session → attached_at self.new k ≡ attached_at self.old k }
        ensures rest { SameRest self.old self.new }
        ensures turns { self.new.turns ≡ self.old.turns }
    {
        pong_one(&mut self.sessions, session);
    }

    /// Queues a ping for each session whose attach or last ping was 25 seconds ago or more, and closes those with 3012 that
    /// left one unanswered for 8. The moment is in seconds.
    pub fn tick(&mut self, now: u64)
        ensures each { Ticks now self.old self.new }
        ensures rest { SameNode self.old self.new }
    {
        self.invariant();
        let mut from = 0;
        while let Some(number) = self.next_from(from) {
            self.ping(number, now);
            from = number + 1;
        }
    }

    /// The least number from this one on that has a session.
    fn next_from(&self, from: u32) -> Option<u32>
        ensures none { IfNone result (HasNoneFrom from (attached_at self.now)) }
        ensures next { IfSome result (λ k. IsNextFrom from k (attached_at self.now)
            × (k < most_sessions)) }
    {
        self.sessions.next_from(from)
    }

    fn ping(&mut self, session: u32, now: u64)
        ensures step { PingStep now session self.old self.new }
        ensures rest { SameNode self.old self.new }
    {
        self.pending.add(session);
        let step = tick_one(&mut self.sessions, self.alloc, session, now);
        settle(&mut self.rows, session, "", step.fate);
        self.refused = count_more(self.refused, step.refused);
    }

    /// The session of a number.
    pub(crate) fn session(&self, number: u32) -> Option<&AttachedSession>
        ensures { option_map attached_of (option_copied result) ≡ attached_at self.now number }
    {
        self.sessions.get(number)
    }
}

// The client id of a node's session.
fn write_client_id(alloc: Global, node: u8, boot: u64, count: u64) -> Result<String, AllocError>
    ensures { IfOk result (λ t. string_bytes t ≡ client_id node boot count) }
{
    format!(in alloc; "{node}-{boot}-{count}")
}

/// Closes one session. Says whether it was open.
fn close_one(sessions: &mut Sessions, number: u32, code: u16) -> bool
    ensures here { MovesIn number (closes_now (Close code)) sessions.old sessions.new }
    ensures others { OthersStayIn number sessions.old sessions.new }
    ensures open { result ≡ is_open (attached_in sessions.old number) }
{
    match sessions.get_mut(number) {
        None => false,
        Some(session) => session.close(code),
    }
}

/// One session's client answered the last ping.
fn pong_one(sessions: &mut Sessions, number: u32)
    ensures here { BecomesIn number badge_ponged sessions.old sessions.new }
    ensures others { OthersStayIn number sessions.old sessions.new }
{
    if let Some(session) = sessions.get_mut(number) {
        session.awaits_pong = false;
    }
}

/// Pings one session's client if it is due.
fn tick_one(sessions: &mut Sessions, alloc: Global, number: u32, now: u64) -> Step
    ensures here { MeetsIn number (Pings result.refused now) sessions.old sessions.new }
    ensures others { OthersStayIn number sessions.old sessions.new }
    ensures offs { EndsIn number result.fate [] sessions.old sessions.new }
{
    match sessions.get_mut(number) {
        None => Step::none(),
        Some(session) => session.tick(alloc, now),
    }
}

//! Subscriptions of a node's sessions: begun, read, finished, checked and left, and what is asked about them.
ghost use Rattle.std.specs.Prelude.{◌≡◌, OnErr, OnOk, Some, not, true};
ghost use Rattle.std.specs.List.{list_all};
ghost use Rattle.std.specs.String.{string_eq};
ghost use Rattle.indexmap.specs.IndexMap.{IsUnique};
ghost use Rattle.cf_model.specs.Sessions.{begins, checks, is_asked, is_off, is_ready, is_unfinished, leaves};
ghost use Rattle.cf_hub.specs.Checked.{check_answer};
ghost use Rattle.cf_hub.specs.Hub.{attached_in};
ghost use Rattle.cf_hub.specs.Rows.{rows_after, sub_in};
ghost use Rattle.cf_hub.specs.Sessions.{ActsIn, EndsIn, FinishesIn, MovesIn, OthersStayIn, takes_read};
ghost use Rattle.cf_hub.specs.Subscriptions.{sub_of};
ghost use Rattle.cf_hub.specs.Wordings.{plain};

use crate::asking::UnreadSubscription;
use crate::checked::Checked;
use crate::fate::Fate;
use crate::hub::{Hub, MOST_CHANNELS, count_more};
use crate::refusal::HubRefusal;
use crate::reply::read_at;
use crate::session_table::Sessions;
use crate::step::Step;
use crate::subscription::{Progress, add};
use cf_protocol::Position;
use cf_stream::Recovery;
use cf_subscribers::{MOST_ROWS, Subscribers};
use indexmap::IndexMap;
use std::alloc::{AllocError, Global};

impl Hub {
    ghost use Rattle.std.specs.Prelude.{◌≡◌, ◌≢◌, ◌↔◌, ◌<◌, ℕ, IfErr, IsErrOf, IsTrue, List, OnErr, OnOk, false, is_some, length, not, true};
    ghost use Rattle.std.specs.Option.{option_copied};
    ghost use Rattle.cf_model.specs.Sessions.{checks, is_asked, is_off, is_ready, is_unfinished, leaves, reads};
    ghost use Rattle.cf_model.specs.Streams.{most_rows};
    ghost use Rattle.cf_hub.specs.Asking.{asked_of};
    ghost use Rattle.cf_hub.specs.Checked.{check_answer, position_in, stand_of};
    ghost use Rattle.cf_hub.specs.Finish.{FinishesAt};
    ghost use Rattle.cf_hub.specs.Hub.{Begins, IsFull, IsOpenWith, IsRefused, IsSame, Meets, One, SameNode, SameRest, attached_at, is_open, sub_at};
    ghost use Rattle.cf_hub.specs.Subscriptions.{reading_of, sub_of};
    ghost use Rattle.cf_hub.specs.Turns.{gets_turn};
    ghost use Rattle.cf_hub.specs.WantOfMemory.{OrCloses};
    ghost use Rattle.cf_hub.specs.Wordings.{plain, reading};

    /// Makes a subscription that the command `id` asked for, from a position if it gave one.
    pub fn begin(
        &mut self,
        session: u32,
        channel: &str,
        id: u32,
        since: Option<Position>,
    ) -> Result<(), HubRefusal>
        ensures ok { OnOk result (Begins session channel.now id since self.old self.new) }
        ensures no_session { IsErrOf result HubRefusal.NoSession
            ↔ (is_open (attached_at self.old session) ≡ false) }
        ensures already { IsErrOf result HubRefusal.Already
            ↔ IsOpenWith (λ off. off ≡ false) session channel.now self.old }
        ensures too_many { IsErrOf result HubRefusal.TooMany
            ↔ (IsOpenWith (λ off. off ≡ true) session channel.now self.old
            × IsFull session self.old) }
        ensures err { IfErr result (λ e. IsRefused e self.old self.new) }
        ensures turns { self.new.turns ≡ self.old.turns }
    {
        self.may_begin(session, channel)?;
        match self.start(session, channel, id, since) {
            Ok(()) => Ok(()),
            Err(_) => {
                self.count_refused(true);
                Err(HubRefusal::Memory)
            }
        }
    }

    /// Whether a session may ask for a channel, but for memory.
    fn may_begin(&self, session: u32, channel: &str) -> Result<(), HubRefusal>
        ensures ok { OnOk result
            (IsOpenWith (λ off. off ≡ true) session channel.now self.now
            × (length self.now.rows < most_rows)) }
        ensures no_session { IsErrOf result HubRefusal.NoSession
            ↔ (is_open (attached_at self.now session) ≡ false) }
        ensures already { IsErrOf result HubRefusal.Already
            ↔ IsOpenWith (λ off. off ≡ false) session channel.now self.now }
        ensures too_many { IsErrOf result HubRefusal.TooMany
            ↔ (IsOpenWith (λ off. off ≡ true) session channel.now self.now
            × IsFull session self.now) }
        ensures memory { IfErr result (λ e. e ≢ HubRefusal.Memory) }
    {
        if self.is_closed(session) {
            return Err(HubRefusal::NoSession);
        }
        if self.has_subscription(session, channel) {
            return Err(HubRefusal::Already);
        }
        if self.rows.count(session) >= MOST_CHANNELS || self.rows.len() >= MOST_ROWS {
            return Err(HubRefusal::TooMany);
        }
        Ok(())
    }

    /// Makes a subscription and its row, or neither.
    fn start(
        &mut self,
        session: u32,
        channel: &str,
        id: u32,
        since: Option<Position>,
    ) -> Result<(), AllocError>
        requires may { IsOpenWith (λ off. off ≡ true) session channel.now self.old }
        requires room { length self.old.rows < most_rows }
        ensures ok { OnOk result (Begins session channel.now id since self.old self.new) }
        ensures err { OnErr result (IsSame self.old self.new) }
        ensures turns { self.new.turns ≡ self.old.turns }
    {
        match self.rows.add(self.alloc, channel, session) {
            Ok(()) => {}
            Err(_) => return Err(AllocError),
        }
        match begin_one(&mut self.sessions, self.alloc, session, channel, id, since) {
            Ok(()) => Ok(()),
            Err(refused) => {
                let _added = self.rows.remove(channel, session);
                Err(refused)
            }
        }
    }

    /// Takes what the read of a channel's stream gave, once. False if the session hasn't asked for the channel, or has it
    /// already; then nothing changes.
    pub fn read_done(&mut self, session: u32, channel: &str, recovery: Recovery) -> bool
        ensures asked { result ≡ is_asked (sub_at self.old session channel.now) }
        ensures sessions { One session
            (reads (reading recovery.publications.items) channel.now (reading_of recovery))
            self.old self.new }
        ensures rest { SameRest self.old self.new }
        ensures turns { self.new.turns ≡ self.old.turns }
    {
        read_one(&mut self.sessions, session, channel, recovery)
    }

    /// Queues the reply of a subscription whose stream was read, the publications that follow it without gap or repeat, and an
    /// unsubscribe push if something is missing then. False if there is nothing to finish; then nothing changes.
    pub fn finish(&mut self, session: u32, channel: &str) -> bool
        ensures found { result ≡ is_ready (sub_at self.old session channel.now) }
        ensures session { Meets session
            (λ hit. FinishesAt hit channel.now (sub_at self.old session channel.now))
            self.old self.new }
        ensures rest { SameNode self.old self.new }
        ensures turns { self.new.turns ≡ gets_turn session self.old.turns }
    {
        self.pending.add(session);
        let (found, step) = finish_one(&mut self.sessions, self.alloc, session, channel);
        settle(&mut self.rows, session, channel, step.fate);
        self.refused = count_more(self.refused, step.refused);
        found
    }

    /// Checks a finished subscription against where its stream stands, none if it has no stream. If the client is too slow
    /// or memory is refused for the unsubscribe push, the session is closed.
    pub fn check(&mut self, session: u32, channel: &str, top: Option<Position>) -> Checked
        ensures answer { result ≡ check_answer top (sub_at self.old session channel.now) }
        ensures session { Meets session
            (λ hit. OrCloses hit plain (checks plain channel.now top))
            self.old self.new }
        ensures rest { SameNode self.old self.new }
        ensures turns { self.new.turns ≡ gets_turn session self.old.turns }
    {
        self.pending.add(session);
        let (checked, step) = check_one(&mut self.sessions, self.alloc, session, channel, top);
        settle(&mut self.rows, session, channel, step.fate);
        self.refused = count_more(self.refused, step.refused);
        checked
    }

    /// The client leaves a channel. Says whether it followed it, or was asking for it. It takes no memory.
    pub fn leave(&mut self, session: u32, channel: &str) -> bool
        ensures found { result ≡ not (is_off (sub_at self.old session channel.now)) }
        ensures sessions { One session (leaves channel.now) self.old self.new }
        ensures rest { SameRest self.old self.new }
        ensures turns { self.new.turns ≡ self.old.turns }
    {
        leave_one(&mut self.sessions, session, channel);
        self.rows.remove(channel, session)
    }

    /// Whether a session follows a channel, or is asking for it. It takes no memory.
    pub fn has_subscription(&self, session: u32, channel: &str) -> bool
        ensures { result ≡ not (is_off (sub_at self.now session channel.now)) }
    {
        match self.session(session) {
            None => false,
            Some(session) => session.has(channel),
        }
    }

    /// Whether a session's subscription to a channel is finished. It takes no memory.
    pub fn is_subscribed(&self, session: u32, channel: &str) -> bool
        ensures { result ≡ is_some (stand_of (sub_at self.now session channel.now)) }
    {
        self.position_of(session, channel).is_some()
    }

    /// The subscription of a session to a channel, while the stream was not read for it. It takes no memory.
    pub fn unread_subscription(&self, session: u32, channel: &str) -> Option<UnreadSubscription>
        ensures { result ≡ asked_of (sub_at self.now session channel.now) }
    {
        match self.progress(session, channel) {
            Some(Progress::Asked { since, .. }) => Some(UnreadSubscription { since: *since }),
            _ => None,
        }
    }

    /// Where a session's finished subscription to a channel stands. It takes no memory.
    pub fn position_of(&self, session: u32, channel: &str) -> Option<Position>
        ensures { result ≡ position_in (sub_at self.now session channel.now) }
    {
        match self.progress(session, channel) {
            Some(Progress::On { at, .. }) => Some(*at),
            _ => None,
        }
    }

    /// How far a session is with a channel.
    fn progress(&self, session: u32, channel: &str) -> Option<&Progress>
        ensures { sub_of (option_copied result) ≡ sub_at self.now session channel.now }
    {
        match self.session(session) {
            None => None,
            Some(session) => match session.subscriptions.get(channel) {
                None => None,
                Some(progress) => Some(progress.as_ref()),
            },
        }
    }

    /// Whether no subscription of a session waits for its reply. It takes no memory.
    pub fn is_settled(&self, session: u32) -> bool
        ensures { IsTrue result
            ↔ ((c : List ℕ) → is_unfinished (sub_at self.now session c) ≡ false) }
    {
        match self.session(session) {
            None => true,
            Some(session) => all_finished(&session.subscriptions),
        }
    }
}

/// Makes a subscription of one session, which is open and doesn't follow the channel.
fn begin_one(
    sessions: &mut Sessions,
    alloc: Global,
    number: u32,
    channel: &str,
    id: u32,
    since: Option<Position>,
) -> Result<(), AllocError>
    requires { is_off (sub_in (attached_in sessions.old number) channel.now) ≡ true }
    ensures here { OnOk result (MovesIn number (begins plain channel.now id since)
        sessions.old sessions.new) }
    ensures others { OthersStayIn number sessions.old sessions.new }
    ensures err { OnErr result (attached_in sessions.new number ≡ attached_in sessions.old number) }
{
    match sessions.get_mut(number) {
        None => Ok(()),
        Some(session) => add(&mut session.subscriptions, alloc, channel, id, since),
    }
}

/// Hands the read of a channel's stream to one session.
fn read_one(sessions: &mut Sessions, number: u32, channel: &str, recovery: Recovery) -> bool
    ensures asked { result ≡ is_asked (sub_in (attached_in sessions.old number) channel.now) }
    ensures here { MovesIn number (takes_read recovery channel.now) sessions.old sessions.new }
    ensures others { OthersStayIn number sessions.old sessions.new }
{
    match sessions.get_mut(number) {
        None => false,
        Some(session) => read_at(&mut session.subscriptions, channel, recovery),
    }
}

/// Finishes a subscription of one session. Says whether there was one to finish.
fn finish_one(sessions: &mut Sessions, alloc: Global, number: u32, channel: &str) -> (bool, Step)
    ensures found { result.0 ≡ is_ready (sub_in (attached_in sessions.old number) channel.now) }
    ensures here { FinishesIn number result.1 channel.now sessions.old sessions.new }
    ensures others { OthersStayIn number sessions.old sessions.new }
    ensures offs { EndsIn number result.1.fate channel.now sessions.old sessions.new }
{
    match sessions.get_mut(number) {
        None => (false, Step::none()),
        Some(session) => session.finish(alloc, channel),
    }
}

/// Checks a subscription of one session.
fn check_one(
    sessions: &mut Sessions,
    alloc: Global,
    number: u32,
    channel: &str,
    top: Option<Position>,
) -> (Checked, Step)
    ensures answer { result.0
        ≡ check_answer top (sub_in (attached_in sessions.old number) channel.now) }
    ensures here { ActsIn number result.1 (checks plain channel.now top) sessions.old sessions.new }
    ensures others { OthersStayIn number sessions.old sessions.new }
    ensures offs { EndsIn number result.1.fate channel.now sessions.old sessions.new }
{
    match sessions.get_mut(number) {
        None => (Checked::Nothing, Step::none()),
        Some(session) => session.check(alloc, channel, top),
    }
}

/// One session leaves a channel.
fn leave_one(sessions: &mut Sessions, number: u32, channel: &str)
    ensures here { MovesIn number (leaves channel.now) sessions.old sessions.new }
    ensures others { OthersStayIn number sessions.old sessions.new }
{
    if let Some(session) = sessions.get_mut(number) {
        session.leave(channel);
    }
}

/// Removes the rows of what ended.
pub(crate) fn settle(rows: &mut Subscribers, session: u32, channel: &str, fate: Fate)
    ensures { rows.new ≡ rows_after fate channel.now session rows.old }
{
    match fate {
        Fate::Ended => {
            let _found = rows.remove(channel, session);
        }
        Fate::Closed => {
            let _count = rows.detach(session);
        }
        _ => {}
    }
}

impl Progress {
    /// Whether its reply was queued.
    fn is_finished(&self) -> bool
        ensures { result ≡ not (is_unfinished (sub_of (Some self.now))) }
    {
        matches!(self, Progress::On { .. })
    }
}

// Whether the reply of each was queued.
fn all_finished(subscriptions: &IndexMap<String, Box<Progress>>) -> bool
    ensures all { result
        ≡ list_all (λ e. not (is_unfinished (sub_of (Some e.1.value)))) subscriptions.now.entries }
    ensures unique { IsUnique string_eq subscriptions.now }
{
    subscriptions
        .iter()
        .all(|(_name, progress)| progress.is_finished())
}

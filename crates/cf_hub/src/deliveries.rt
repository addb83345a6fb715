//! A publication on its way to each session that follows its channel.
ghost use Rattle.std.specs.Prelude.{◌≡◌};
ghost use Rattle.cf_hub.specs.Delivery.{fate_at};
ghost use Rattle.cf_hub.specs.Hub.{Brings, attached_in};
ghost use Rattle.cf_hub.specs.Rows.{AgreedBefore, Agrees, TellsFate};
ghost use Rattle.cf_hub.specs.Sessions.{MeetsIn, OthersStayIn};
ghost use Rattle.cf_hub.specs.Wordings.{IsWritten, at_offset};

use crate::delivered::Delivered;
use crate::fate::Fate;
use crate::hub::{Hub, count_more};
use crate::session_table::Sessions;
use crate::step::Step;
use crate::subscriptions::settle;
use crate::wording::push_text;
use bytes::ByteStr;
use cf_protocol::{Epoch, Publication};
use cf_subscribers::Subscribers;
use std::alloc::Global;

impl Hub {
    ghost use Rattle.std.specs.Prelude.{◌≡◌, is_some, length, not};
    ghost use Rattle.cf_subscribers.specs.Follows.{sessions_of};
    ghost use Rattle.cf_hub.specs.Delivery.{total};
    ghost use Rattle.cf_hub.specs.Hub.{Delivers, EachGetsTurn, SameNode, attached_at, met_refusal, tallied};
    ghost use Rattle.cf_hub.specs.Rows.{Agrees};
    ghost use Rattle.cf_hub.specs.Wordings.{IsWritten};

    /// Brings a publication to each session that follows its channel, each once, in order of their subscribing. If memory is
    /// refused for one, or its client is too slow, that one alone is closed, or gives up what it keeps.
    pub fn deliver(&mut self, channel: &str, epoch: &Epoch, publication: &Publication) -> Delivered
        ensures each { Delivers channel.now epoch.now publication.now self.old self.new }
        ensures rest { SameNode self.old self.new }
        ensures counts { result ≡ tallied channel.now epoch.now publication.now self.old self.new }
        ensures adds_up { total result ≡ length (sessions_of self.old.rows channel.now) }
        ensures turns { EachGetsTurn channel.now self.old self.new }
        ensures agrees { Agrees (attached_at self.new) self.new.rows }
    {
        let written = self.push_for_all(channel, publication);
        let counts = self.deliver_to_all(channel, epoch, publication, &written);
        drop(written);
        counts
    }

    // The push of a publication, written once for all. If memory is refused for it that is counted, and each session gets one of
    // its own.
    fn push_for_all(&mut self, channel: &str, publication: &Publication) -> Option<ByteStr>
        ensures written { IsWritten result channel.now publication.now }
        ensures counts { self.new ≡ met_refusal (not (is_some result)) self.old }
    {
        let written = push_text(self.alloc, channel, publication);
        self.count_refused(written.is_none());
        written
    }

    fn deliver_to_all(
        &mut self,
        channel: &str,
        epoch: &Epoch,
        publication: &Publication,
        written: &Option<ByteStr>,
    ) -> Delivered
        requires { IsWritten written.now channel.now publication.now }
        ensures each { Delivers channel.now epoch.now publication.now self.old self.new }
        ensures rest { SameNode self.old self.new }
        ensures counts { result ≡ tallied channel.now epoch.now publication.now self.old self.new }
        ensures adds_up { total result ≡ length (sessions_of self.old.rows channel.now) }
        ensures turns { EachGetsTurn channel.now self.old self.new }
        ensures agrees { Agrees (attached_at self.new) self.new.rows }
    {
        let mut counts = Delivered::none();
        for session in self.rows.walk(channel) {
            let step = deliver_one(
                &mut self.sessions,
                self.alloc,
                session,
                channel,
                epoch,
                publication,
                written,
            );
            self.pending.add(session);
            self.refused = count_more(self.refused, step.refused);
            counts = counts.and(step.fate);
        }
        if counts.ended > 0 || counts.closed > 0 {
            settle_all(&mut self.rows, &self.sessions, channel);
        }
        counts
    }
}

/// Brings a publication to one session.
fn deliver_one(
    sessions: &mut Sessions,
    alloc: Global,
    number: u32,
    channel: &str,
    epoch: &Epoch,
    publication: &Publication,
    written: &Option<ByteStr>,
) -> Step
    requires { IsWritten written.now channel.now publication.now }
    ensures here { MeetsIn number (Brings result.refused channel.now epoch.now publication.now)
        sessions.old sessions.new }
    ensures others { OthersStayIn number sessions.old sessions.new }
    ensures fate { result.fate ≡ fate_at channel.now (at_offset epoch.now publication.now)
        (attached_in sessions.old number) (attached_in sessions.new number) }
{
    match sessions.get_mut(number) {
        None => Step {
            fate: Fate::Dropped,
            refused: false,
        },
        Some(session) => session.deliver_here(alloc, channel, epoch, publication, written),
    }
}

/// Removes the rows of what ended in a call that met all followers of a channel.
fn settle_all(rows: &mut Subscribers, sessions: &Sessions, channel: &str)
    requires { AgreedBefore channel.now (attached_in sessions.now) rows.old }
    ensures { Agrees (attached_in sessions.now) rows.new }
{
    let mut next = rows.first(channel);
    while let Some(session) = next {
        next = rows.after(channel, session);
        settle(rows, session, channel, fate_now(sessions, session, channel));
    }
}

/// What a call that met a session with this channel did with it, by what is off now: all subscriptions, this one, or neither.
fn fate_now(sessions: &Sessions, number: u32, channel: &str) -> Fate
    ensures { TellsFate result channel.now (attached_in sessions.now number) }
{
    let Some(session) = sessions.get(number) else {
        return Fate::Closed;
    };
    if session.subscriptions.is_empty() {
        Fate::Closed
    } else if session.has(channel) {
        Fate::Dropped
    } else {
        Fate::Ended
    }
}

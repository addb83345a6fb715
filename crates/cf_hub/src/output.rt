//! What waits for the sessions' clients: it is said, counted, and taken.
ghost use Rattle.std.specs.Prelude.{◌≡◌, [], option_and_then, option_map, slice_get, string_bytes};
ghost use Rattle.cf_queue.specs.Meaning.{meaning};
ghost use Rattle.cf_model.specs.Sessions.{takes_front};
ghost use Rattle.cf_hub.specs.Hub.{IsNextTurn, attached_in, is_waiting, queued_in, waits_in};
ghost use Rattle.cf_hub.specs.Sessions.{ActsIn, EndsIn, MovesIn, OthersStayIn, says_one};

use crate::hub::{Hub, count_more};
use crate::pending::Pending;
use crate::queued::Queued;
use crate::session_table::Sessions;
use crate::step::Step;
use crate::subscriptions::settle;
use cf_queue::Out;

impl Hub {
    ghost use Rattle.std.specs.Prelude.{◌≡◌, ◌≢◌, [], IfSome, length, option_and_then, option_map, slice_get, string_bytes};
    ghost use Rattle.cf_queue.specs.Meaning.{meaning};
    ghost use Rattle.cf_queue.specs.OutQueue.{Text, first_text};
    ghost use Rattle.cf_model.specs.Sessions.{push, takes_front};
    ghost use Rattle.cf_hub.specs.Hub.{IsNextTurn, Meets, One, SameNode, SameRest, attached_at, queued_in, waits_in};
    ghost use Rattle.cf_hub.specs.Turns.{gets_turn};
    ghost use Rattle.cf_hub.specs.WantOfMemory.{OrCloses};
    ghost use Rattle.cf_hub.specs.Wordings.{plain};

    /// Queues a text. If the client is too slow or memory is refused, the session is closed in place of it.
    pub fn say(&mut self, session: u32, text: String) -> Queued
        ensures said { result ≡ queued_in (attached_at self.new session) }
        ensures session { Meets session
            (λ hit. OrCloses hit plain (push plain (Text (string_bytes text))))
            self.old self.new }
        ensures rest { SameNode self.old self.new }
        ensures turns { self.new.turns ≡ gets_turn session self.old.turns }
    {
        self.pending.add(session);
        let (said, step) = enqueue_one(&mut self.sessions, session, text);
        settle(&mut self.rows, session, "", step.fate);
        self.refused = count_more(self.refused, step.refused);
        said
    }

    /// Takes what is next for a session's client: a text, or the close. It takes no memory.
    pub fn take(&mut self, session: u32) -> Option<Out>
        ensures front { option_map meaning result
            ≡ option_and_then (λ a. slice_get a.state.notes 0) (attached_at self.old session) }
        ensures sessions { One session takes_front self.old self.new }
        ensures rest { SameRest self.old self.new }
        ensures turns { self.new.turns ≡ self.old.turns }
    {
        take_one(&mut self.sessions, session)
    }

    /// How many things wait for a session's client: the texts, and the close. It takes no memory.
    pub fn queue_len(&self, session: u32) -> usize
        ensures { result ≡ length (waits_in (attached_at self.now session)) }
    {
        match self.session(session) {
            None => 0,
            Some(session) => session.queue.len(),
        }
    }

    /// The text that a session's client takes next, if it is one. It takes no memory.
    pub fn front(&self, session: u32) -> Option<&str>
        ensures { option_map (λ t. t.now) result
            ≡ first_text (waits_in (attached_at self.now session)) }
    {
        match self.session(session) {
            None => None,
            Some(session) => session.queue.front(),
        }
    }

    /// The number of a session that has got something to send since it was last named, each once, the longest waiting first.
    /// No session changes. It takes no memory.
    pub fn next_with_output(&mut self) -> Option<u32>
        ensures waiting { IfSome result (λ k. waits_in (attached_at self.old k) ≢ []) }
        ensures next { IsNextTurn (attached_at self.old) self.old.turns self.new.turns result }
        ensures same { self.new ≡ record self.old { turns = self.new.turns } }
    {
        next_in(&mut self.pending, &self.sessions)
    }
}

/// Says a text to one session's client.
fn enqueue_one(sessions: &mut Sessions, number: u32, text: String) -> (Queued, Step)
    ensures said { result.0 ≡ queued_in (attached_in sessions.new number) }
    ensures here { ActsIn number result.1 (says_one (string_bytes text)) sessions.old sessions.new }
    ensures others { OthersStayIn number sessions.old sessions.new }
    ensures offs { EndsIn number result.1.fate [] sessions.old sessions.new }
{
    match sessions.get_mut(number) {
        None => (Queued::Gone, Step::none()),
        Some(session) => {
            let step = session.tell(text);
            if session.queue.is_closed() {
                (Queued::Closed, step)
            } else {
                (Queued::Kept, step)
            }
        }
    }
}

/// Takes what is next for one session's client.
fn take_one(sessions: &mut Sessions, number: u32) -> Option<Out>
    ensures front { option_map meaning result
        ≡ option_and_then (λ a. slice_get a.state.notes 0) (attached_in sessions.old number) }
    ensures here { MovesIn number takes_front sessions.old sessions.new }
    ensures others { OthersStayIn number sessions.old sessions.new }
{
    match sessions.get_mut(number) {
        None => None,
        Some(session) => session.queue.take(),
    }
}

/// The first pending number of a session for whose client something waits. It and those before it are no longer pending.
fn next_in(pending: &mut Pending, sessions: &Sessions) -> Option<u32>
    ensures { IsNextTurn (attached_in sessions.now) pending.old pending.new result }
{
    while let Some(number) = pending.take() {
        if has_output(sessions, number) {
            return Some(number);
        }
    }
    None
}

/// Whether something waits for one session's client.
fn has_output(sessions: &Sessions, number: u32) -> bool
    ensures { result ≡ is_waiting (waits_in (attached_in sessions.now number)) }
{
    match sessions.get(number) {
        None => false,
        Some(session) => !session.queue.is_empty(),
    }
}

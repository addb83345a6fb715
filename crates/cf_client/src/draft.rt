//! What the replies and pushes of a text make of a client, before any of it is carried out.
ghost use Rattle.std.specs.Prelude.{◌≡◌, ◌++◌, [], ◌∷◌, List, ℕ, Some, None, false, true, IsSome, map, option_map, IfOk, IfSome, IfNone, OnOk, string_bytes, length};
ghost use Rattle.cf_protocol.specs.Outgoing as sent;
ghost use Rattle.cf_protocol.specs.Shown.{shown_outgoing, shown_outcome, shown_pushed};
ghost use Rattle.cf_client.specs.ClientCalls.{answered, asks_under, channel_under, moves, AnswersCall, TakesAll, Takes, TakesAnswer, TakesPush};
ghost use Rattle.cf_client.specs.AppItem as item;
ghost use Rattle.cf_client.specs.Draft.{Drafts, drafted, drafted_code, drafted_mode};
ghost use Rattle.cf_client.specs.Shown.{shown_item, shown_mode, known_state};
ghost use Rattle.cf_client.specs.declared.known.Known.{Known as CodeKnown};
ghost use Rattle.std.specs.BTreeMap.{get_by_text};

use crate::calls::channel_called;
use crate::channels::{Mode, put_mode, set_mode};
use crate::event::{AppEvent, pass_all, passed};
use crate::known::Known;
use cf_protocol::{Outcome, Outgoing, Position, Publication, Pushed};
use std::alloc::{AllocError, Global};
use std::collections::BTreeMap;

/// From this code of an unsubscribe push on the client has to ask again.
const ASKS_AGAIN: u32 = 2500;

/// What is to change of what a client knows, the modes of channels that it asked for and the calls that are answered; and what
/// its application gets then.
#[derive(Drop)]
pub(crate) struct Draft {
    changed: BTreeMap<String, Mode>,
    answered: Vec<u32>,
    events: Vec<AppEvent>,
    alloc: Global,
}

/// What the replies and pushes of a text make of what a client knows, taken one after another.
pub(crate) fn draft_of(
    alloc: Global,
    known: &Known,
    outgoings: Vec<Outgoing>,
) -> Result<Draft, AllocError>
    ensures { IfOk result (λ d. TakesAll (map shown_outgoing outgoings.items)
        (known_state known.now) (drafted known.now d) (map shown_item d.events.items)) }
{
    let mut draft = Draft {
        changed: BTreeMap::new(alloc),
        answered: Vec::new(alloc),
        events: Vec::new(alloc),
        alloc,
    };
    for outgoing in outgoings {
        draft.take(known, outgoing)?;
    }
    Ok(draft)
}

impl Draft {
    /// Carries the changes out, and gives what the application gets. It takes no memory.
    pub(crate) fn carry_out(self, known: &mut Known) -> Vec<AppEvent>
        ensures state { known_state known.new ≡ drafted known.old self }
        ensures events { result ≡ self.events }
    {
        let Draft {
            mut changed,
            answered,
            events,
            ..
        } = self;
        known.calls.retain(|call| !answered.contains(&call.id));
        while let Some((channel, mode)) = changed.pop_last() {
            set_mode(&mut known.channels, channel.as_str(), mode);
        }
        events
    }

    /// What the client is then doing on a channel.
    fn mode_at(&self, known: &Known, channel: &str) -> Mode
        ensures { shown_mode result ≡ drafted_mode known.now.channels self.now.changed channel.now }
    {
        let Some(mode) = known.channels.get(channel) else {
            return Mode::Idle { last: None };
        };
        match self.changed.get(channel) {
            None => *mode,
            Some(changed) => *changed,
        }
    }

    /// The channel that then waits for the answer to the command of this id.
    fn channel_asking<'k>(&self, known: &'k Known, id: u32) -> Option<&'k str>
        ensures some { IfSome result (λ name.
            asks_under id (drafted_mode known.now.channels self.now.changed name.now) ≡ true) }
        ensures none { IfNone result ((c : List ℕ)
            → asks_under id (drafted_mode known.now.channels self.now.changed c) ≡ false) }
    {
        for (channel, _mode) in &known.channels {
            let name = channel.as_str();
            if self.mode_at(known, name).is_asking(id) {
                return Some(name);
            }
        }
        None
    }

    /// Tells the application.
    fn tell(&mut self, event: AppEvent) -> Result<(), AllocError>
        ensures told { OnOk result (self.new.events.items ≡ self.old.events.items ++ event ∷ []) }
        ensures same { self.new ≡ record self.old { events = self.new.events } }
    {
        self.events.push(event)?;
        Ok(())
    }

    /// Changes the mode of a channel.
    fn put(&mut self, channel: &str, mode: Mode) -> Result<(), AllocError>
        ensures events { self.new.events ≡ self.old.events }
        ensures moved { OnOk result ((k : CodeKnown) → IsSome (get_by_text k.channels channel.now)
            → drafted k self.new ≡ moves channel.now (shown_mode mode) (drafted k self.old)) }
    {
        put_mode(&mut self.changed, self.alloc, channel, mode)
    }

    /// The call of this id is no longer out. Gives its channel.
    fn answer_call<'k>(&mut self, known: &'k Known, id: u32) -> Result<Option<&'k str>, AllocError>
        ensures found { IfOk result (λ found. option_map (λ c. c.now) found
            ≡ channel_under id (drafted known.now self.old).out) }
        ensures answered { OnOk result (drafted known.now self.new
            ≡ answered id (drafted known.now self.old)) }
        ensures events { self.new.events ≡ self.old.events }
    {
        let found = if self.answered.contains(&id) {
            None
        } else {
            channel_called(&known.calls, id)
        };
        self.answered.push(id)?;
        Ok(found)
    }

    fn take(&mut self, known: &Known, outgoing: Outgoing) -> Result<(), AllocError>
        ensures { OnOk result (Drafts known.now (Takes (shown_outgoing outgoing))
            self.old self.new) }
    {
        match outgoing {
            Outgoing::Ping => self.tell(AppEvent::PongDue),
            Outgoing::Answer { id, outcome } => self.take_answer(known, id, outcome),
            Outgoing::Push { channel, push } => match push {
                Pushed::Publication(publication) => self.publication(known, channel, publication),
                Pushed::Unsubscribe { code } => self.unsubscribed(known, channel, code),
            },
        }
    }

    fn take_answer(&mut self, known: &Known, id: u32, outcome: Outcome) -> Result<(), AllocError>
        ensures { OnOk result (Drafts known.now (TakesAnswer id (shown_outcome outcome))
            self.old self.new) }
    {
        match outcome {
            Outcome::Subscribed {
                position,
                publications,
                recovered,
                was_recovering,
            } => self.subscribed(
                known,
                id,
                &position,
                publications,
                recovered,
                was_recovering,
            ),
            Outcome::Failed { code } => self.failed(known, id, code),
            Outcome::Past {
                position,
                publications,
            } => self.listed(known, id, &position, publications.len()),
            Outcome::Published => {
                self.answer_call(known, id)?;
                Ok(())
            }
            Outcome::Connected { .. } => Ok(()),
            Outcome::Unsubscribed => Ok(()),
            Outcome::Present { .. } => Ok(()),
            Outcome::Counted { .. } => Ok(()),
            Outcome::Pinged => Ok(()),
        }
    }

    /// A reply to a subscribe: the channel that asks under its id goes live.
    fn subscribed(
        &mut self,
        known: &Known,
        id: u32,
        position: &Position,
        publications: Vec<Publication>,
        recovered: bool,
        was_recovering: bool,
    ) -> Result<(), AllocError>
        ensures { OnOk result (Drafts known.now
            (TakesAnswer id
            (sent.Subscribed position.now publications.items recovered was_recovering))
            self.old self.new) }
    {
        let Some(channel) = self.channel_asking(known, id) else {
            return Ok(());
        };
        self.put(channel, Mode::Live { at: *position })?;
        let name = String::from_str(self.alloc, channel)?;
        self.tell(AppEvent::Subscribed {
            channel: name,
            was_recovering,
            recovered,
            position: *position,
        })?;
        pass_all(channel, position, publications, &mut self.events)
    }

    /// An error reply: the channel that asks under its id is idle, or a call is answered.
    fn failed(&mut self, known: &Known, id: u32, code: u32) -> Result<(), AllocError>
        ensures { OnOk result (Drafts known.now (TakesAnswer id (sent.Failed code))
            self.old self.new) }
    {
        let refused = match self.channel_asking(known, id) {
            Some(channel) => {
                let mode = self.mode_at(known, channel).idle();
                self.put(channel, mode)?;
                Some(channel)
            }
            None => self.answer_call(known, id)?,
        };
        let Some(channel) = refused else {
            return Ok(());
        };
        let channel = String::from_str(self.alloc, channel)?;
        self.tell(AppEvent::Refused { channel, code })
    }

    /// The answer to a history.
    fn listed(
        &mut self,
        known: &Known,
        id: u32,
        position: &Position,
        count: usize,
    ) -> Result<(), AllocError>
        ensures { OnOk result (Drafts known.now
            (AnswersCall id (λ c. item.Listed c position.now count))
            self.old self.new) }
    {
        let Some(channel) = self.answer_call(known, id)? else {
            return Ok(());
        };
        let channel = String::from_str(self.alloc, channel)?;
        let position = *position;
        self.tell(AppEvent::Listed {
            channel,
            position,
            count,
        })
    }

    fn publication(
        &mut self,
        known: &Known,
        channel: String,
        publication: Publication,
    ) -> Result<(), AllocError>
        ensures { OnOk result (Drafts known.now
            (TakesPush (string_bytes channel) (sent.Publication publication))
            self.old self.new) }
    {
        let Mode::Live { at } = self.mode_at(known, channel.as_str()) else {
            return Ok(());
        };
        let epoch = at.epoch;
        let offset = publication.offset;
        let live = Mode::Live {
            at: Position { epoch, offset },
        };
        self.put(channel.as_str(), live)?;
        self.tell(passed(channel, epoch, publication))
    }

    fn unsubscribed(&mut self, known: &Known, channel: String, code: u32) -> Result<(), AllocError>
        ensures { OnOk result (Drafts known.now
            (TakesPush (string_bytes channel) (sent.Unsubscribe code))
            self.old self.new) }
    {
        let Mode::Live { at } = self.mode_at(known, channel.as_str()) else {
            return Ok(());
        };
        let idle = Mode::Idle { last: Some(at) };
        self.put(channel.as_str(), idle)?;
        if code >= ASKS_AGAIN {
            self.tell(AppEvent::Resubscribing { channel, code })
        } else {
            Ok(())
        }
    }
}

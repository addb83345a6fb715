//! One client's session on a node of its own.
ghost use Rattle.std.specs.Prelude.{◌≡◌, false, true, IfOk, OnErr, OnOk, option_map, slice_get, string_bytes};
ghost use Rattle.cf_protocol.specs.Outgoing.{Past};
ghost use Rattle.cf_hub.specs.Hub.{attached_at};
ghost use Rattle.cf_queue.specs.Meaning.{meaning};
ghost use Rattle.cf_stream.specs.Streams.{stream_of};
ghost use Rattle.cf_session.specs.SessionMachine.{reply_text};
ghost use Rattle.cf_speak.specs.Scene.{met_refused_memory, member, notes_in, opening};
ghost use Rattle.cf_speak.specs.Conversation.{Takes};
ghost use Rattle.cf_speak.specs.Shown.{is_memory, scene_of};
ghost use Rattle.cf_speak.specs.Steps.{SaysAndBrings, brings_due, brings_newest, client_in, enters_now};

use crate::epochs::GivenEpochs;
use cf_hub::Hub;
use cf_presence::{Presence, PresenceError, Stats};
use cf_protocol::{CloseCode, ErrorCode, Namespaces, Outcome, Position};
use cf_queue::Out;
use cf_session::{CommandExecutor, Publish, hub_error, presence_error, reply_text, stream_error};
use cf_stream::{History, StreamRefusal, Streams};
use std::alloc::{AllocError, Global};
use std::collections::BTreeMap;

/// The moment of all that happens, in seconds.
const NOW: u64 = 0;

/// A node with the session of one client, and with streams and presence of its own. A publication of the client is
/// brought to the node right after the reply to its command; a publish that repeats one brings nothing.
#[derive(Drop)]
pub struct LocalNode {
    hub: Hub,
    streams: Streams,
    presence: Presence,
    epochs: GivenEpochs,
    number: Option<u32>,
    turned_away: Option<CloseCode>,
    due: Option<String>,
    is_short: bool,
    alloc: Global,
}

impl LocalNode {
    /// Node 0 at its first start, on which nothing has happened. New streams are given these epochs.
    pub fn new(
        alloc: Global,
        namespaces: &Namespaces,
        epochs: GivenEpochs,
    ) -> Result<LocalNode, AllocError>
        ensures { IfOk result (λ s. scene_of s ≡ opening namespaces.now epochs) }
    {
        let streams = Streams::new(alloc, namespaces)?;
        Ok(LocalNode {
            hub: Hub::new(alloc, 0, 1),
            streams,
            presence: Presence::new(alloc),
            epochs,
            number: None,
            turned_away: None,
            due: None,
            is_short: false,
            alloc,
        })
    }

    /// Whether one of its calls met a refused request for memory.
    pub fn is_out_of_memory(&self) -> bool
        ensures { result ≡ met_refused_memory (scene_of self.now) }
    {
        self.is_short || self.hub.short()
    }

    /// The code with which the session was closed before it was attached.
    pub fn turned_away(&self) -> Option<CloseCode>
        ensures { result ≡ (scene_of self.now).turned_away }
    {
        self.turned_away
    }

    /// What is next for the client: a text, or the close by its code.
    pub fn take(&mut self) -> Option<Out>
        ensures front { option_map meaning result
            ≡ slice_get (notes_in (member (scene_of self.old))) 0 }
        ensures step { Takes (scene_of self.old) (scene_of self.new) }
    {
        match self.number {
            Some(number) => self.hub.take(number),
            None => None,
        }
    }

    // A text goes to the client, and then what it published.
    fn tell(&mut self, text: String)
        ensures short { met_refused_memory (scene_of self.old) ≡ true
            → met_refused_memory (scene_of self.new) ≡ true }
        ensures says { met_refused_memory (scene_of self.new) ≡ false
            → SaysAndBrings (string_bytes text) (scene_of self.old) (scene_of self.new) }
        ensures streams { (scene_of self.new).streams ≡ (scene_of self.old).streams }
    {
        let due = self.due.take();
        let Some(number) = self.number else {
            bring_due(&mut self.hub, &self.streams, due);
            return;
        };
        self.hub.say(number, text);
        bring_due(&mut self.hub, &self.streams, due);
    }

    // So does the reply to a history.
    fn tell_history(&mut self, id: u32, history: History) -> Result<(), ErrorCode>
        ensures short { met_refused_memory (scene_of self.old) ≡ true
            → met_refused_memory (scene_of self.new) ≡ true }
        ensures says { OnOk result (met_refused_memory (scene_of self.new) ≡ false
            → SaysAndBrings (reply_text id (Past history.position history.publications.items))
            (scene_of self.old) (scene_of self.new)) }
        ensures err { OnErr result (met_refused_memory (scene_of self.new) ≡ true) }
        ensures streams { (scene_of self.new).streams ≡ (scene_of self.old).streams }
    {
        let outcome = Outcome::Past {
            position: history.position,
            publications: history.publications,
        };
        match reply_text(self.alloc, id, outcome) {
            Ok(text) => {
                self.tell(text);
                Ok(())
            }
            Err(_) => {
                self.is_short = true;
                Err(ErrorCode::Internal)
            }
        }
    }
}

// The client id of a session.
fn client_in(hub: &Hub, number: u32) -> &str
    ensures { result.now ≡ client_in (attached_at hub.now number) }
{
    match hub.client_id(number) {
        Some(client) => client,
        None => "",
    }
}

fn client_of(hub: &Hub, alloc: Global, number: u32) -> Result<String, AllocError>
    ensures { IfOk result (λ client. string_bytes client ≡ client_in (attached_at hub.now number)) }
{
    String::from_str(alloc, client_in(hub, number))
}

// The client of a session is present in a channel.
fn enter(
    hub: &Hub,
    presence: &mut Presence,
    number: u32,
    channel: &str,
) -> Result<(), PresenceError>
    ensures { OnOk result
        (presence.new ≡ enters_now channel.now (attached_at hub.now number) presence.old) }
{
    match (hub.client_id(number), hub.user(number)) {
        (Some(client), Some(user)) => presence.enter(channel, client, user, NOW),
        _ => Ok(()),
    }
}

// Brings what is due to the hub.
fn bring_due(hub: &mut Hub, streams: &Streams, due: Option<String>)
    ensures brings { hub.new.refused ≡ 0
        → brings_due (option_map string_bytes due) streams.now hub.old hub.new }
    ensures short { hub.new.refused ≡ 0 → hub.old.refused ≡ 0 }
{
    match due {
        Some(channel) => bring_newest(hub, streams, channel.as_str()),
        None => {}
    }
}

// Brings the newest publication of a channel to the hub.
fn bring_newest(hub: &mut Hub, streams: &Streams, channel: &str)
    ensures brings { hub.new.refused ≡ 0
        → brings_newest channel.now (stream_of streams.now channel.now) hub.old hub.new }
    ensures short { hub.new.refused ≡ 0 → hub.old.refused ≡ 0 }
{
    let Some(position) = streams.position(channel) else {
        return;
    };
    let Some(publication) = streams.last(channel) else {
        return;
    };
    hub.deliver(channel, &position.epoch, publication);
}

fn is_memory(refusal: &StreamRefusal) -> bool
    ensures { result ≡ is_memory refusal.now }
{
    match refusal {
        StreamRefusal::Memory => true,
        _ => false,
    }
}

impl CommandExecutor for LocalNode {
    ghost use Rattle.cf_speak.specs.Scene.{is_over};
    ghost use Rattle.cf_speak.specs.Shown.{scene_of};
    ghost use Rattle.cf_speak.specs.Steps.{StepUnlessShort};

    ghost namespaces = { λ s. (scene_of s).streams.namespaces };

    ghost closed = { λ s. is_over (scene_of s) };

    ghost does = { λ old act answer new. StepUnlessShort (scene_of old) act answer (scene_of new) };

    fn is_closed(&self) -> bool {
        match self.number {
            Some(number) => self.hub.is_closed(number),
            None => self.turned_away.is_some(),
        }
    }

    fn attach(&mut self, user: String) -> Result<String, ErrorCode> {
        if self.number.is_some() {
            return Err(ErrorCode::Internal);
        }
        match self.hub.attach(user, NOW) {
            Ok(number) => {
                self.number = Some(number);
                match client_of(&self.hub, self.alloc, number) {
                    Ok(client) => Ok(client),
                    Err(_) => {
                        self.is_short = true;
                        Err(ErrorCode::Internal)
                    }
                }
            }
            Err(refusal) => Err(hub_error(&refusal)),
        }
    }

    fn begin(&mut self, channel: &str, id: u32, since: Option<Position>) -> Result<(), ErrorCode> {
        let Some(number) = self.number else {
            return Err(ErrorCode::Internal);
        };
        match self.hub.begin(number, channel, id, since) {
            Ok(()) => Ok(()),
            Err(refusal) => Err(hub_error(&refusal)),
        }
    }

    fn read(&mut self, channel: &str, since: Option<Position>) -> Result<(), ErrorCode> {
        let Some(number) = self.number else {
            return Err(ErrorCode::Internal);
        };
        match self.streams.read(&mut self.epochs, channel, since, NOW) {
            Ok(recovery) => {
                self.hub.read_done(number, channel, recovery);
                Ok(())
            }
            Err(refusal) => {
                self.is_short |= is_memory(&refusal);
                Err(stream_error(&refusal))
            }
        }
    }

    // The subscription is finished, and if it stands then, its client is present.
    fn finish(&mut self, channel: String) {
        let Some(number) = self.number else {
            return;
        };
        self.hub.finish(number, channel.as_str());
        if !self.hub.is_subscribed(number, channel.as_str()) {
            return;
        }
        self.is_short |= enter(&self.hub, &mut self.presence, number, channel.as_str()).is_err();
    }

    fn leave(&mut self, channel: &str) {
        let Some(number) = self.number else {
            return;
        };
        self.hub.leave(number, channel);
        self.presence.leave(channel, client_in(&self.hub, number));
    }

    // What a publish brings is due after its reply. A repeat brings nothing.
    fn publish(&mut self, publish: Publish) -> Result<(), ErrorCode> {
        let Publish {
            channel,
            key,
            body,
            info,
        } = publish;
        match self.streams.publish(
            &mut self.epochs,
            channel.as_str(),
            body,
            key,
            Some(info),
            NOW,
        ) {
            Ok(published) => {
                if published.repeated {
                    return Ok(());
                }
                self.due = Some(channel);
                Ok(())
            }
            Err(refusal) => {
                self.is_short |= is_memory(&refusal);
                Err(stream_error(&refusal))
            }
        }
    }

    fn history(
        &mut self,
        channel: &str,
        id: u32,
        limit: i32,
        since: Option<Position>,
    ) -> Result<(), ErrorCode> {
        match self
            .streams
            .history(&mut self.epochs, channel, since, limit, NOW)
        {
            Ok(history) => self.tell_history(id, history),
            Err(refusal) => {
                self.is_short |= is_memory(&refusal);
                Err(stream_error(&refusal))
            }
        }
    }

    fn presence(&mut self, channel: &str) -> Result<BTreeMap<String, String>, ErrorCode> {
        match self.presence.list(channel) {
            Ok(clients) => Ok(clients),
            Err(refusal) => {
                self.is_short = true;
                Err(presence_error(&refusal))
            }
        }
    }

    fn stats(&mut self, channel: &str) -> Stats {
        self.presence.stats(channel)
    }

    fn say(&mut self, text: String) {
        self.tell(text);
    }

    fn pong(&mut self) {
        if let Some(number) = self.number {
            self.hub.pong(number);
        }
    }

    fn close(&mut self, code: CloseCode) {
        match self.number {
            Some(number) => self.hub.close(number, code.code()),
            None => self.turned_away = Some(code),
        }
    }
}

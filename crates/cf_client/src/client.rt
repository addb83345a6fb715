//! A client of one node, as an application uses it.
ghost use Rattle.std.specs.Prelude.{◌≡◌, ◌++◌, List, ℕ, [], None, false, true, map, option_map, IfOk, IfErr, OnOk, OnErr, length};
ghost use Rattle.cf_protocol.specs.Frame.{IsReplies};
ghost use Rattle.cf_protocol.specs.Outgoing as sent;
ghost use Rattle.cf_protocol.specs.Regular.{IsFrom};
ghost use Rattle.cf_protocol.specs.Request as request;
ghost use Rattle.cf_protocol.specs.Shown.{shown_request};
ghost use Rattle.cf_model.specs.Clients.{is_idle};
ghost use Rattle.cf_client.specs.ClientCalls.{new_state, connected, asked, left, called, reconnected, RefusedBy, connect_fault, call_fault, ask_fault, leave_fault, TakesAll};
ghost use Rattle.cf_client.specs.ClientView.{state_of};
ghost use Rattle.cf_client.specs.OneAnswer.{AreApart};
ghost use Rattle.cf_client.specs.Shown.{shown_item, TextRefused};
ghost use Rattle.cf_client.specs.Texts.{IsCommand, IsNextCommand, last_at};

use crate::calls::Call;
use crate::channels::{Mode, make_idle, mode_at, put_mode, set_mode};
use crate::draft::draft_of;
use crate::event::AppEvent;
use crate::fault::ClientFault;
use crate::known::Known;
use crate::text::command_text;
use cf_protocol::{Data, Position, ReadFault, Request, read_replies};
use std::alloc::{AllocError, Global};
use std::collections::BTreeMap;
use std::marker::Model;

/// The id of the connect command, from which ids count on each connection.
const CONNECT_ID: u32 = 1;

/// A client of one node: what it knows of its channels, and the commands that aren't answered yet. It looks for no gap and no
/// repeat in what it is sent.
pub struct Client {
    known: Known,
    alloc: Global,
}

// By field, so that what owns a client isn't proved to drop each part of its parts once more.
impl Drop for Client {
    fn drop(self) {
        let Client { known: _, alloc: _ } = self;
    }
}

impl Model for Client {
    ghost use Rattle.cf_client.specs.ClientView.{ClientView};
    ghost use Rattle.cf_client.specs.OneAnswer.{AreApart};
    ghost use Rattle.cf_client.specs.Shown.{view_of, known_state};

    ghost Value = { ClientView };

    ghost view = { λ k. view_of k.known };

    ghost invariant = { λ k. AreApart (known_state k.known).client };
}

impl Client {
    /// A client that isn't connected, and has asked for no channel.
    pub fn new(alloc: Global) -> Client
        ensures { state_of result ≡ new_state }
    {
        let known = Known {
            channels: BTreeMap::new(alloc),
            calls: Vec::new(alloc),
            is_connected: false,
            last_id: CONNECT_ID,
        };
        Client { known, alloc }
    }

    /// The text of the connect command, whose id is 1.
    ///
    /// # Errors
    ///
    /// `NotNow` while connected, which is from `connect` to `reconnect`; `Memory`.
    pub fn connect(&mut self, token: &str) -> Result<String, ClientFault>
        ensures text { IfOk result (IsCommand 1 (request.Connect token.now)) }
        ensures ok { OnOk result (state_of self.new ≡ connected (state_of self.old)) }
        ensures refused { RefusedBy (connect_fault (state_of self.old)) result }
        ensures err { OnErr result (state_of self.new ≡ state_of self.old) }
    {
        if self.known.is_connected {
            return Err(ClientFault::NotNow);
        }
        let token = String::from_str(self.alloc, token)?;
        let text = command_text(self.alloc, CONNECT_ID, Request::Connect { token })?;
        self.known.is_connected = true;
        Ok(text)
    }

    /// What always holds of a client: the ids that are out are older than the next one, no two channels ask under one, and no
    /// ask has that of a call.
    pub fn invariant(&self)
        ensures { AreApart (state_of self.now).client }
    {
        let _known = &self.known;
    }

    /// Whether a channel is idle: the client has not asked for it, or its subscription ended.
    pub fn is_idle(&self, channel: &str) -> bool
        ensures { result ≡ is_idle ((state_of self.now).client.modes channel.now) }
    {
        matches!(mode_at(&self.known.channels, channel), Mode::Idle { .. })
    }

    /// The last position that the client had on a channel: that of its last subscribe reply or publication there. In a command
    /// it is read back.
    pub fn position(&self, channel: &str) -> Option<Position>
        ensures last { result ≡ last_at self.now channel.now }
        ensures regular { IsFrom result }
    {
        let position = mode_at(&self.known.channels, channel).last()?;
        let _letters = position.epoch.as_str();
        Some(position)
    }

    /// The text of a subscribe command that asks for no recovery.
    ///
    /// # Errors
    ///
    /// `NotNow` while not connected, and if the channel isn't idle; `AtLastId` if no id is left; `Memory`.
    pub fn ask(&mut self, channel: &str) -> Result<String, ClientFault>
        ensures text { IfOk result (IsNextCommand self.old (request.Subscribe channel.now None)) }
        ensures ok { OnOk result (state_of self.new ≡ asked channel.now None (state_of self.old)) }
        ensures refused { RefusedBy (ask_fault channel.now (state_of self.old)) result }
        ensures err { OnErr result (state_of self.new ≡ state_of self.old) }
    {
        self.ask_since(channel, &None)
    }

    /// The text of a subscribe command that asks to go on from the channel's last position; without one it is that of `ask`.
    ///
    /// # Errors
    ///
    /// `NotNow` while not connected, and if the channel isn't idle; `AtLastId` if no id is left; `Memory`.
    pub fn ask_from(&mut self, channel: &str) -> Result<String, ClientFault>
        ensures text { IfOk result
            (IsNextCommand self.old
            (request.Subscribe channel.now (last_at self.old channel.now))) }
        ensures regular { IsFrom (last_at self.old channel.now) }
        ensures ok { OnOk result
            (state_of self.new
            ≡ asked channel.now (last_at self.old channel.now) (state_of self.old)) }
        ensures refused { RefusedBy (ask_fault channel.now (state_of self.old)) result }
        ensures err { OnErr result (state_of self.new ≡ state_of self.old) }
    {
        let from = self.position(channel);
        self.ask_since(channel, &from)
    }

    fn ask_since(&mut self, channel: &str, from: &Option<Position>) -> Result<String, ClientFault>
        ensures text { IfOk result
            (IsNextCommand self.old (request.Subscribe channel.now from.now)) }
        ensures ok { OnOk result
            (state_of self.new ≡ asked channel.now from.now (state_of self.old)) }
        ensures refused { RefusedBy (ask_fault channel.now (state_of self.old)) result }
        ensures err { OnErr result (state_of self.new ≡ state_of self.old) }
    {
        let Mode::Idle { last } = mode_at(&self.known.channels, channel) else {
            return Err(ClientFault::NotNow);
        };
        let id = self.next_id()?;
        let asking = Mode::Asking {
            id,
            from: *from,
            last,
        };
        let name = String::from_str(self.alloc, channel)?;
        let request = Request::Subscribe {
            channel: name,
            since: *from,
        };
        let text = command_text(self.alloc, id, request)?;
        put_mode(&mut self.known.channels, self.alloc, channel, asking)?;
        self.known.last_id = id;
        Ok(text)
    }

    /// The id of the next command. It takes no memory.
    ///
    /// # Errors
    ///
    /// `NotNow` while not connected; `AtLastId` if no id is left.
    pub fn next_id(&self) -> Result<u32, ClientFault>
        ensures ok { IfOk result (λ id. id ≡ (state_of self.now).client.fresh) }
        ensures may { OnOk result (call_fault (state_of self.now) ≡ None) }
        ensures err { IfErr result (λ fault. call_fault (state_of self.now) ≡ Some fault) }
    {
        if !self.known.is_connected {
            return Err(ClientFault::NotNow);
        }
        match self.known.last_id.checked_add(1) {
            Some(id) => Ok(id),
            None => Err(ClientFault::AtLastId),
        }
    }

    /// The text of an unsubscribe command. The channel is idle at once, and an answer to its ask that is still to come is
    /// passed over.
    ///
    /// # Errors
    ///
    /// `NotNow` while not connected, and if the channel is idle; `AtLastId` if no id is left; `Memory`.
    pub fn leave(&mut self, channel: &str) -> Result<String, ClientFault>
        ensures text { IfOk result (IsNextCommand self.old (request.Unsubscribe channel.now)) }
        ensures ok { OnOk result (state_of self.new ≡ left channel.now (state_of self.old)) }
        ensures refused { RefusedBy (leave_fault channel.now (state_of self.old)) result }
        ensures err { OnErr result (state_of self.new ≡ state_of self.old) }
    {
        if self.is_idle(channel) {
            return Err(ClientFault::NotNow);
        }
        let id = self.next_id()?;
        let name = String::from_str(self.alloc, channel)?;
        let text = command_text(self.alloc, id, Request::Unsubscribe { channel: name })?;
        let last = self.position(channel);
        set_mode(&mut self.known.channels, channel, Mode::Idle { last });
        self.known.last_id = id;
        Ok(text)
    }

    /// The text of a publish command without a key, whose data is `body`. The body is to be the compact text of a JSON value:
    /// the client doesn't look at it.
    ///
    /// # Errors
    ///
    /// `NotNow` while not connected; `AtLastId` if no id is left; `Memory`.
    pub fn put(&mut self, channel: &str, body: &str) -> Result<String, ClientFault>
        ensures text { IfOk result
            (IsNextCommand self.old (request.Publish channel.now [] (request.Body body.now))) }
        ensures ok { OnOk result (state_of self.new ≡ called channel.now (state_of self.old)) }
        ensures refused { RefusedBy (call_fault (state_of self.old)) result }
        ensures err { OnErr result (state_of self.new ≡ state_of self.old) }
    {
        self.put_key(channel, "", body)
    }

    /// The text of a publish command under a key, by which the node knows a repeat; the empty key is none. The client looks at
    /// the key as little as at the body.
    ///
    /// # Errors
    ///
    /// `NotNow` while not connected; `AtLastId` if no id is left; `Memory`.
    pub fn put_key(&mut self, channel: &str, key: &str, body: &str) -> Result<String, ClientFault>
        ensures text { IfOk result
            (IsNextCommand self.old (request.Publish channel.now key.now (request.Body body.now))) }
        ensures ok { OnOk result (state_of self.new ≡ called channel.now (state_of self.old)) }
        ensures refused { RefusedBy (call_fault (state_of self.old)) result }
        ensures err { OnErr result (state_of self.new ≡ state_of self.old) }
    {
        let id = self.next_id()?;
        let name = String::from_str(self.alloc, channel)?;
        let key = String::from_str(self.alloc, key)?;
        let body = String::from_str(self.alloc, body)?;
        let request = Request::Publish {
            channel: name,
            key,
            body: Data::Body(body),
        };
        let text = self.call(id, channel, request)?;
        Ok(text)
    }

    /// The text of a history command, for at most `limit` publications of a channel; a negative limit asks for as many as the
    /// node gives at once.
    ///
    /// # Errors
    ///
    /// `NotNow` while not connected; `AtLastId` if no id is left; `Memory`.
    pub fn list(&mut self, channel: &str, limit: i32) -> Result<String, ClientFault>
        ensures text { IfOk result
            (IsNextCommand self.old (request.History channel.now limit None false)) }
        ensures ok { OnOk result (state_of self.new ≡ called channel.now (state_of self.old)) }
        ensures refused { RefusedBy (call_fault (state_of self.old)) result }
        ensures err { OnErr result (state_of self.new ≡ state_of self.old) }
    {
        let id = self.next_id()?;
        let name = String::from_str(self.alloc, channel)?;
        let request = Request::History {
            channel: name,
            limit,
            since: None,
            reverse: false,
        };
        let text = self.call(id, channel, request)?;
        Ok(text)
    }

    /// The text of a publish or a history, which goes out under the next id.
    fn call(&mut self, id: u32, channel: &str, request: Request) -> Result<String, AllocError>
        requires { id ≡ (state_of self.old).client.fresh }
        ensures text { IfOk result (IsCommand id (shown_request request)) }
        ensures ok { OnOk result (state_of self.new ≡ called channel.now (state_of self.old)) }
        ensures err { OnErr result (state_of self.new ≡ state_of self.old) }
    {
        let text = command_text(self.alloc, id, request)?;
        let channel = String::from_str(self.alloc, channel)?;
        self.known.calls.push(Call { id, channel })?;
        self.known.last_id = id;
        Ok(text)
    }

    /// The connection is gone: every channel is idle, with its last position, and no answer is waited for. Then `connect`
    /// begins anew.
    pub fn reconnect(&mut self)
        ensures { state_of self.new ≡ reconnected (state_of self.old) }
    {
        make_idle(&mut self.known.channels);
        self.known.calls.clear();
        self.known.is_connected = false;
        self.known.last_id = CONNECT_ID;
    }

    /// What the application gets from a text of the node: its replies and pushes, taken in order. The client drops no
    /// publication of a live channel, and passes over pushes for other channels and answers that nothing waits for.
    ///
    /// # Errors
    ///
    /// `Bad` if the text is no frame of replies and pushes, whether the client is connected or not; `NotNow` if it is one,
    /// while not connected; `Memory`, which leaves the client as it was too: what takes memory comes before the first change. A
    /// text for which memory is refused while it is read is `Memory`, since nobody knows then whether it is `Bad`.
    pub fn on_text(&mut self, text: &str) -> Result<Vec<AppEvent>, ClientFault>
        ensures takes { IfOk result
            (λ es. (os : List sent.Outgoing) → IsReplies text.now os
            → TakesAll os (state_of self.old) (state_of self.new) (map shown_item es.items)) }
        ensures read { OnOk result ((os : List sent.Outgoing) × IsReplies text.now os) }
        ensures ok { OnOk result ((state_of self.old).connected ≡ true) }
        ensures refused { IfErr result (TextRefused text.now (state_of self.old).connected) }
        ensures err { OnErr result (state_of self.new ≡ state_of self.old) }
        ensures apart { AreApart (state_of self.old).client }
    {
        let outgoings = match read_replies(self.alloc, text) {
            Ok(outgoings) if self.known.is_connected => outgoings,
            Ok(_) => return Err(ClientFault::NotNow),
            Err(ReadFault::Bad) => return Err(ClientFault::Bad),
            Err(ReadFault::Memory) => return Err(ClientFault::Memory),
        };
        let draft = draft_of(self.alloc, &self.known, outgoings)?;
        let events = draft.carry_out(&mut self.known);
        Ok(events)
    }
}

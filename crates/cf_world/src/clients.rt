//! The clients by name, and where their sessions are.
ghost use Rattle.std.specs.Prelude.{◌≡◌, ℕ, List, Some, map, IfOk, OnOk, string_bytes, true};
ghost use Rattle.std.specs.BTreeMap.{get_by_text};
ghost use Rattle.cf_client.specs.Shown.{shown_item};
ghost use Rattle.cf_session.specs.Standing.{is_idle};
ghost use Rattle.cf_world.specs.ClientTie.{Heard, Joins, LeavesNode, ClearsAddress, state_before};
ghost use Rattle.cf_world.specs.declared.clients.Peer.{Peer as AnyPeer};

use crate::client_command::ClientCommand;
use crate::out_of_memory::Short;
use crate::stepping::greet;
use cf_client::{AppEvent, Client, ClientFault};
use cf_protocol::laws::commands_read_back;
use cf_session::Session;
use std::alloc::Global;
use std::collections::BTreeMap;

/// Where a session is: its node, and its number there.
#[derive(Clone, Copy, PartialEq, Eq)]
pub struct SessionAddress {
    /// The node's number.
    pub node: u8,
    /// The session's number in the node's hub.
    pub session: u32,
}

/// A client, and where its session is while it is connected. The node's part of that session, which reads the client's
/// texts, is the one that it has now, or had last.
#[derive(Drop)]
pub(crate) struct Peer<'a> {
    pub(crate) client: Client,
    pub(crate) address: Option<SessionAddress>,
    pub(crate) session: Session<'a>,
}

/// A client connects, and sits here; one that was never seen comes new.
pub(crate) fn join<'a>(
    alloc: Global,
    clients: &mut BTreeMap<String, Peer<'a>>,
    name: &str,
    address: SessionAddress,
    session: Session<'a>,
    id: String,
) -> Result<(), Short>
    requires { is_idle session ≡ true }
    ensures { OnOk result
        (Joins name.now address (string_bytes id) session.entry (state_before (get_by_text clients.old name.now))
        (get_by_text clients.old) (get_by_text clients.new)) }
{
    if let Some(peer) = clients.get_mut(name) {
        peer.session = session;
        return peer.join(address, id);
    }
    let key = String::from_str(alloc, name)?;
    let client = Client::new(alloc);
    let mut peer = Peer {
        client,
        address: None,
        session,
    };
    peer.join(address, id)?;
    clients.insert(key, peer)?;
    Ok(())
}

/// The connection of a client is gone.
pub(crate) fn clear_address(clients: &mut BTreeMap<String, Peer<'_>>, name: &str)
    ensures { (p : AnyPeer) → get_by_text clients.old name.now ≡ Some p
        → ClearsAddress name.now p (get_by_text clients.old) (get_by_text clients.new) }
{
    if let Some(peer) = clients.get_mut(name) {
        peer.break_off();
    }
}

/// The connections to a node are gone.
pub(crate) fn clear_addresses(clients: &mut BTreeMap<String, Peer<'_>>, node: u8)
    ensures { (y : List ℕ)
        → LeavesNode node (get_by_text clients.old y) (get_by_text clients.new y) }
{
    clients.retain(|_name, peer| {
        peer.leave_node(node);
        true
    });
}

/// A client takes a text.
pub(crate) fn hear(
    alloc: Global,
    clients: &mut BTreeMap<String, Peer<'_>>,
    name: &str,
    text: &str,
) -> Result<Vec<AppEvent>, Short>
    ensures { IfOk result (λ told. (p : AnyPeer) → get_by_text clients.old name.now ≡ Some p
        → Heard name.now text.now p (get_by_text clients.old) (get_by_text clients.new)
        (map shown_item told.items)) }
{
    let Some(peer) = clients.get_mut(name) else {
        return Ok(Vec::new(alloc));
    };
    match peer.client.on_text(text) {
        Ok(events) => Ok(events),
        Err(_) => Err(Short),
    }
}

impl Peer<'_> {
    ghost use Rattle.std.specs.Prelude.{◌≡◌, IfOk, OnOk, OnErr, None, Some, string_bytes, true};
    ghost use Rattle.cf_session.specs.Standing.{is_idle};
    ghost use Rattle.cf_protocol.specs.Written.{command_text};
    ghost use Rattle.cf_client.specs.ClientCalls.{RefusedBy, connected, reconnected};
    ghost use Rattle.cf_client.specs.ClientView.{state_of};
    ghost use Rattle.cf_client.specs.OneAnswer.{AreApart};
    ghost use Rattle.cf_machine.specs.ClientRequest.{command_of};
    ghost use Rattle.cf_world.specs.ClientTie.{AsksFrom, LeavesAs, Meets, request_by, send_fault};
    ghost use Rattle.cf_world.specs.ClientTie.{sent_state};
    ghost use Rattle.cf_world.specs.Exchange.{sent_by};

    fn break_off(&mut self)
        ensures state { state_of self.new.client ≡ reconnected (state_of self.old.client) }
        ensures address { self.new.address ≡ None }
        ensures session { self.new.session ≡ self.old.session }
    {
        self.client.reconnect();
        self.address = None;
    }

    fn leave_node(&mut self, node: u8)
        ensures { LeavesAs node self.old self.new }
    {
        if let Some(address) = self.address
            && address.node == node
        {
            self.break_off();
        }
    }

    // The client connects here, and its session, which is new, hears the text and is attached under this id. The reply
    // is no news to the client.
    fn join(&mut self, address: SessionAddress, id: String) -> Result<(), Short>
        requires { is_idle self.old.session ≡ true }
        ensures state { OnOk result (state_of self.new.client
            ≡ connected (state_of self.old.client)) }
        ensures address { OnOk result (self.new.address ≡ Some address) }
        ensures session { OnOk result (Meets (string_bytes id) self.old.session self.new.session) }
    {
        commands_read_back();
        let Ok(text) = self.client.connect("") else {
            return Err(Short);
        };
        let Some(_reply) = greet(&mut self.session, text.as_str(), id)? else {
            return Err(Short);
        };
        self.address = Some(address);
        Ok(())
    }

    /// What a client sends. It can't if the channel isn't idle, or is, or its ids are used up.
    pub(crate) fn send(&mut self, command: &ClientCommand<'_>) -> Result<String, ClientFault>
        ensures text { IfOk result (λ t. string_bytes t
            ≡ command_text (command_of (sent_by command.now self.old))) }
        ensures ok { OnOk result (state_of self.new.client
            ≡ sent_state (request_by command.now (state_of self.old.client).client)
            (state_of self.old.client)) }
        ensures refused { RefusedBy (send_fault command.now (state_of self.old.client)) result }
        ensures err { OnErr result (state_of self.new.client ≡ state_of self.old.client) }
        ensures address { self.new.address ≡ self.old.address }
        ensures session { self.new.session ≡ self.old.session }
        ensures apart { AreApart (state_of self.old.client).client }
        ensures since { AsksFrom (request_by command.now (state_of self.old.client).client) }
    {
        self.client.invariant();
        match command {
            ClientCommand::Ask { channel } => self.client.ask(channel),
            ClientCommand::AskFrom { channel } => self.client.ask_from(channel),
            ClientCommand::Leave { channel } => self.client.leave(channel),
            ClientCommand::Put { channel, key, body } => self.client.put_key(channel, key, body),
            ClientCommand::List { channel, limit } => self.client.list(channel, *limit),
        }
    }
}

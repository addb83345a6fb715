//! The world of a schedule, event by event.
ghost use Rattle.std.specs.Prelude.{◌≡◌, ◌≢◌, ◌+◌, ℕ, List, IfOk, IsErr, IsTrue, OnOk, false, is_err, option_copied};
ghost use Rattle.cf_machine.specs.World.{start};
ghost use Rattle.cf_schedule.specs.Seen.{seen, shown_config};
ghost use Rattle.cf_world.specs.Tie.{GoesOn, Tied, Writes, client_of, hub_of, address_at, streams_of};

use crate::config::Config;
use crate::event::Event;
use crate::name::key_text;
use cf_client::Client;
use cf_hub::Hub;
use cf_stream::Streams;
use cf_world::{Entry, SessionAddress, Short, WorldParts};
use std::alloc::Global;
use std::marker::Model;

/// The broker, the nodes and all clients, and how many events were carried out. Once a part of it found no memory it
/// carries out nothing more.
#[derive(Drop)]
pub struct World<'a> {
    parts: WorldParts<'a>,
    count: usize,
    is_short: bool,
    alloc: Global,
}

impl<'a> Model for World<'a> {
    ghost use Rattle.cf_schedule.specs.Running.{Running};
    ghost use Rattle.cf_world.specs.contracts.world.WorldParts as world;
    ghost use Rattle.std.specs.Coded.{codes};
    ghost use denote.Signature.{static_lft};

    ghost Value = { Running };

    ghost coded = { Prim.hlevel (codes, (world.the_row static_lft).coded) };

    ghost view = { λ w. record { parts = w.parts; count = w.count; is_short = w.is_short } };
}

impl<'a> World<'a> {
    /// A world in which nothing has happened.
    pub fn new(alloc: Global, config: &'a Config) -> Result<World<'a>, Short>
        ensures tied { IfOk result (λ w. Tied (shown_config config.now) w.parts start) }
        ensures count { IfOk result (λ w. w.count ≡ 0) }
        ensures ready { IfOk result (λ w. w.is_short ≡ false) }
    {
        let parts = WorldParts::new(alloc, config.nodes, &config.namespaces)?;
        Ok(World {
            parts,
            count: 0,
            is_short: false,
            alloc,
        })
    }

    /// Carries out the next event, and gives what applications got by it, under the event's number from 1. After it
    /// answered `Short` it does so ever after.
    pub fn step(&mut self, event: &Event) -> Result<Vec<Entry>, Short>
        ensures ok { OnOk result (GoesOn (seen event.now) self.old.parts self.new.parts) }
        ensures writes { IfOk result (λ es.
            Writes (self.old.count + 1) (seen event.now) self.old.parts es.items) }
        ensures counts { OnOk result (self.new.count ≡ self.old.count + 1) }
        ensures short { self.new.is_short ≡ is_err result }
        ensures stays_short { IsTrue self.old.is_short → IsErr result }
    {
        if self.is_short {
            return Err(Short);
        }
        let Some(at) = self.count.checked_add(1) else {
            self.is_short = true;
            return Err(Short);
        };
        let got = carry_out(&mut self.parts, self.alloc, at, event);
        self.count = at;
        self.is_short = got.is_err();
        got
    }

    /// Ends the world, and frees all that it holds, with no need to prove here how.
    pub fn end(self) {
        let World { parts, .. } = self;
        parts.end();
    }

    /// A node's sessions.
    pub fn hub(&self, node: u8) -> Option<&Hub>
        ensures { option_copied result ≡ hub_of self.now.parts node }
    {
        self.parts.hub(node)
    }

    /// The streams that all nodes share.
    pub fn streams(&self) -> &Streams
        ensures { result.now ≡ streams_of self.now.parts }
    {
        self.parts.streams()
    }

    /// The client of this name, if it ever connected.
    pub fn client(&self, name: &str) -> Option<&Client>
        ensures { option_copied result ≡ client_of self.now.parts name.now }
    {
        self.parts.client(name)
    }

    /// Where the session of a client is, if it is connected.
    pub fn address(&self, name: &str) -> Option<SessionAddress>
        ensures { result ≡ address_at self.now.parts name.now }
    {
        self.parts.address(name)
    }
}

// An event, by the method of its kind. Only a take gives an application something.
fn carry_out(
    parts: &mut WorldParts<'_>,
    alloc: Global,
    at: usize,
    event: &Event,
) -> Result<Vec<Entry>, Short>
    ensures ok { OnOk result (GoesOn (seen event.now) parts.old parts.new) }
    ensures writes { IfOk result (λ es. Writes at (seen event.now) parts.old es.items) }
{
    match event {
        Event::Take { client } => parts.take(at, client.as_str()),
        _ => {
            carry_on(parts, event)?;
            Ok(Vec::new(alloc))
        }
    }
}

// An event that gives no application anything. A take changes nothing here.
fn carry_on(parts: &mut WorldParts<'_>, event: &Event) -> Result<(), Short>
    ensures { OnOk result (((client : List ℕ) → event.now ≢ Event.Take client)
        → GoesOn (seen event.now) parts.old parts.new) }
{
    match event {
        Event::Epoch { epoch } => parts.epoch(*epoch),
        Event::Connect { client, node } => parts.connect(client.as_str(), *node),
        Event::Ask { client, channel } => parts.ask(client.as_str(), channel.as_str()),
        Event::AskFrom { client, channel } => parts.ask_from(client.as_str(), channel.as_str()),
        Event::Read { client, channel } => parts.read(client.as_str(), channel.as_str()),
        Event::Finish { client, channel } => parts.finish(client.as_str(), channel.as_str()),
        Event::Publish { channel, key, body } => {
            parts.publish(channel.as_str(), key_text(key), body.as_str())
        }
        Event::PublishBy {
            client,
            channel,
            key,
            body,
        } => parts.put(
            client.as_str(),
            channel.as_str(),
            key_text(key),
            body.as_str(),
        ),
        Event::Deliver { node, publication } => parts.deliver(*node, *publication),
        Event::Leave { client, channel } => parts.leave(client.as_str(), channel.as_str()),
        Event::Restart { node } => parts.restart(*node),
        Event::Check { client, channel } => parts.check(client.as_str(), channel.as_str()),
        Event::ListHistory {
            client,
            channel,
            limit,
        } => parts.list(client.as_str(), channel.as_str(), *limit),
        Event::Break { client } => {
            parts.break_off(client.as_str());
            Ok(())
        }
        Event::Trim { channel, count } => {
            parts.trim(channel.as_str(), *count);
            Ok(())
        }
        Event::Forget { channel } => {
            parts.forget(channel.as_str());
            Ok(())
        }
        Event::BrokerRestart => {
            parts.restart_broker();
            Ok(())
        }
        Event::SetSize { namespace, size } => {
            parts.set_size(namespace.as_str(), size.count());
            Ok(())
        }
        Event::Take { .. } => Ok(()),
    }
}

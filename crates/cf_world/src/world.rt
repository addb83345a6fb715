//! The world of a schedule: a broker, nodes and clients, and what happens to them.
ghost use Rattle.std.specs.Prelude.{◌≡◌, ◌≤◌, IfOk, OnOk, None, length, option_copied};
ghost use Rattle.cf_protocol.specs.Regular.{IsBody};
ghost use Rattle.cf_machine.specs.Event as said;
ghost use Rattle.cf_machine.specs.World.{start};
ghost use Rattle.cf_world.specs.HubCalls.{AreNew};
ghost use Rattle.cf_world.specs.Tie.{GoesOn, Tied, client_of, hub_of, streams_of};

use crate::broker::WorldBroker;
use crate::clients::Peer;
use crate::out_of_memory::Short;
use cf_client::Client;
use cf_hub::Hub;
use cf_hub::laws::what_is_said_stays;
use cf_machine::laws::epochs_are_fresh;
use cf_protocol::{Epoch, Namespaces};
use cf_stream::{LARGEST_SIZE, Streams};
use std::alloc::Global;
use std::collections::BTreeMap;

/// The boot number of a node that was not restarted.
const FIRST_BOOT: u64 = 1;

/// The broker, nodes and clients, and all that lies between them.
#[derive(Drop)]
pub struct WorldParts<'a> {
    pub(crate) namespaces: &'a Namespaces,
    pub(crate) broker: WorldBroker,
    pub(crate) hubs: Vec<Hub>,
    pub(crate) clients: BTreeMap<String, Peer<'a>>,
    pub(crate) alloc: Global,
}

impl<'a> WorldParts<'a> {
    /// A world in which nothing has happened, with so many nodes.
    pub fn new(
        alloc: Global,
        nodes: u8,
        namespaces: &'a Namespaces,
    ) -> Result<WorldParts<'a>, Short>
        ensures { IfOk result
            (λ w. Tied (record { nodes = nodes; namespaces = namespaces.now }) w start) }
    {
        let hubs = new_hubs(alloc, nodes)?;
        let broker = WorldBroker::new(alloc, namespaces)?;
        Ok(WorldParts {
            namespaces,
            broker,
            hubs,
            clients: BTreeMap::new(alloc),
            alloc,
        })
    }

    /// Ends the world, and frees all that it holds. If a world is dropped instead, it is proved there how each of its
    /// parts is.
    pub fn end(self) {}

    /// A node's sessions.
    pub fn hub(&self, node: u8) -> Option<&Hub>
        ensures { option_copied result ≡ hub_of self.now node }
    {
        self.hubs.get(node as usize)
    }

    /// The streams that all nodes share.
    pub fn streams(&self) -> &Streams
        ensures { result.now ≡ streams_of self.now }
    {
        &self.broker.streams
    }

    /// The client of this name, if it ever connected.
    pub fn client(&self, name: &str) -> Option<&Client>
        ensures { option_copied result ≡ client_of self.now name.now }
    {
        match self.clients.get(name) {
            None => None,
            Some(peer) => Some(&peer.client),
        }
    }

    /// An epoch waits, behind the others.
    pub fn epoch(&mut self, epoch: Epoch) -> Result<(), Short>
        ensures { OnOk result (GoesOn (said.Epoch epoch) self.old self.new) }
    {
        what_is_said_stays();
        let _letters = epoch.as_str();
        self.broker.epochs.add(epoch)?;
        Ok(())
    }

    /// A datum is published under a key, which may be the empty one, unless the channel's namespace is not set up, no
    /// epoch waits for its stream, the stream is full, or the key is among its last hundred.
    pub fn publish(&mut self, channel: &str, key: &str, body: &str) -> Result<(), Short>
        requires { IsBody body.now }
        ensures { OnOk result
            (GoesOn (said.Publish channel.now key.now body.now) self.old self.new) }
    {
        what_is_said_stays();
        epochs_are_fresh();
        let _published = self.broker.publish(channel, key, body, None)?;
        Ok(())
    }

    /// At most the newest publications of a channel stay held.
    pub fn trim(&mut self, channel: &str, count: usize)
        ensures { GoesOn (said.Trim channel.now count) self.old self.new }
    {
        what_is_said_stays();
        self.broker.streams.trim(channel, count);
    }

    /// A channel's stream is gone.
    pub fn forget(&mut self, channel: &str)
        ensures { GoesOn (said.Forget channel.now) self.old self.new }
    {
        what_is_said_stays();
        self.broker.streams.forget(channel);
    }

    /// All streams are gone.
    pub fn restart_broker(&mut self)
        ensures { GoesOn said.BrokerRestart self.old self.new }
    {
        what_is_said_stays();
        self.broker.streams.forget_all();
    }

    /// Streams of a namespace hold at most so many publications from now on, if it is set up. Of those that hold more
    /// the newest stay.
    pub fn set_size(&mut self, name: &str, size: usize)
        requires { (1 ≤ size) × (size ≤ LARGEST_SIZE) }
        ensures { GoesOn (said.SetSize name.now size) self.old self.new }
    {
        what_is_said_stays();
        if self.broker.streams.has_namespace(name) {
            self.broker.streams.set_size(name, size);
        }
    }
}

// So many nodes, without sessions, in their first boot.
fn new_hubs(alloc: Global, nodes: u8) -> Result<Vec<Hub>, Short>
    ensures new { IfOk result (λ hs. AreNew 0 hs.items) }
    ensures count { IfOk result (λ hs. length hs.items ≡ nodes) }
{
    let mut hubs = Vec::new(alloc);
    for node in 0..nodes {
        hubs.push(Hub::new(alloc, node, FIRST_BOOT))?;
    }
    Ok(hubs)
}

//! Connections that come, and that go.
ghost use Rattle.std.specs.Prelude.{◌≡◌, ℕ, List, IfOk, OnOk, Some, string_bytes};
ghost use Rattle.cf_hub.specs.Hub.{attached_at};
ghost use Rattle.cf_world.specs.NodesTie.{name_of};
ghost use Rattle.cf_machine.specs.Event as said;
ghost use Rattle.cf_world.specs.Tie.{GoesOn};

use crate::broker::NOW;
use crate::clients::{SessionAddress, clear_address, clear_addresses, join};
use crate::out_of_memory::Short;
use crate::world::WorldParts;
use cf_hub::laws::{calls_are_alike, sessions_are_counted};
use cf_hub::{Hub, HubRefusal};
use cf_session::Session;
use std::alloc::Global;

impl WorldParts<'_> {
    /// A client connects to a node, unless it is connected, there is no such node, or the node has no room.
    pub fn connect(&mut self, name: &str, node: u8) -> Result<(), Short>
        ensures { OnOk result (GoesOn (said.Connect name.now node) self.old self.new) }
    {
        calls_are_alike();
        sessions_are_counted();
        if let Some(_address) = self.address(name) {
            return Ok(());
        }
        let Some(hub) = self.hubs.get_mut(node as usize) else {
            return Ok(());
        };
        hub.invariant();
        match hub.attach(String::new(self.alloc), NOW) {
            Ok(session) => {
                let id = id_at(hub, self.alloc, session)?;
                let address = SessionAddress { node, session };
                let waits = Session::without_tokens(self.alloc, self.namespaces);
                join(self.alloc, &mut self.clients, name, address, waits, id)
            }
            Err(HubRefusal::TooMany) => Ok(()),
            Err(_) => Err(Short),
        }
    }

    /// The connection of a client breaks.
    pub fn break_off(&mut self, name: &str)
        ensures { GoesOn (said.Break name.now) self.old self.new }
    {
        let Some(address) = self.address(name) else {
            return;
        };
        if let Some(hub) = self.hubs.get_mut(address.node as usize) {
            let _gone = hub.detach(address.session);
            clear_address(&mut self.clients, name);
        }
    }

    /// A node restarts: its sessions are gone, and its boot number grows. It answers `Short` too if the boot number is
    /// the last.
    pub fn restart(&mut self, node: u8) -> Result<(), Short>
        ensures { OnOk result (GoesOn (said.Restart node) self.old self.new) }
    {
        let Some(hub) = self.hubs.get_mut(node as usize) else {
            return Ok(());
        };
        let Some(boot) = hub.boot().checked_add(1) else {
            return Err(Short);
        };
        *hub = Hub::new(self.alloc, node, boot);
        clear_addresses(&mut self.clients, node);
        Ok(())
    }
}

// The client id of a session.
fn id_at(hub: &Hub, alloc: Global, session: u32) -> Result<String, Short>
    ensures { IfOk result (λ id. (client : List ℕ)
        → name_of (attached_at hub.now session) ≡ Some client → string_bytes id ≡ client) }
{
    match hub.client_id(session) {
        Some(id) => Ok(String::from_str(alloc, id)?),
        None => Ok(String::new(alloc)),
    }
}

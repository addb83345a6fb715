//! The clients that are there in one channel.
ghost use Rattle.std.specs.Prelude.{◌≡◌, ◌==◌, Ok, IfOk, OnOk, OnErr, IsTrue, IsFalse, IsSomeAnd, Some, not, List, ℕ};
ghost use Rattle.std.specs.BTreeMap.{get_by_text};
ghost use Rattle.std.specs.Map.{values_of};
ghost use Rattle.std.specs.Str.{bytes_eq};
ghost use Rattle.std.specs.FinMap as fin;
ghost use Rattle.cf_protocol.specs.Shown.{shown_users};
ghost use Rattle.cf_presence.specs.Maps.{SetsAt, Puts};
ghost use Rattle.cf_presence.specs.Presence.{stays, still, users_of, user_count, IsThere};
ghost use Rattle.cf_presence.specs.UserCounts.{clients_with};

use crate::error::PresenceError;
use crate::maps::put;
use crate::presence::Stats;
use crate::users::{add_user, drop_gone, drop_user};
use std::alloc::Global;
use std::collections::BTreeMap;
use std::marker::Model;

/// How long an entry stands after the client entered last, in seconds.
pub const ENTRY_SECONDS: u64 = 60;

/// A client that is there: its user, and the moment at which it entered last, in seconds.
#[derive(Drop)]
pub(crate) struct PresenceEntry {
    user: String,
    at: u64,
}

impl Model for PresenceEntry {
    ghost use Rattle.std.specs.String.{string_bytes};
    ghost use Rattle.cf_presence.specs.Presence.{Seen, coded_seen};

    ghost Value = { Seen };

    ghost coded = { coded_seen };

    ghost view = { λ e. record { user = string_bytes e.user; at = e.at } };
}

impl PresenceEntry {
    /// Whether the entry still stands at a moment.
    pub(crate) fn stands(&self, now: u64) -> bool
        ensures { result ≡ stays now self.now }
    {
        now < self.at || now - self.at < ENTRY_SECONDS
    }

    pub(crate) fn user(&self) -> &str
        ensures { result.now ≡ self.now.user }
    {
        self.user.as_str()
    }

    /// Whether the client is of this user.
    fn is_of(&self, user: &str) -> bool
        ensures { result ≡ bytes_eq user.now self.now.user }
    {
        user == self.user.as_str()
    }
}

/// The clients of one channel, by their ids, and how many of them each user has.
#[derive(Drop)]
pub(crate) struct ChannelClients {
    map: BTreeMap<String, PresenceEntry>,
    users: BTreeMap<String, u64>,
    alloc: Global,
}

impl Model for ChannelClients {
    ghost use Rattle.cf_presence.specs.Presence.{Clients, coded_clients};
    ghost use Rattle.cf_presence.specs.Maps.{by_text};
    ghost use Rattle.cf_presence.specs.UserCounts.{CountsUsers};

    ghost Value = { Clients };

    ghost coded = { coded_clients };

    ghost view = { λ c. by_text c.map };

    ghost invariant = { λ c. CountsUsers c.users c.map };
}

impl ChannelClients {
    /// No clients.
    pub(crate) fn new(alloc: Global) -> ChannelClients
        ensures { result ≡ fin.empty }
    {
        ChannelClients {
            map: BTreeMap::new(alloc),
            users: BTreeMap::new(alloc),
            alloc,
        }
    }

    /// A client enters at a moment, again or for the first time. Again under the same user it takes no memory.
    pub(crate) fn enter(&mut self, client: &str, user: &str, now: u64) -> Result<(), PresenceError>
        ensures ok { OnOk result
            (self.new ≡ fin.insert self.old client.now (record { user = user.now; at = now })) }
        ensures err { OnErr result (self.new ≡ self.old) }
        ensures again { IsThere self.old client.now user.now → result ≡ Ok tt }
    {
        if renew(&mut self.map, client, user, now) {
            return Ok(());
        }
        add_user(&mut self.users, self.alloc, user)?;
        match put_entry(&mut self.map, self.alloc, client, user, now) {
            Ok(None) => Ok(()),
            Ok(Some(before)) => {
                drop_user(&mut self.users, before.user());
                Ok(())
            }
            Err(refusal) => {
                drop_user(&mut self.users, user);
                Err(refusal)
            }
        }
    }

    /// A client leaves, if it is there.
    pub(crate) fn leave(&mut self, client: &str)
        ensures { self.new ≡ fin.remove self.old client.now }
    {
        if let Some(entry) = self.map.remove(client) {
            drop_user(&mut self.users, entry.user());
        }
    }

    /// Whether nobody is there.
    pub(crate) fn is_empty(&self) -> bool
        ensures { result ≡ (fin.len self.now == 0) }
    {
        self.map.is_empty()
    }

    /// Lets go of the entries that no longer stand at a moment, and answers whether any is left.
    pub(crate) fn outlasts(&mut self, now: u64) -> bool
        ensures left { self.new ≡ still now self.old }
        ensures any { result ≡ not (fin.len (still now self.old) == 0) }
    {
        drop_gone(&mut self.users, &self.map, now);
        self.map.retain(|_client, entry| { entry.stands(now) });
        !self.map.is_empty()
    }

    /// The user of each client.
    pub(crate) fn list(&self) -> Result<BTreeMap<String, String>, PresenceError>
        ensures { IfOk result (λ users. shown_users users ≡ users_of self.now) }
    {
        let mut users = BTreeMap::new(self.alloc);
        let mut rest = self.map.iter();
        while let Some((client, entry)) = rest.next() {
            let user = String::from_str(self.alloc, entry.user.as_str())?;
            put(&mut users, self.alloc, client.as_str(), user)?;
        }
        Ok(users)
    }

    /// How many clients there are, and how many different users.
    pub(crate) fn stats(&self) -> Stats
        ensures clients { result.clients ≡ fin.len self.now }
        ensures users { result.users ≡ user_count self.now }
    {
        Stats {
            clients: self.map.len() as u64,
            users: self.users.len() as u64,
        }
    }
}

/// Puts the entry of a client that enters at a moment, and answers the one that was there.
fn put_entry(
    map: &mut BTreeMap<String, PresenceEntry>,
    alloc: Global,
    client: &str,
    user: &str,
    now: u64,
) -> Result<Option<PresenceEntry>, PresenceError>
    ensures puts { IfOk result (λ before. Puts map.old map.new client.now
        (record { user = user.now; at = now }) before) }
    ensures sets { OnOk result
        (SetsAt map.old map.new client.now (Some (record { user = user.now; at = now }))) }
    ensures err { OnErr result (map.new.entries ≡ map.old.entries) }
{
    let user = String::from_str(alloc, user)?;
    put(map, alloc, client, PresenceEntry { user, at: now })
}

/// Sets the moment of a client that is there under this user, if it is. It takes no memory.
#[tactic(auto, using(std::proofs::lemmas::Map::Text::text_keys))]
fn renew(map: &mut BTreeMap<String, PresenceEntry>, client: &str, user: &str, now: u64) -> bool
    ensures renewed { IsTrue result
        → SetsAt map.old map.new client.now (Some (record { user = user.now; at = now })) }
    ensures users { (u : List ℕ)
        → clients_with u (values_of map.new.entries) ≡ clients_with u (values_of map.old.entries) }
    ensures same { IsFalse result → map.new.entries ≡ map.old.entries }
    ensures there { IsSomeAnd (get_by_text map.old client.now) (λ s. s.user ≡ user.now)
        → IsTrue result }
{
    let Some(entry) = map.get_mut(client) else {
        return false;
    };
    if !entry.is_of(user) {
        return false;
    }
    entry.at = now;
    true
}

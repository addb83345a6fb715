//! The clients that are there in each channel.
ghost use Rattle.std.specs.Prelude.{◌≡◌, ◌≢◌, Ok, IfOk, OnOk, OnErr, unwrap_or, Some, List, ℕ};
ghost use Rattle.std.specs.BTreeMap.{get_by_text};
ghost use Rattle.std.specs.FinMap as fin;
ghost use Rattle.cf_protocol.specs.Shown.{shown_users};
ghost use Rattle.cf_presence.specs.Presence.{IsThere, clients_of, entered, left, still, users_of, user_count};
ghost use Rattle.cf_presence.specs.Maps.{SetsAt, if_any};

use crate::clients::ChannelClients;
use crate::error::PresenceError;
use crate::maps::put;
use std::alloc::Global;
use std::collections::BTreeMap;
use std::marker::Model;

/// How many clients are there in a channel, and how many different users they are.
#[derive(Clone, Copy, PartialEq, Eq, Debug)]
pub struct Stats {
    pub clients: u64,
    pub users: u64,
}

/// The clients that are there in each channel. A channel with none takes no memory.
pub struct Presence {
    map: BTreeMap<String, ChannelClients>,
    alloc: Global,
}

// By field, so that what owns a presence isn't proved to drop each part of its parts once more.
impl Drop for Presence {
    fn drop(self) {
        let Presence { map: _, alloc: _ } = self;
    }
}

impl Model for Presence {
    ghost use Rattle.cf_presence.specs.Presence.{Channels, coded_channels};
    ghost use Rattle.cf_presence.specs.Maps.{by_text};

    ghost Value = { Channels };

    ghost coded = { coded_channels };

    ghost view = { λ p. by_text p.map };
}

impl Presence {
    /// Nobody, in no channel.
    pub fn new(alloc: Global) -> Presence
        ensures { result ≡ fin.empty }
    {
        Presence {
            map: BTreeMap::new(alloc),
            alloc,
        }
    }

    /// A client of a user enters a channel at a moment in seconds. If it is there already, its user and moment are set anew;
    /// under the same user that takes no memory, and is never refused. `Memory` if a growth was refused.
    pub fn enter(
        &mut self,
        channel: &str,
        client: &str,
        user: &str,
        now: u64,
    ) -> Result<(), PresenceError>
        ensures ok { OnOk result (self.new ≡ entered self.old channel.now client.now user.now now) }
        ensures err { OnErr result (self.new ≡ self.old) }
        ensures again { IsThere (clients_of self.old channel.now) client.now user.now
            → result ≡ Ok tt }
    {
        enter_in(&mut self.map, self.alloc, channel, client, user, now)
    }

    /// A client leaves a channel. If it isn't there nothing changes. It takes no memory.
    pub fn leave(&mut self, channel: &str, client: &str)
        ensures { self.new ≡ left self.old channel.now client.now }
    {
        leave_in(&mut self.map, channel, client);
    }

    /// The user of each client that is there in a channel, by the client's id. `Memory` if a growth was refused.
    pub fn list(&self, channel: &str) -> Result<BTreeMap<String, String>, PresenceError>
        ensures { IfOk result
            (λ users. shown_users users ≡ users_of (clients_of self.now channel.now)) }
    {
        match self.map.get(channel) {
            None => Ok(BTreeMap::new(self.alloc)),
            Some(clients) => clients.list(),
        }
    }

    /// How many clients are there in a channel, and how many different users. It takes no memory, and looks at no client.
    pub fn stats(&self, channel: &str) -> Stats
        ensures clients { result.clients ≡ fin.len (clients_of self.now channel.now) }
        ensures users { result.users ≡ user_count (clients_of self.now channel.now) }
    {
        match self.map.get(channel) {
            None => Stats {
                clients: 0,
                users: 0,
            },
            Some(clients) => clients.stats(),
        }
    }

    /// Lets go of the entries whose last enter is 60 seconds or more before `now`. It takes no memory.
    pub fn tick(&mut self, now: u64)
        ensures left { (q : List ℕ) → clients_of self.new q ≡ still now (clients_of self.old q) }
        ensures nowhere_none { (q : List ℕ) → fin.get self.new q ≢ Some fin.empty }
    {
        self.map
            .retain(|_channel, clients| { clients.outlasts(now) });
    }
}

/// A client enters a channel.
#[tactic(auto, using(std::proofs::lemmas::Map::Text::text_keys))]
fn enter_in(
    map: &mut BTreeMap<String, ChannelClients>,
    alloc: Global,
    channel: &str,
    client: &str,
    user: &str,
    now: u64,
) -> Result<(), PresenceError>
    ensures ok { OnOk result
        (SetsAt map.old map.new channel.now
        (Some
        (fin.insert (unwrap_or (get_by_text map.old channel.now) fin.empty)
        client.now (record { user = user.now; at = now })))) }
    ensures err { OnErr result ((q : List ℕ) → get_by_text map.new q ≡ get_by_text map.old q) }
    ensures again { IsThere (unwrap_or (get_by_text map.old channel.now) fin.empty) client.now
        user.now → result ≡ Ok tt }
{
    match map.get_mut(channel) {
        Some(clients) => clients.enter(client, user, now),
        None => {
            let mut clients = ChannelClients::new(alloc);
            clients.enter(client, user, now)?;
            put(map, alloc, channel, clients)?;
            Ok(())
        }
    }
}

/// A client leaves a channel, which goes with its last client.
#[tactic(auto, using(std::proofs::lemmas::Map::Text::text_keys))]
fn leave_in(map: &mut BTreeMap<String, ChannelClients>, channel: &str, client: &str)
    ensures { SetsAt map.old map.new channel.now
        (if_any (fin.remove (unwrap_or (get_by_text map.old channel.now) fin.empty) client.now)) }
{
    if let Some(clients) = map.get_mut(channel) {
        clients.leave(client);
        if clients.is_empty() {
            map.remove(channel);
        }
    }
}

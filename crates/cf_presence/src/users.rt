//! How many clients of a channel each user has.
ghost use Rattle.std.specs.Prelude.{◌≡◌, ◌+◌, ◌-◌, OnOk, OnErr, unwrap_or, Some, List, ℕ, filter, not};
ghost use Rattle.std.specs.BTreeMap.{get_by_text};
ghost use Rattle.std.specs.Map.{values_of};
ghost use Rattle.cf_presence.specs.Maps.{SetsAt};
ghost use Rattle.cf_presence.specs.Presence.{stays};
ghost use Rattle.cf_presence.specs.UserCounts.{CountsUsers, Tallies, clients_with, counted};

use crate::clients::PresenceEntry;
use crate::error::PresenceError;
use crate::maps::put;
use std::alloc::Global;
use std::collections::BTreeMap;

/// One client more of a user. `Memory` if a growth was refused.
#[tactic(auto, using(std::proofs::lemmas::Map::Text::text_keys))]
pub(crate) fn add_user(
    users: &mut BTreeMap<String, u64>,
    alloc: Global,
    user: &str,
) -> Result<(), PresenceError>
    ensures ok { OnOk result
        (SetsAt users.old users.new user.now
        (Some (unwrap_or (get_by_text users.old user.now) 0 + 1))) }
    ensures err { OnErr result ((q : List ℕ) → get_by_text users.new q ≡ get_by_text users.old q) }
{
    match users.get_mut(user) {
        Some(count) => {
            if *count == u64::MAX {
                return Err(PresenceError::Memory);
            }
            *count += 1;
            Ok(())
        }
        None => {
            put(users, alloc, user, 1)?;
            Ok(())
        }
    }
}

/// One client less of a user, who is left out with the last one. It takes no memory.
#[tactic(auto, using(std::proofs::lemmas::Map::Text::text_keys))]
pub(crate) fn drop_user(users: &mut BTreeMap<String, u64>, user: &str)
    ensures { SetsAt users.old users.new user.now
        (counted (unwrap_or (get_by_text users.old user.now) 0 - 1)) }
{
    if let Some(count) = users.get_mut(user) {
        if *count > 1 {
            *count -= 1;
        } else {
            users.remove(user);
        }
    }
}

/// Takes the clients whose entries no longer stand at a moment out of the count. It takes no memory.
pub(crate) fn drop_gone(
    users: &mut BTreeMap<String, u64>,
    clients: &BTreeMap<String, PresenceEntry>,
    now: u64,
)
    requires { CountsUsers users.old clients.now }
    ensures { Tallies users.new
        (λ u. clients_with u (filter (stays now) (values_of clients.now.entries))) }
{
    let mut rest = clients.values();
    while let Some(entry) = rest.next() {
        if !entry.stands(now) {
            drop_user(users, entry.user());
        }
    }
}

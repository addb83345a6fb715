//! The results of replies.
ghost use Rattle.std.specs.FinMap.{from_entries};
ghost use Rattle.std.specs.Prelude.{◌≡◌, Some, option_map};
ghost use Rattle.cf_json.specs.Grammar.{Tree};
ghost use Rattle.cf_protocol.specs.Fields.{Fields, as_object, object_as};
ghost use Rattle.cf_protocol.specs.Methods.{outcome_of};
ghost use Rattle.cf_protocol.specs.Reading.{Answers, AreMembers, HasValue, OfFields, OfValue, Reads};
ghost use Rattle.cf_protocol.specs.Reply.{counted, present_users, subscribed, users_of};
ghost use Rattle.cf_protocol.specs.Shown.{shown_outcome, shown_users};

use crate::fault::ReadFault;
use crate::outgoing::Outcome;
use crate::publication::Info;
use crate::read::members::{Members, is_present};
use crate::read::publication::{read_client, read_publications};
use cf_json::Span;
use std::alloc::Global;
use std::collections::BTreeMap;

/// What a reply answers, by the one of its keys that says so.
#[derive(Clone, Copy)]
pub enum ResultKey {
    Error,
    Connect,
    Subscribe,
    Unsubscribe,
    Publish,
    Presence,
    PresenceStats,
    History,
    Ping,
}

/// The keys of results.
pub const RESULT_KEYS: [(&str, ResultKey); 9] = [
    ("error", ResultKey::Error),
    ("connect", ResultKey::Connect),
    ("subscribe", ResultKey::Subscribe),
    ("unsubscribe", ResultKey::Unsubscribe),
    ("publish", ResultKey::Publish),
    ("presence", ResultKey::Presence),
    ("presence_stats", ResultKey::PresenceStats),
    ("history", ResultKey::History),
    ("ping", ResultKey::Ping),
];

/// The result of a key that has this value.
pub fn read_result(
    alloc: Global,
    text: &str,
    key: ResultKey,
    span: Span,
) -> Result<Outcome, ReadFault>
    requires { HasValue text.now span }
    ensures { OfValue text.now span (λ t.
        Answers shown_outcome result (object_as (outcome_of key) t)) }
{
    let members = Members::of(alloc, text, span)?;
    read_outcome(alloc, key, &members)
}

/// The result of a key that has these members.
fn read_outcome(alloc: Global, key: ResultKey, members: &Members<'_>) -> Result<Outcome, ReadFault>
    requires { AreMembers members.now }
    ensures { OfFields members.now (λ fs. Answers shown_outcome result (outcome_of key fs)) }
{
    match key {
        ResultKey::Error => {
            let code = members.positive("code")?;
            Ok(Outcome::Failed { code })
        }
        ResultKey::Connect => {
            let client = members.text(alloc, "client")?;
            Ok(Outcome::Connected { client })
        }
        ResultKey::Subscribe => read_subscribed(alloc, members),
        ResultKey::Unsubscribe => Ok(Outcome::Unsubscribed),
        ResultKey::Publish => Ok(Outcome::Published),
        ResultKey::Presence => read_present(alloc, members),
        ResultKey::PresenceStats => read_counted(members),
        ResultKey::History => {
            let position = members.position(alloc)?;
            let publications = read_publications(alloc, members)?;
            Ok(Outcome::Past {
                position,
                publications,
            })
        }
        ResultKey::Ping => Ok(Outcome::Pinged),
    }
}

fn read_subscribed(alloc: Global, members: &Members<'_>) -> Result<Outcome, ReadFault>
    requires { AreMembers members.now }
    ensures { OfFields members.now (λ fs. Answers shown_outcome result (subscribed fs)) }
{
    let position = members.position(alloc)?;
    let recovered = members.flag("recovered")?;
    let was_recovering = members.flag("was_recovering")?;
    let publications = read_publications(alloc, members)?;
    Ok(Outcome::Subscribed {
        position,
        publications,
        recovered,
        was_recovering,
    })
}

fn read_counted(members: &Members<'_>) -> Result<Outcome, ReadFault>
    requires { AreMembers members.now }
    ensures { OfFields members.now (λ fs. Answers shown_outcome result (counted fs)) }
{
    let clients = members.whole("num_clients", u64::MAX)?;
    let users = members.whole("num_users", u64::MAX)?;
    Ok(Outcome::Counted { clients, users })
}

/// The clients that are there.
fn read_present(alloc: Global, members: &Members<'_>) -> Result<Outcome, ReadFault>
    requires { AreMembers members.now }
    ensures { OfFields members.now (λ fs. Answers shown_outcome result (present_users fs)) }
{
    let Some(span) = members.present("presence") else {
        let users = BTreeMap::new(alloc);
        return Ok(Outcome::Present { users });
    };
    let clients = Members::of(alloc, members.text, span)?;
    let users = read_users(alloc, &clients)?;
    Ok(Outcome::Present { users })
}

/// The user of each of these clients, by the client's id, which is the key of its info. One whose info is `null` counts as
/// absent.
fn read_users(alloc: Global, clients: &Members<'_>) -> Result<BTreeMap<String, String>, ReadFault>
    requires { AreMembers clients.now }
    ensures { (t : Tree) (fs : Fields) → as_object t ≡ Some fs
        → Reads clients.now.text.now clients.now.found.items fs
        → Answers shown_users result (option_map from_entries (users_of fs)) }
{
    let mut users = BTreeMap::new(alloc);
    for client in &clients.found {
        if !is_present(clients.text, client.1) {
            continue;
        }
        let Info { user, .. } = read_client(alloc, clients.text, client.1)?;
        users.insert(client.0.clone()?, user)?;
    }
    Ok(users)
}

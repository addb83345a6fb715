//! The texts of replies and pushes.
ghost use Rattle.std.specs.Prelude.{◌≡◌, ◌∷◌, [], Some, IfOk, string_bytes};
ghost use Rattle.cf_protocol.specs.Shown.{shown_outgoing, shown_outcome, shown_users};
ghost use Rattle.cf_protocol.specs.Written as written;
ghost use Rattle.cf_protocol.specs.Written.{◌⇒◌, as_it_is, object_of, inner, publications as publications_list, connected, error as error_members, subscribed, counted, past, presence, reply, outgoing_text};
ghost use Rattle.cf_protocol.specs.Writing.{Adds};

use crate::codes::{ErrorCode, message_of};
use crate::outgoing::{Outcome, Outgoing, Pushed};
use crate::position::Position;
use crate::publication::Publication;
use crate::write::command::{write_bare, write_id, write_position};
use crate::write::publication::{write_info, write_placed};
use crate::write::push::{write_publication, write_unsubscribe};
use crate::write::writer::Writer;
use std::alloc::{AllocError, Global};
use std::collections::BTreeMap;

/// Seconds between two pings of the server, as a client is told.
const PING_SECONDS: u64 = 25;
/// The version that a client is told.
const VERSION: &str = "1.0.0";

/// The one text of what goes out: compact, with members in byte order of their keys, and those left out that say nothing.
///
/// # Errors
///
/// If there is no memory.
pub fn write_reply(alloc: Global, outgoing: &Outgoing) -> Result<String, AllocError>
    ensures { IfOk result (λ s. string_bytes s ≡ outgoing_text (shown_outgoing outgoing.now)) }
{
    match outgoing {
        Outgoing::Ping => String::from_str(alloc, "{}"),
        Outgoing::Answer { id, outcome } => {
            let mut writer = Writer::new(alloc, 0);
            write_answer(&mut writer, *id, outcome);
            writer.into_text()
        }
        Outgoing::Push { channel, push } => match push {
            Pushed::Publication(publication) => {
                write_publication(alloc, channel.as_str(), publication)
            }
            Pushed::Unsubscribe { code } => write_unsubscribe(alloc, channel.as_str(), *code),
        },
    }
}

/// The members of a reply. Its result stands also if it is an empty object.
fn write_answer(writer: &mut Writer, id: u32, outcome: &Outcome)
    ensures { Adds writer.old writer.new (reply as_it_is id (shown_outcome outcome.now)) }
{
    match outcome {
        Outcome::Connected { client } => write_connected(writer, id, client.as_str()),
        Outcome::Subscribed {
            position,
            publications,
            recovered,
            was_recovering,
        } => {
            write_id(writer, id);
            write_subscribed(writer, position, publications, *recovered, *was_recovering);
        }
        Outcome::Unsubscribed => write_bare(writer, id, "unsubscribe"),
        Outcome::Published => write_bare(writer, id, "publish"),
        Outcome::Present { users } => {
            write_id(writer, id);
            writer.open("presence", "{");
            write_clients(writer, users);
            writer.value("}");
        }
        Outcome::Counted { clients, users } => write_counted(writer, id, *clients, *users),
        Outcome::Past {
            position,
            publications,
        } => write_past(writer, id, position, publications),
        Outcome::Pinged => write_bare(writer, id, "ping"),
        Outcome::Failed { code } => {
            write_error(writer, *code);
            write_id(writer, id);
        }
    }
}

/// What a client is told when it connects.
fn write_connected(writer: &mut Writer, id: u32, client: &str)
    ensures { Adds writer.old writer.new
        (("connect" ⇒ Some (object_of (connected client.now))) ∷ ("id" ⇒ written.whole id) ∷ []) }
{
    writer.open("connect", "{");
    writer.text_member("client", client);
    writer.whole_member("ping", PING_SECONDS);
    writer.flag_member("pong", true);
    writer.text_member("version", VERSION);
    writer.value("}");
    write_id(writer, id);
}

fn write_subscribed(
    writer: &mut Writer,
    position: &Position,
    publications: &Vec<Publication>,
    recovered: bool,
    was_recovering: bool,
)
    ensures { Adds writer.old writer.new
        (("subscribe" ⇒ Some (object_of (subscribed as_it_is position.now
        publications.now.items recovered was_recovering))) ∷ []) }
{
    writer.open("subscribe", "{");
    write_position(writer, position);
    writer.flag_member("positioned", true);
    write_publications(writer, publications);
    writer.flag_member("recoverable", true);
    writer.flag_member("recovered", recovered);
    writer.flag_member("was_recovering", was_recovering);
    writer.value("}");
}

/// How many clients and users are there.
fn write_counted(writer: &mut Writer, id: u32, clients: u64, users: u64)
    ensures { Adds writer.old writer.new
        (("id" ⇒ written.whole id)
        ∷ ("presence_stats" ⇒ Some (object_of (counted clients users))) ∷ []) }
{
    write_id(writer, id);
    writer.open("presence_stats", "{");
    writer.whole_member("num_clients", clients);
    writer.whole_member("num_users", users);
    writer.value("}");
}

fn write_past(writer: &mut Writer, id: u32, position: &Position, publications: &Vec<Publication>)
    ensures { Adds writer.old writer.new
        (("history" ⇒ Some (object_of (past as_it_is position.now publications.now.items)))
        ∷ ("id" ⇒ written.whole id) ∷ []) }
{
    writer.open("history", "{");
    write_position(writer, position);
    write_publications(writer, publications);
    writer.value("}");
    write_id(writer, id);
}

/// The error of a command that is refused, left out if it has no code.
fn write_error(writer: &mut Writer, code: u32)
    ensures { Adds writer.old writer.new (("error" ⇒ inner (error_members code)) ∷ []) }
{
    if code == 0 {
        return;
    }
    writer.open("error", "{");
    writer.whole_member("code", u64::from(code));
    writer.text_member("message", message_of(code));
    writer.flag_member("temporary", code == ErrorCode::Internal.code());
    writer.value("}");
}

/// Each client under its id with its info, which stands also if it is empty; left out if there are no clients.
fn write_clients(writer: &mut Writer, users: &BTreeMap<String, String>)
    ensures { Adds writer.old writer.new (presence (shown_users users.now)) }
{
    if users.is_empty() {
        return;
    }
    writer.open("presence", "{");
    for (client, user) in users {
        writer.text_key(client.as_str());
        writer.begin("{");
        write_info(writer, client.as_str(), user.as_str());
        writer.value("}");
    }
    writer.value("}");
}

/// The publications of a result, left out if there are none.
fn write_publications(writer: &mut Writer, publications: &Vec<Publication>)
    ensures { Adds writer.old writer.new
        (("publications" ⇒ publications_list as_it_is publications.now.items) ∷ []) }
{
    if publications.is_empty() {
        return;
    }
    writer.open("publications", "[");
    for publication in publications {
        writer.comma();
        write_placed(writer, publication);
    }
    writer.value("]");
}

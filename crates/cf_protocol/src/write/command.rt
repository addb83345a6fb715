//! The texts of commands.
ghost use Rattle.std.specs.Prelude.{◌≡◌, ◌∷◌, [], Some, IfOk, string_bytes};
ghost use Rattle.cf_protocol.specs.Shown.{shown_command, shown_request, shown_data};
ghost use Rattle.cf_protocol.specs.Written as written;
ghost use Rattle.cf_protocol.specs.Written.{◌⇒◌, as_it_is, object_of, channel_alone, from, since as since_of, body_of, command_text, command as command_members};
ghost use Rattle.cf_protocol.specs.Writing.{Adds};

use crate::command::{Command, Data, Request};
use crate::position::Position;
use crate::write::writer::Writer;
use std::alloc::{AllocError, Global};

/// The one text of a command: compact, with members in byte order of their keys, and those left out that say nothing.
///
/// # Errors
///
/// If there is no memory.
pub fn write_command(alloc: Global, command: &Command) -> Result<String, AllocError>
    ensures { IfOk result (λ s. string_bytes s ≡ command_text (shown_command command.now)) }
{
    let mut writer = Writer::new(alloc, 0);
    write_members(&mut writer, command.id, &command.request);
    writer.into_text()
}

/// The members of a command. Its request stands also if it is an empty object.
fn write_members(writer: &mut Writer, id: u32, request: &Request)
    ensures { Adds writer.old writer.new (command_members as_it_is id (shown_request request.now)) }
{
    match request {
        Request::Pong => {}
        Request::Connect { token } => {
            writer.open("connect", "{");
            writer.text_member("token", token.as_str());
            writer.value("}");
            write_id(writer, id);
        }
        Request::Subscribe { channel, since } => {
            write_subscribe(writer, id, channel.as_str(), since);
        }
        Request::Unsubscribe { channel } => {
            write_on_channel(writer, id, "unsubscribe", channel.as_str());
        }
        Request::Publish { channel, key, body } => {
            write_publish(writer, id, channel.as_str(), key.as_str(), body);
        }
        Request::Presence { channel } => {
            write_on_channel(writer, id, "presence", channel.as_str());
        }
        Request::PresenceStats { channel } => {
            write_on_channel(writer, id, "presence_stats", channel.as_str());
        }
        Request::History {
            channel,
            limit,
            since,
            reverse,
        } => {
            write_history(writer, channel.as_str(), limit, since, *reverse);
            write_id(writer, id);
        }
        Request::Ping => write_bare(writer, id, "ping"),
        Request::Send => write_bare(writer, id, "send"),
        Request::Other => write_bare(writer, id, "rpc"),
    }
}

/// The id of a command or a reply.
pub fn write_id(writer: &mut Writer, id: u32)
    ensures { Adds writer.old writer.new (("id" ⇒ written.whole id) ∷ []) }
{
    writer.whole_member("id", u64::from(id));
}

/// An id, and an object without members.
pub fn write_bare(writer: &mut Writer, id: u32, key: &str)
    ensures { Adds writer.old writer.new
        (("id" ⇒ written.whole id) ∷ (key.now, Some (object_of [])) ∷ []) }
{
    write_id(writer, id);
    writer.open(key, "{");
    writer.value("}");
}

/// The members of a position.
pub fn write_position(writer: &mut Writer, position: &Position)
    ensures { Adds writer.old writer.new (written.position position.now) }
{
    writer.text_member("epoch", position.epoch.as_str());
    writer.whole_member("offset", position.offset);
}

/// An id, and a request that has a channel alone.
fn write_on_channel(writer: &mut Writer, id: u32, key: &str, channel: &str)
    ensures { Adds writer.old writer.new
        (("id" ⇒ written.whole id) ∷ (key.now, Some (channel_alone channel.now)) ∷ []) }
{
    write_id(writer, id);
    writer.open(key, "{");
    writer.text_member("channel", channel);
    writer.value("}");
}

fn write_subscribe(writer: &mut Writer, id: u32, channel: &str, since: &Option<Position>)
    ensures { Adds writer.old writer.new
        (("id" ⇒ written.whole id)
        ∷ ("subscribe" ⇒ Some (object_of
        (("channel" ⇒ written.text channel.now) ∷ from since.now))) ∷ []) }
{
    write_id(writer, id);
    writer.open("subscribe", "{");
    writer.text_member("channel", channel);
    if let Some(position) = since {
        write_position(writer, position);
        writer.flag_member("recover", true);
    }
    writer.value("}");
}

fn write_publish(writer: &mut Writer, id: u32, channel: &str, key: &str, body: &Data)
    ensures { Adds writer.old writer.new
        (("id" ⇒ written.whole id)
        ∷ ("publish" ⇒ Some (object_of (("channel" ⇒ written.text channel.now)
        ∷ ("data" ⇒ body_of as_it_is (shown_data body.now))
        ∷ ("key" ⇒ written.text key.now) ∷ []))) ∷ []) }
{
    write_id(writer, id);
    writer.open("publish", "{");
    writer.text_member("channel", channel);
    write_data(writer, body);
    writer.text_member("key", key);
    writer.value("}");
}

fn write_data(writer: &mut Writer, body: &Data)
    ensures { Adds writer.old writer.new
        (("data" ⇒ body_of as_it_is (shown_data body.now)) ∷ []) }
{
    if let Data::Body(text) = body {
        writer.key("data");
        writer.value(text.as_str());
    }
}

fn write_history(
    writer: &mut Writer,
    channel: &str,
    limit: &i32,
    since: &Option<Position>,
    reverse: bool,
)
    ensures { Adds writer.old writer.new
        (("history" ⇒ Some (object_of (("channel" ⇒ written.text channel.now)
        ∷ ("limit" ⇒ written.signed limit.now) ∷ ("reverse" ⇒ written.flag reverse)
        ∷ ("since" ⇒ since_of since.now) ∷ []))) ∷ []) }
{
    writer.open("history", "{");
    writer.text_member("channel", channel);
    writer.signed_member("limit", limit);
    writer.flag_member("reverse", reverse);
    write_since(writer, since);
    writer.value("}");
}

/// The position of a history, left out if there is none, and if it is the empty epoch at 0.
fn write_since(writer: &mut Writer, since: &Option<Position>)
    ensures { Adds writer.old writer.new (("since" ⇒ since_of since.now) ∷ []) }
{
    let Some(position) = since else {
        return;
    };
    if position.epoch.is_empty() && position.offset == 0 {
        return;
    }
    writer.open("since", "{");
    write_position(writer, position);
    writer.value("}");
}

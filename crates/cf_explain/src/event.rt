//! Whom and what an event names.

use cf_schedule::{Event, key_text};

/// The client of an event.
pub(crate) fn client_of(event: &Event) -> Option<&str> {
    match event {
        Event::Connect { client, .. }
        | Event::Ask { client, .. }
        | Event::AskFrom { client, .. }
        | Event::Read { client, .. }
        | Event::Finish { client, .. }
        | Event::PublishBy { client, .. }
        | Event::Take { client }
        | Event::Break { client }
        | Event::Leave { client, .. }
        | Event::Check { client, .. }
        | Event::ListHistory { client, .. } => Some(client.as_str()),
        _ => None,
    }
}

/// The channel of an event.
pub(crate) fn channel_of(event: &Event) -> Option<&str> {
    match event {
        Event::Ask { channel, .. }
        | Event::AskFrom { channel, .. }
        | Event::Read { channel, .. }
        | Event::Finish { channel, .. }
        | Event::Publish { channel, .. }
        | Event::PublishBy { channel, .. }
        | Event::Leave { channel, .. }
        | Event::Trim { channel, .. }
        | Event::Forget { channel }
        | Event::Check { channel, .. }
        | Event::ListHistory { channel, .. } => Some(channel.as_str()),
        _ => None,
    }
}

/// The key of an event: the empty one, which is none, if it has no key.
pub(crate) fn key_of(event: &Event) -> &str {
    match event {
        Event::Publish { key, .. } => key_text(key),
        Event::PublishBy { key, .. } => key_text(key),
        _ => "",
    }
}

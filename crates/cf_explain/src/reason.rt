//! Why an event changed nothing, told from the world, which is after it as it was before.

use crate::event::{channel_of, client_of};
use crate::subject::session_of;
use cf_hub::Hub;
use cf_protocol::Position;
use cf_schedule::{Event, World};
use std::alloc::{AllocError, Global};

/// Why an event changed nothing. `delivered` is the channel of the publication that it delivers.
pub(crate) fn reason(
    alloc: Global,
    world: &World<'_>,
    event: &Event,
    delivered: Option<&str>,
) -> Result<String, AllocError> {
    match event {
        Event::Publish { channel, .. } => no_stream(alloc, world, channel.as_str()),
        Event::Trim { channel, .. } => no_cut(alloc, world, channel.as_str()),
        Event::Forget { channel } => no_cut(alloc, world, channel.as_str()),
        Event::SetSize { namespace, .. } => match namespace_words(alloc, namespace.as_str()) {
            Ok(words) => format!(in alloc; "{words} isn't set up"),
            Err(error) => Err(error),
        },
        Event::BrokerRestart => String::from_str(alloc, "no channel has a stream"),
        Event::Restart { node } => format!(in alloc; "node {node} has no session"),
        Event::Deliver { node, publication } => match delivered {
            None => format!(in alloc; "publication {publication} doesn't exist"),
            Some(channel) => format!(in alloc; "no client of node {node} is in {channel}"),
        },
        _ => match client_of(event) {
            None => String::from_str(alloc, "all is as it was"),
            Some(name) => no_move(alloc, world, event, name),
        },
    }
}

// Of a publish, or a command that would open a stream.
fn no_stream(alloc: Global, world: &World<'_>, channel: &str) -> Result<String, AllocError> {
    let streams = world.streams();
    if !streams.is_set_up(channel) {
        return format!(in alloc; "the namespace of {channel} isn't set up");
    }
    match streams.position(channel) {
        None => format!(in alloc; "no epoch waits, so {channel} can have no stream"),
        Some(_) => format!(in alloc; "{channel} is at its last offset"),
    }
}

// Of a trim or a forget.
fn no_cut(alloc: Global, world: &World<'_>, channel: &str) -> Result<String, AllocError> {
    match world.streams().position(channel) {
        None => format!(in alloc; "{channel} has no stream"),
        Some(_) => format!(in alloc; "{channel} holds no more than that"),
    }
}

/// A namespace by its name.
pub(crate) fn namespace_words(alloc: Global, name: &str) -> Result<String, AllocError> {
    if name.is_empty() {
        return String::from_str(alloc, "the empty namespace");
    }
    format!(in alloc; "the namespace {name}")
}

// Of an event of a client.
fn no_move(
    alloc: Global,
    world: &World<'_>,
    event: &Event,
    name: &str,
) -> Result<String, AllocError> {
    let Some((hub, session)) = session_of(world, name) else {
        return match event {
            Event::Connect { node, .. } => format!(in alloc; "node {node} has no room"),
            _ => format!(in alloc; "{name} isn't connected"),
        };
    };
    let channel = channel_of(event).unwrap_or("");
    match event {
        Event::Connect { .. } => format!(in alloc; "{name} is connected"),
        Event::Take { .. } => format!(in alloc; "nothing waits for {name}"),
        Event::Read { .. } => no_read(alloc, hub, session, name, channel),
        Event::Finish { .. } => no_finish(alloc, hub, session, name, channel),
        Event::Check { .. } => no_check(alloc, world, hub, session, name, channel),
        _ => no_command(alloc, world, hub, session, event, name, channel),
    }
}

fn no_read(
    alloc: Global,
    hub: &Hub,
    session: u32,
    name: &str,
    channel: &str,
) -> Result<String, AllocError> {
    if hub.unread_subscription(session, channel).is_some() {
        return format!(in alloc; "no epoch waits, so {channel} can have no stream");
    }
    if hub.has_subscription(session, channel) {
        return format!(in alloc; "{channel} was read for {name}");
    }
    format!(in alloc; "{name} hasn't asked for {channel}")
}

fn no_finish(
    alloc: Global,
    hub: &Hub,
    session: u32,
    name: &str,
    channel: &str,
) -> Result<String, AllocError> {
    if hub.unread_subscription(session, channel).is_some() {
        return format!(in alloc; "{channel} isn't read for {name}");
    }
    if hub.is_subscribed(session, channel) {
        return format!(in alloc; "{name} has {channel}");
    }
    format!(in alloc; "{name} hasn't asked for {channel}")
}

fn no_check(
    alloc: Global,
    world: &World<'_>,
    hub: &Hub,
    session: u32,
    name: &str,
    channel: &str,
) -> Result<String, AllocError> {
    let Some(Position { offset, .. }) = hub.position_of(session, channel) else {
        return format!(in alloc; "{name}'s subscription to {channel} isn't finished");
    };
    match world.streams().position(channel) {
        Some(top) if top.offset > offset => format!(in alloc;
            "{name} is behind; a second check that finds so ends the subscription"
        ),
        _ => format!(in alloc; "{name} is where {channel} is"),
    }
}

// Of a command that a client would send.
fn no_command(
    alloc: Global,
    world: &World<'_>,
    hub: &Hub,
    session: u32,
    event: &Event,
    name: &str,
    channel: &str,
) -> Result<String, AllocError> {
    if !hub.is_settled(session) {
        return format!(in alloc; "{name} waits for a subscription to be finished");
    }
    match event {
        Event::Ask { .. } => format!(in alloc; "{name} isn't idle at {channel}"),
        Event::AskFrom { .. } => format!(in alloc; "{name} isn't idle at {channel}"),
        Event::Leave { .. } => format!(in alloc; "{name} is idle at {channel}"),
        _ => no_stream(alloc, world, channel),
    }
}

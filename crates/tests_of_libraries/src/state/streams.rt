//! The streams of all channels.
use crate::publications::place;
use cf_protocol::{Epoch, read_namespaces};
use cf_stream::{Epochs, Streams};
use std::alloc::Global;

/// Each new stream gets the same epoch.
#[derive(Drop)]
struct Same;

impl Epochs for Same {
    ghost use Rattle.std.specs.Prelude.{⊤};

    ghost draws = { λ old r new. ⊤ };

    fn draw(&mut self) -> Option<Epoch> {
        Some(Epoch::from_text("aaaa"))
    }
}

/// Publishes an empty body to a channel, and answers its offset.
fn publish(alloc: Global, streams: &mut Streams, channel: &str) -> Option<u64> {
    if !streams.is_set_up(channel) {
        return None;
    }
    let (body, key) = (String::new(alloc), String::new(alloc));
    match streams.publish(&mut Same, channel, body, key, None, 0) {
        Ok(published) => Some(published.position.offset),
        Err(_) => None,
    }
}

/// How many publications of a channel are recovered from offset 700 on, or listed.
fn count(streams: &mut Streams, name: &str, channel: &str) -> Option<usize> {
    if !streams.is_set_up(channel) {
        return None;
    }
    if name == "read" {
        return match streams.read(&mut Same, channel, Some(place(700)), 0) {
            Ok(answer) => Some(answer.publications.len()),
            Err(_) => None,
        };
    }
    match streams.history(&mut Same, channel, None, -1, 0) {
        Ok(answer) => Some(answer.publications.len()),
        Err(_) => None,
    }
}

/// Whether a channel opens by a history, another by a read, and this one by a publish; and whether it takes a thousand empty
/// bodies, and gives the last 300 and the first.
fn takes_and_gives(alloc: Global, streams: &mut Streams, channel: &str) -> bool {
    if count(streams, "list", "a") != Some(0) || count(streams, "read", "b") != Some(0) {
        return false;
    }
    for offset in 1..1001 {
        if publish(alloc, streams, channel) != Some(offset) {
            return false;
        }
    }
    count(streams, "read", channel) == Some(300) && count(streams, "list", channel) == Some(300)
}

/// The same of a name that is so long, in streams of one namespace, of 1,000 publications each.
#[test]
fn long_names_and_empty_bodies(rt: HostRuntime) {
    let name = "x".repeat(rt.alloc(), 65_536).expect(&rt, "memory");
    let namespaces = read_namespaces(rt.alloc(), "=1000,300,phs").expect(&rt, "namespaces");
    let streams = Streams::new(rt.alloc(), &namespaces).expect(&rt, "memory");
    let mut streams = Box::new(rt.alloc(), streams).expect(&rt, "memory");
    assert!(rt; takes_and_gives(rt.alloc(), &mut *streams, name.as_str()));
}

//! Reading and writing the protocol's texts.
use cf_protocol::{Outgoing, Pushed, read_commands, read_replies, write_publication, write_reply};
use std::alloc::Global;

/// `commands TIMES TEXT` and `replies TIMES TEXT` read the text, and `write TIMES TEXT` writes its first reply or push. Says how
/// many commands or replies were read, or bytes written, in all.
pub(crate) fn call(alloc: Global, name: &str, passed: &str) -> Option<u64> {
    let (times, text) = passed.split_once(' ')?;
    let times = times.parse::<u32>().ok()?;
    match name {
        "commands" => commands(alloc, times, text),
        "replies" => replies(alloc, times, text),
        _ => write_first(alloc, times, text),
    }
}

fn commands(alloc: Global, times: u32, text: &str) -> Option<u64> {
    let mut done = 0_u64;
    for _ in 0..times {
        done = done.saturating_add(read_commands(alloc, text).ok()?.len() as u64);
    }
    Some(done)
}

fn replies(alloc: Global, times: u32, text: &str) -> Option<u64> {
    let mut done = 0_u64;
    for _ in 0..times {
        done = done.saturating_add(read_replies(alloc, text).ok()?.len() as u64);
    }
    Some(done)
}

fn write_first(alloc: Global, times: u32, text: &str) -> Option<u64> {
    let read = read_replies(alloc, text).ok()?;
    let outgoing = read.first()?;
    let mut done = 0_u64;
    for _ in 0..times {
        done = done.saturating_add(written(alloc, outgoing)?);
    }
    Some(done)
}

/// The bytes of the text of what goes out. A publication's push is written from parts that are lent, as a hub does.
fn written(alloc: Global, outgoing: &Outgoing) -> Option<u64> {
    let text = match outgoing {
        Outgoing::Push {
            channel,
            push: Pushed::Publication(publication),
        } => write_publication(alloc, channel.as_str(), publication),
        _ => write_reply(alloc, outgoing),
    };
    Some(text.ok()?.len() as u64)
}

//! Texts of Centrifugo's client protocol in its JSON form.
mod calls;
mod commands;
mod replies;

use crate::rows::{Subject, Told, call_of};
use cf_protocol::{read_commands, read_replies, write_command, write_reply};
use std::alloc::Global;

/// Frames. `commands FRAME` comes from a client, and gives its commands as they are written again, one behind another;
/// `replies FRAME` gives the same of the server's replies and pushes.
#[derive(Drop)]
struct Frames;

fn tell_commands(told: &mut Told, alloc: Global, frame: &str) {
    match read_commands(alloc, frame) {
        Ok(commands) => {
            for command in &commands {
                told.answer(write_command(alloc, command));
            }
        }
        Err(fault) => told.tell(fault),
    }
}

fn tell_replies(told: &mut Told, alloc: Global, frame: &str) {
    match read_replies(alloc, frame) {
        Ok(replies) => {
            for reply in &replies {
                told.answer(write_reply(alloc, reply));
            }
        }
        Err(fault) => told.tell(fault),
    }
}

impl Subject for Frames {
    fn play(&mut self, alloc: Global, done: &str, told: &mut Told) {
        match call_of(done) {
            ("commands", frame) => tell_commands(told, alloc, frame),
            ("replies", frame) => tell_replies(told, alloc, frame),
            _ => told.tell("no call"),
        }
    }
}

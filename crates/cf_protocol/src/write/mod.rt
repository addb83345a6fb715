//! The texts of commands, replies and pushes: compact, with members in byte order of their keys, and those left out that are
//! 0, false, an empty text, an empty list or an empty object.

mod command;
mod outgoing;
mod publication;
mod push;
mod writer;

pub use command::write_command;
pub use outgoing::write_reply;
pub use push::{write_publication, write_unsubscribe};

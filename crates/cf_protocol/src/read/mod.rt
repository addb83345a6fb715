//! Commands, replies and pushes, read from the texts of frames.

mod command;
mod frame;
mod keys;
mod members;
mod method;
mod outcome;
mod outgoing;
mod publication;

pub use frame::{read_commands, read_replies};

//! A channel's stream: an epoch, a top offset and the last publications. And the streams of all channels, by their names.
//!
//! The rules are those of Centrifugo's document on history and recovery; limits and the exact rule of recovery are this project's
//! own.
#![tactic(auto)]

mod answer;
mod due;
mod keys;
mod opening;
mod refusal;
mod ring;
mod stream;
mod streams;

pub use answer::{History, Published, Recovery};
pub use due::{Due, DueWalk};
pub use opening::Epochs;
pub use refusal::StreamRefusal;
pub use stream::{LARGEST_SIZE, LAST_OFFSET, Stream, TickOutcome, UNUSED_SECONDS};
pub use streams::Streams;

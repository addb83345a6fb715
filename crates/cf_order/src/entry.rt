//! What a call adds to the log of a shard.
use cf_protocol::Epoch;

/// An entry of a shard's log. It lends its texts; contracts see it by `entry_of`.
#[derive(Clone, Copy)]
pub enum Entry<'a> {
    /// The channel's stream opens in this epoch.
    Opened(&'a str, Epoch),
    /// A publication of the channel is accepted: its key, which may be empty, its body, and the user and the client that
    /// published it, if one did.
    Published(&'a str, &'a str, &'a str, Option<(&'a str, &'a str)>),
    /// At most so many of the channel's newest publications stay held.
    Trimmed(&'a str, usize),
    /// The channel's stream ends.
    Forgotten(&'a str),
    /// Streams of the namespace of this name hold at most so many from now on.
    Sized(&'a str, usize),
}

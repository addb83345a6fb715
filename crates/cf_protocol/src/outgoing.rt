//! What goes out to a client.
use crate::position::Position;
use crate::publication::Publication;
use std::collections::BTreeMap;

/// The result of a command.
#[derive(Drop)]
pub enum Outcome {
    /// The client's id.
    Connected {
        client: String,
    },
    Subscribed {
        position: Position,
        publications: Vec<Publication>,
        /// Whether the publications are all those since the position that the client gave.
        recovered: bool,
        /// Whether the client gave a position.
        was_recovering: bool,
    },
    Unsubscribed,
    Published,
    /// The user of each client, by the client's id.
    Present {
        users: BTreeMap<String, String>,
    },
    /// How many clients there are, and how many different users.
    Counted {
        clients: u64,
        users: u64,
    },
    Past {
        position: Position,
        publications: Vec<Publication>,
    },
    Pinged,
    /// The command is refused with an error code.
    Failed {
        code: u32,
    },
}

/// What comes unasked for on a channel.
#[derive(Drop)]
pub enum Pushed {
    Publication(Publication),
    /// The client is no longer subscribed.
    Unsubscribe { code: u32 },
}

/// One text to a client: the ping, a reply or a push.
#[derive(Drop)]
pub enum Outgoing {
    Ping,
    Answer { id: u32, outcome: Outcome },
    Push { channel: String, push: Pushed },
}

//! What a client asks for.
use crate::position::Position;

/// What a publish brings as its data.
#[derive(Drop)]
pub enum Data {
    /// The command has no `data`.
    Absent,
    /// It nests deeper than 60.
    TooDeep,
    /// Its compact text.
    Body(String),
}

/// The request of a command. Absent texts are empty, absent numbers 0 and absent flags false.
#[derive(Drop)]
pub enum Request {
    /// The answer to a ping, which is an object without members.
    Pong,
    Connect {
        token: String,
    },
    /// A client that asks to recover gives the position from which it goes on.
    Subscribe {
        channel: String,
        since: Option<Position>,
    },
    Unsubscribe {
        channel: String,
    },
    Publish {
        channel: String,
        /// By which a repeat is known. The empty key is none.
        key: String,
        body: Data,
    },
    Presence {
        channel: String,
    },
    PresenceStats {
        channel: String,
    },
    /// The publications of a channel's stream, at most `limit` of them, after `since` if it is there.
    History {
        channel: String,
        limit: i32,
        since: Option<Position>,
        reverse: bool,
    },
    Ping,
    /// A message to the server, to which nothing is answered.
    Send,
    /// `rpc`, `refresh` or `sub_refresh`, which are not served.
    Other,
}

/// A command of a client. Its id is at least 1, but for a pong, which has none (0), and a send, which need not have one.
#[derive(Drop)]
pub struct Command {
    pub id: u32,
    pub request: Request,
}

//! What a session asks its node for, and what it is answered.
use cf_presence::Stats;
use cf_protocol::{CloseCode, ErrorCode, Info, Position};
use std::collections::BTreeMap;

/// What a client publishes, where, and who it is: one value from the session to the broker, so that no two of its texts change
/// places on the way.
#[derive(Drop)]
pub struct Publish {
    /// The channel's name.
    pub channel: String,
    /// By which a repeat is known. The empty key is none.
    pub key: String,
    /// The compact text of its data.
    pub body: String,
    /// The client that publishes.
    pub info: Info,
}

/// What a session wants done by its node. All but `Say`, `Pong` and `Close` are calls, whose answer it waits for; the fields of a
/// call are its arguments, without the session, the moment and the source of epochs.
#[derive(Drop)]
pub enum Action {
    /// A new session of this user.
    Attach {
        user: String,
    },
    /// A subscription is begun for the command of this id.
    Begin {
        channel: String,
        id: u32,
        since: Option<Position>,
    },
    /// The channel's stream is read for the subscription that was begun, which gets what was read.
    Read {
        channel: String,
        since: Option<Position>,
    },
    /// The subscription is finished, by which the hub gives the reply.
    Finish {
        channel: String,
    },
    /// The channel's subscription, if there is one, is left.
    Leave {
        channel: String,
    },
    /// This is published.
    Publish(Publish),
    /// The publications that the channel's stream holds, after `since` where it is there, are listed in the reply to the command
    /// of this id, which the node gives.
    History {
        channel: String,
        id: u32,
        limit: i32,
        since: Option<Position>,
    },
    /// Who is there in the channel.
    Presence {
        channel: String,
    },
    /// How many are there in the channel.
    Stats {
        channel: String,
    },
    /// This text, a reply, goes to the client.
    Say(String),
    /// The client answered a ping.
    Pong,
    /// The session is to be closed with this code.
    Close(CloseCode),
}

/// What a call answered; where it was refused, the error code that the command's reply has (`stream_error`, `presence_error`).
#[derive(Drop)]
pub enum Answer {
    /// The client id.
    Attach(Result<String, ErrorCode>),
    Begin(Result<(), ErrorCode>),
    Read(Result<(), ErrorCode>),
    Finish,
    Leave,
    Publish(Result<(), ErrorCode>),
    History(Result<(), ErrorCode>),
    /// The user of each client, by the client's id.
    Presence(Result<BTreeMap<String, String>, ErrorCode>),
    Stats(Stats),
}

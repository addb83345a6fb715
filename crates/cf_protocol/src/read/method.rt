//! The methods of commands.

/// What a command asks for, by the one of its keys that says so.
#[derive(Clone, Copy)]
pub enum Method {
    Connect,
    Subscribe,
    Unsubscribe,
    Publish,
    Presence,
    PresenceStats,
    History,
    Ping,
    Send,
    /// One of those that are not served.
    Other,
}

/// The keys of commands.
pub const METHODS: [(&str, Method); 12] = [
    ("connect", Method::Connect),
    ("subscribe", Method::Subscribe),
    ("unsubscribe", Method::Unsubscribe),
    ("publish", Method::Publish),
    ("presence", Method::Presence),
    ("presence_stats", Method::PresenceStats),
    ("history", Method::History),
    ("ping", Method::Ping),
    ("send", Method::Send),
    ("rpc", Method::Other),
    ("refresh", Method::Other),
    ("sub_refresh", Method::Other),
];

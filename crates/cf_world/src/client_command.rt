//! What a client sends after it has connected.

/// What a client is to send.
#[derive(Clone, Copy)]
pub(crate) enum ClientCommand<'a> {
    /// To be subscribed, from no position.
    Ask {
        channel: &'a str,
    },
    /// To be subscribed, from the last position that it had there.
    AskFrom {
        channel: &'a str,
    },
    /// To be subscribed no longer.
    Leave {
        channel: &'a str,
    },
    /// To publish, under a key, which may be the empty one.
    Put {
        channel: &'a str,
        key: &'a str,
        body: &'a str,
    },
    /// To be told the history: at most so many publications, or all if the limit is below 0.
    List {
        channel: &'a str,
        limit: i32,
    },
}

//! What became of a text that was to be said.

/// What became of a text for a client.
#[derive(Clone, Copy, PartialEq, Eq, Debug, Drop)]
pub enum Queued {
    /// It waits for the client.
    Kept,
    /// The session is closed, now or since before.
    Closed,
    /// There is no such session.
    Gone,
}

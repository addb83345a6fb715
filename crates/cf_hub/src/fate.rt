//! What became of one session in a call.

/// What a call did with one session.
#[derive(Clone, Copy)]
pub(crate) enum Fate {
    /// What was to be said waits for its client.
    Passed,
    /// It was kept until the reply.
    Kept,
    /// It was known already, or nobody asked for it.
    Dropped,
    /// The subscription ended.
    Ended,
    /// The session was closed.
    Closed,
}

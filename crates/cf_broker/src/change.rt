//! The calls that change a shard's streams and answer nothing.

/// What a call changes in a shard's streams. It answers only whether the shard's log has room for its entries.
#[derive(Clone, Copy)]
pub(crate) enum Change<'a> {
    /// The channel keeps at most so many of its newest publications.
    KeepNewest(&'a str, usize),
    /// The channel's stream ends.
    EndStream(&'a str),
    /// The streams of the namespace of this name may hold so many publications.
    SetSize(&'a str, usize),
    /// It is this moment, in seconds.
    Tick(u64),
}

//! A subscription that waits for its stream.

use cf_protocol::Position;

/// A subscription for which the stream was not read yet.
#[derive(Clone, Copy, PartialEq, Eq, Debug)]
pub struct UnreadSubscription {
    /// The position from which it asked, if it did from one.
    pub since: Option<Position>,
}

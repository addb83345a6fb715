//! Why a session or a subscription isn't made.
use thiserror::Error;

/// Why a session or a subscription isn't made. Of several causes the first named here is given. A refused call changes nothing.
#[derive(Clone, Copy, Debug, PartialEq, Eq, Drop, Error)]
pub enum HubRefusal {
    /// There is no such session, or it is closed.
    #[error("there is no such session")]
    NoSession,
    /// The session follows the channel, or is asking for it.
    #[error("the session follows the channel already")]
    Already,
    /// The session has 128 channels, the node has 65,536 subscriptions or 16,384 sessions, or its last client id is used.
    #[error("the node or the session has as many as it may have")]
    TooMany,
    /// Memory was refused.
    #[error("out of memory")]
    Memory,
}

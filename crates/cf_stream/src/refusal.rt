//! Why a call on streams is refused.
ghost use Rattle.std.specs.Prelude.{◌≡◌};
ghost use Rattle.cf_stream.specs.declared.refusal.StreamRefusal.TheVariants.{Memory};

use std::alloc::AllocError;
use thiserror::Error;

/// Why a call is refused. Of several causes the first named here is given. A refused call changes nothing.
#[derive(Debug, Drop, Error)]
pub enum StreamRefusal {
    /// A publish to a stream at offset 9,007,199,254,740,991, above which an offset is no exact JSON number everywhere.
    #[error("the stream is at its last offset")]
    AtLastOffset,
    /// A history after a position whose epoch isn't the stream's, or if the channel has no stream.
    #[error("the position is of another epoch")]
    WrongEpoch,
    /// No stream stood, and no epoch was drawn for a new one. This alone comes after want of memory, since it takes the draw to
    /// know.
    #[error("there is no epoch for a new stream")]
    NoEpoch,
    /// Memory was refused.
    #[error("out of memory")]
    Memory,
}

impl From<AllocError> for StreamRefusal {
    ghost from_gives = { λ _ e. e ≡ Memory };

    fn from(_error: AllocError) -> StreamRefusal {
        StreamRefusal::Memory
    }
}

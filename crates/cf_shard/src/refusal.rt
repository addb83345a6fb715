//! Why a call of the broker is refused.
ghost use Rattle.std.specs.Prelude.{◌≡◌};
ghost use Rattle.cf_shard.specs.declared.refusal.Refused.TheVariants.{Memory};
ghost use Rattle.cf_shard.specs.Shard.{refused_of};

use cf_presence::PresenceError;
use cf_stream::StreamRefusal;
use std::alloc::{AllocError, AllocFailed};
use thiserror::Error;

/// Why a call is refused. A refused call changes nothing.
#[derive(Debug, Drop, Clone, Copy, PartialEq, Eq, Error)]
pub enum Refused {
    /// The stream's top offset is the last one.
    #[error("at the last offset")]
    AtLastOffset,
    /// A history after a position of another epoch than the stream's, or if there is no stream.
    #[error("wrong epoch")]
    WrongEpoch,
    /// A stream would open, and there is no epoch for it.
    #[error("no epoch")]
    NoEpoch,
    /// Memory was refused.
    #[error("out of memory")]
    Memory,
    /// The shard's log has no room for the call's entries: it has at most 2^62.
    #[error("at the last count")]
    AtLastCount,
}

impl From<AllocError> for Refused {
    ghost from_gives = { λ _ e. e ≡ Memory };

    fn from(_error: AllocError) -> Refused {
        Refused::Memory
    }
}

impl<T: Drop> From<AllocFailed<T>> for Refused {
    ghost from_gives = { λ _ e. e ≡ Memory };

    fn from(_error: AllocFailed<T>) -> Refused {
        Refused::Memory
    }
}

impl From<PresenceError> for Refused {
    ghost from_gives = { λ _ e. e ≡ Memory };

    fn from(_error: PresenceError) -> Refused {
        Refused::Memory
    }
}

impl From<StreamRefusal> for Refused {
    ghost from_gives = { λ refusal e. e ≡ refused_of refusal };

    fn from(refusal: StreamRefusal) -> Refused {
        match refusal {
            StreamRefusal::AtLastOffset => Refused::AtLastOffset,
            StreamRefusal::WrongEpoch => Refused::WrongEpoch,
            StreamRefusal::NoEpoch => Refused::NoEpoch,
            StreamRefusal::Memory => Refused::Memory,
        }
    }
}

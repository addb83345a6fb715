//! Why a call on presence is refused.
ghost use Rattle.std.specs.Prelude.{◌≡◌};
ghost use Rattle.cf_presence.specs.declared.error.PresenceError.TheVariants.{Memory};

use std::alloc::AllocError;
use thiserror::Error;

/// Why a call is refused. A refused call changes nothing.
#[derive(Debug, Drop, Error)]
pub enum PresenceError {
    /// Memory was refused.
    #[error("out of memory")]
    Memory,
}

impl From<AllocError> for PresenceError {
    ghost from_gives = { λ _ e. e ≡ Memory };

    fn from(_error: AllocError) -> PresenceError {
        PresenceError::Memory
    }
}

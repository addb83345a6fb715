//! How a conversation ends if it doesn't succeed.
use std::alloc::{AllocError, AllocFailed};
use std::io;
use thiserror::Error;

/// Why a conversation ended before its end.
#[derive(Clone, Copy, Debug, PartialEq, Eq, Drop, Error)]
pub enum SpeakError {
    /// A line isn't UTF-8.
    #[error("not UTF-8")]
    NotUtf8,
    /// Memory was refused.
    #[error("out of memory")]
    Memory,
    /// A read or a write failed, or gave no end.
    #[error("input or output failed")]
    InputOutput,
}

impl From<AllocError> for SpeakError {
    ghost use Rattle.std.specs.Prelude.{◌≡◌};
    ghost use Rattle.cf_speak.specs.declared.error.SpeakError.TheVariants.{Memory};

    ghost from_gives = { λ _ fault. fault ≡ Memory };

    fn from(_refused: AllocError) -> SpeakError {
        SpeakError::Memory
    }
}

impl From<io::Error> for SpeakError {
    ghost use Rattle.std.specs.Prelude.{◌≢◌};
    ghost use Rattle.cf_speak.specs.declared.error.SpeakError.TheVariants.{NotUtf8};

    ghost from_gives = { λ _ fault. fault ≢ NotUtf8 };

    fn from(error: io::Error) -> SpeakError {
        match error.kind() {
            io::ErrorKind::OutOfMemory => SpeakError::Memory,
            _ => SpeakError::InputOutput,
        }
    }
}

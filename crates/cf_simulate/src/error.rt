//! How a simulation ends if it doesn't succeed.
ghost use Rattle.std.specs.Prelude.{◌≡◌};
ghost use Rattle.cf_simulate.specs.Status.{status_of};

use cf_protocol::Epoch;
use cf_world::Short;
use std::alloc::{AllocError, AllocFailed};
use std::io;
use thiserror::Error;

/// Why a simulation ended before its end.
#[derive(Debug, Drop, Error)]
pub enum SimulateError {
    /// The line is none of a schedule's.
    #[error("line {line}: unreadable")]
    Unreadable { line: usize },
    /// The line gives an epoch that an earlier line gave.
    #[error("line {line}: epoch {epoch} is used twice")]
    UsedTwice { line: usize, epoch: Epoch },
    /// The input isn't UTF-8.
    #[error("not UTF-8")]
    NotUtf8,
    #[error("out of memory")]
    Memory,
    /// A read or a write failed, or gave no end.
    #[error("input or output failed")]
    InputOutput,
}

impl SimulateError {
    /// The program's exit status: 2 for its input, 3 for want of memory, 4 if input or output failed.
    pub fn status(&self) -> u8
        ensures { result ≡ status_of self.now }
    {
        match self {
            SimulateError::Memory => 3,
            SimulateError::InputOutput => 4,
            _ => 2,
        }
    }
}

impl From<AllocError> for SimulateError {
    ghost use Rattle.std.specs.Prelude.{◌≡◌};
    ghost use Rattle.cf_simulate.specs.declared.error.SimulateError.TheVariants.{Memory};

    ghost from_gives = { λ _ fault. fault ≡ Memory };

    fn from(_refused: AllocError) -> SimulateError {
        SimulateError::Memory
    }
}

impl<T: Drop> From<AllocFailed<T>> for SimulateError {
    ghost use Rattle.std.specs.Prelude.{◌≡◌};
    ghost use Rattle.cf_simulate.specs.declared.error.SimulateError.TheVariants.{Memory};

    ghost from_gives = { λ _ fault. fault ≡ Memory };

    fn from(_refused: AllocFailed<T>) -> SimulateError {
        SimulateError::Memory
    }
}

impl From<Short> for SimulateError {
    ghost use Rattle.std.specs.Prelude.{◌≡◌};
    ghost use Rattle.cf_simulate.specs.declared.error.SimulateError.TheVariants.{Memory};

    ghost from_gives = { λ _ fault. fault ≡ Memory };

    fn from(_refused: Short) -> SimulateError {
        SimulateError::Memory
    }
}

impl From<io::Error> for SimulateError {
    ghost use Rattle.cf_simulate.specs.Simulation.{IsOutside};

    ghost from_gives = { λ _ fault. IsOutside fault };

    fn from(error: io::Error) -> SimulateError {
        match error.kind() {
            io::ErrorKind::OutOfMemory => SimulateError::Memory,
            _ => SimulateError::InputOutput,
        }
    }
}

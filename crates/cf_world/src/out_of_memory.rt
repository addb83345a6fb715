//! Want of memory.
use cf_client::ClientFault;
use cf_protocol::ReadFault;
use std::alloc::{AllocError, AllocFailed};
use thiserror::Error;

/// No memory was left for an event.
#[derive(Clone, Copy, Debug, PartialEq, Eq, Drop, Error)]
#[error("out of memory")]
pub struct Short;

impl From<AllocError> for Short {
    fn from(_refused: AllocError) -> Short {
        Short
    }
}

impl<T: Drop> From<AllocFailed<T>> for Short {
    fn from(_refused: AllocFailed<T>) -> Short {
        Short
    }
}

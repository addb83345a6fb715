//! A place within a channel.
use crate::epoch::Epoch;

/// An offset in a stream of this epoch. Offset 0 stands before the first publication.
#[derive(Clone, Copy, PartialEq, Eq, Debug)]
pub struct Position {
    pub epoch: Epoch,
    pub offset: u64,
}

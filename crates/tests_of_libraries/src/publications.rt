//! Publications and positions that several tests speak of.
use cf_protocol::{Epoch, Info, Position, Publication};
use std::alloc::Global;

/// A client of ann.
pub(crate) fn ann(alloc: Global) -> Option<Info> {
    let user = String::from_str(alloc, "ann").ok()?;
    let client = String::from_str(alloc, "0-1-1").ok()?;
    Some(Info { user, client })
}

/// A publication of ann.
pub(crate) fn publication(alloc: Global, offset: u64, body: &str) -> Option<Publication> {
    let info = Some(ann(alloc)?);
    let body = String::from_str(alloc, body).ok()?;
    Some(Publication { offset, body, info })
}

/// A place in the epoch `aaaa`.
pub(crate) fn place(offset: u64) -> Position {
    Position {
        epoch: Epoch::from_text("aaaa"),
        offset,
    }
}

//! Publications that come while a subscription is being asked for.
use crate::publications::{place, publication};
use cf_recovery::Waiting;
use std::alloc::Global;

/// The offsets from 1 up to this one, which come in a shuffled order.
fn kept(alloc: Global, last: u32) -> Option<Waiting> {
    let mut waiting = Waiting::new(alloc);
    let mut offset = 0_u64;
    for _ in 0..last {
        offset = offset.wrapping_add(619) % u64::from(last);
        let publication = publication(alloc, offset.wrapping_add(1), "1")?;
        waiting.keep(&place(0).epoch, &publication);
    }
    Some(waiting)
}

/// How many are released at the start of the epoch, if they stand in order from offset 1 on, and whether none is missing. None:
/// there was no memory, or they don't stand so.
fn released(alloc: Global, last: u32) -> Option<(u64, bool)> {
    let waiting = kept(alloc, last)?;
    if waiting.short() {
        return None;
    }
    let released = waiting.release(&place(0));
    let mut count = 0_u64;
    for publication in &released.run {
        count = count.saturating_add(1);
        if publication.offset != count {
            return None;
        }
    }
    Some((count, !released.insufficient))
}

#[test]
fn buffer_limit(rt: HostRuntime) {
    assert!(rt; released(rt.alloc(), 1000) == Some((1000, true)));
    assert!(rt; released(rt.alloc(), 1001) == Some((0, false)));
}

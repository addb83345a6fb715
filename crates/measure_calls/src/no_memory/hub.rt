//! A hub and its sessions.

use super::report::Report;
use super::small::publication;
use cf_hub::Hub;
use cf_protocol::{Epoch, Position};
use cf_stream::Recovery;
use std::alloc::Global;

/// A session of ann that follows `news`.
fn subscribed(alloc: Global, hub: &mut Hub) -> Option<u32> {
    let session = hub.attach(String::from_str(alloc, "ann").ok()?, 0).ok()?;
    hub.begin(session, "news", 2, None).ok()?;
    let recovery = Recovery {
        position: Position {
            epoch: Epoch::from_text("aaaa"),
            offset: 0,
        },
        recovered: false,
        publications: Vec::new(alloc),
    };
    hub.read_done(session, "news", recovery);
    hub.finish(session, "news");
    Some(session)
}

/// The same, for which a publication waits behind the reply, and which asks for `chat`.
fn asking(alloc: Global, hub: &mut Hub) -> Option<u32> {
    let session = subscribed(alloc, hub)?;
    hub.deliver("news", &Epoch::from_text("aaaa"), &publication(alloc, 1)?);
    hub.begin(session, "chat", 3, None).ok()?;
    Some(session)
}

/// The calls that look at a hub, those that take what waits, `pong`, `leave`, `close`, `detach` and `short`.
pub(crate) fn calls(report: &Report<'_>) {
    let Ok(mut boxed) = Box::new(report.alloc(), Hub::new(report.alloc(), 0, 1)) else {
        return report.lacks_memory();
    };
    let hub = &mut *boxed;
    let Some(ann) = asking(report.alloc(), hub) else {
        return report.lacks_memory();
    };
    report.ready();
    look_calls(report, hub, ann);
    channel_calls(report, hub, ann);
    output_calls(report, hub, ann);
    end_calls(report, hub, ann);
}

fn look_calls(report: &Report<'_>, hub: &Hub, ann: u32) {
    let boot = hub.boot();
    let has_id = hub.client_id(ann).is_some();
    let is_ann = hub.user(ann) == Some("ann");
    let is_closed = hub.is_closed(ann);
    let is_so = boot == 1 && has_id && is_ann && !is_closed;
    report.made("Hub::boot, client_id, user and is_closed", is_so);
}

fn channel_calls(report: &Report<'_>, hub: &Hub, ann: u32) {
    let is_asked = hub.unread_subscription(ann, "chat").is_some();
    let is_settled = hub.is_settled(ann);
    report.made(
        "Hub::unread_subscription and is_settled",
        is_asked && !is_settled,
    );
    let is_on = hub.is_subscribed(ann, "news");
    let has = hub.has_subscription(ann, "chat");
    let stands = hub.position_of(ann, "news").is_some();
    report.made(
        "Hub::is_subscribed, has_subscription and position_of",
        is_on && has && stands,
    );
}

fn output_calls(report: &Report<'_>, hub: &mut Hub, ann: u32) {
    let waiting = hub.queue_len(ann);
    let has_front = hub.front(ann).is_some();
    report.made("Hub::queue_len and front", waiting == 2 && has_front);
    let next = hub.next_with_output();
    let is_taken = hub.take(ann).is_some();
    report.made(
        "Hub::next_with_output and take",
        next == Some(ann) && is_taken,
    );
    hub.pong(ann);
    report.made("Hub::pong", true);
}

fn end_calls(report: &Report<'_>, hub: &mut Hub, ann: u32) {
    report.made("Hub::leave", hub.leave(ann, "news"));
    hub.close(ann, 3001);
    report.made("Hub::close", hub.is_closed(ann));
    hub.detach(ann);
    report.made("Hub::detach", hub.user(ann).is_none());
    report.made("Hub::short", !hub.short());
}

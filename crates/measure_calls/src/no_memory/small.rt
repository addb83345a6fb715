//! What begins with nothing, what comes before a subscription's reply, a session's output, who is there, and a client's number.

use super::report::Report;
use bytes::ByteStr;
use cf_client::Client;
use cf_hub::Hub;
use cf_presence::Presence;
use cf_protocol::{Epoch, Position, Publication};
use cf_queue::{Out, OutQueue};
use cf_recovery::{Verdict, Waiting, check};
use cf_subs::SubTable;
use cf_subscribers::Subscribers;
use std::alloc::Global;

/// The calls of what is small.
pub(crate) fn calls(report: &Report<'_>) {
    new_calls(report);
    waiting_calls(report);
    queue_calls(report);
    presence_calls(report);
    client_call(report);
}

fn new_calls(report: &Report<'_>) {
    let alloc = report.alloc();
    let is_empty = SubTable::new(alloc).len() == 0
        && Subscribers::new(alloc).len() == 0
        && Hub::new(alloc, 0, 7).boot() == 7;
    report.made("new of SubTable, Subscribers and Hub", is_empty);
    let is_empty = OutQueue::new(alloc, 1000).is_empty() && !Waiting::new(alloc).short();
    report.made("new of OutQueue and Waiting", is_empty);
}

/// A publication without info.
pub(crate) fn publication(alloc: Global, offset: u64) -> Option<Publication> {
    Some(Publication {
        offset,
        body: String::from_str(alloc, "1").ok()?,
        info: None,
    })
}

/// Publications at the offsets from 100 down to 1.
fn kept(alloc: Global, epoch: &Epoch) -> Option<Waiting> {
    let mut waiting = Waiting::new(alloc);
    for before in 0..100_u64 {
        waiting.keep(epoch, &publication(alloc, 100 - before)?);
    }
    Some(waiting)
}

fn waiting_calls(report: &Report<'_>) {
    let epoch = Epoch::from_text("aaaa");
    let at = Position { epoch, offset: 0 };
    report.made("cf_recovery::check", check(&at, &epoch, 1) == Verdict::Pass);
    let Some(waiting) = kept(report.alloc(), &epoch) else {
        return report.lacks_memory();
    };
    report.ready();
    report.made("Waiting::short", !waiting.short());
    report.made("Waiting::release", waiting.release(&at).run.len() == 100);
}

/// A queue in which ten texts wait.
fn filled(alloc: Global) -> Option<OutQueue> {
    let mut queue = OutQueue::new(alloc, 1000);
    for _ in 0..10 {
        queue.push(ByteStr::from_static("text")).ok()?;
    }
    Some(queue)
}

fn look_calls(report: &Report<'_>, queue: &OutQueue) {
    let is_open = !queue.is_closed();
    let has_ten = !queue.is_empty() && queue.len() == 10;
    let has_front = queue.front().is_some();
    let is_so = is_open && has_ten && has_front;
    report.made("OutQueue::is_empty, is_closed, len and front", is_so);
}

fn queue_calls(report: &Report<'_>) {
    let Some(mut queue) = filled(report.alloc()) else {
        return report.lacks_memory();
    };
    report.ready();
    look_calls(report, &queue);
    report.made("OutQueue::take", matches!(queue.take(), Some(Out::Text(_))));
    report.made("OutQueue::bytes", queue.bytes() == 36);
    queue.close(3001);
    report.made("OutQueue::close", queue.is_closed());
}

/// A hundred clients of one user in `news`, each of which enters at the moment of its number.
fn entered(alloc: Global) -> Option<Presence> {
    let mut presence = Presence::new(alloc);
    for number in 0..100_u64 {
        let client = format!(in alloc; "0-1-{number}").ok()?;
        presence.enter("news", client.as_str(), "ann", number).ok()?;
    }
    Some(presence)
}

fn presence_calls(report: &Report<'_>) {
    let Some(mut presence) = entered(report.alloc()) else {
        return report.lacks_memory();
    };
    report.ready();
    let is_there = presence.enter("news", "0-1-7", "ann", 100).is_ok();
    report.made("Presence::enter of a client that is there", is_there);
    report.made("Presence::stats", presence.stats("news").clients == 100);
    presence.leave("news", "0-1-99");
    report.made("Presence::leave", presence.stats("news").clients == 99);
    presence.tick(100);
    report.made("Presence::tick", presence.stats("news").clients == 59);
}

/// The number of the next command of a client that is connected.
fn client_call(report: &Report<'_>) {
    let mut client = Client::new(report.alloc());
    if client.connect("").is_err() {
        return report.lacks_memory();
    }
    report.ready();
    report.made("Client::next_id", client.next_id() == Ok(2));
}

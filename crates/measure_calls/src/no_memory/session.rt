//! What a command is refused for, and whether a session was short of memory.

use super::report::Report;
use cf_protocol::{Data, Namespaces, Request, read_namespaces, read_tokens};
use cf_session::{Session, refusal_of};
use std::alloc::Global;

/// A publish to `news`.
fn publish(alloc: Global) -> Option<Request> {
    let channel = String::from_str(alloc, "news").ok()?;
    let key = String::from_str(alloc, "k").ok()?;
    let body = Data::Body(String::from_str(alloc, "1").ok()?);
    Some(Request::Publish { channel, key, body })
}

/// `refusal_of` a publish, and `short` of a session.
pub(crate) fn calls(report: &Report<'_>) {
    let Ok(namespaces) = read_namespaces(report.alloc(), "=100,300,phs") else {
        return report.lacks_memory();
    };
    refusal_call(report, &namespaces);
    short_call(report, &namespaces);
}

fn refusal_call(report: &Report<'_>, namespaces: &Namespaces) {
    let Some(request) = publish(report.alloc()) else {
        return report.lacks_memory();
    };
    report.ready();
    let is_allowed = refusal_of(namespaces, &request).is_none();
    report.made("cf_session::refusal_of", is_allowed);
}

fn short_call(report: &Report<'_>, namespaces: &Namespaces) {
    let Ok(tokens) = read_tokens(report.alloc(), "t1=ann") else {
        return report.lacks_memory();
    };
    let session = Session::new(report.alloc(), namespaces, &tokens);
    report.ready();
    report.made("Session::short", !session.short());
}

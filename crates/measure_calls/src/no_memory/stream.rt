//! One stream.

use super::report::Report;
use cf_protocol::Epoch;
use cf_stream::{LARGEST_SIZE, Stream};
use std::alloc::Global;

/// Twelve publications, under a key each.
fn publish_all(alloc: Global, stream: &mut Stream) -> Option<()> {
    for number in 0..12 {
        let body = String::from_str(alloc, "1").ok()?;
        let key = format!(in alloc; "k{number}").ok()?;
        stream.publish(body, key, None, 0).ok()?;
    }
    Some(())
}

/// A stream that holds ten publications.
fn filled(alloc: Global) -> Option<Stream> {
    let epoch = Epoch::from_text("aaaa");
    if epoch.is_empty() {
        return None;
    }
    let mut stream = Stream::start(alloc, epoch, 10).ok()?;
    publish_all(alloc, &mut stream)?;
    Some(stream)
}

/// `publish` of a repeat, `position`, `resize`, `trim` and `tick` of a stream.
pub(crate) fn calls(report: &Report<'_>) {
    match filled(report.alloc()) {
        Some(mut stream) => {
            repeat_call(report, &mut stream);
            size_calls(report, &mut stream);
        }
        None => report.lacks_memory(),
    }
}

fn repeat_call(report: &Report<'_>, stream: &mut Stream) {
    let body = String::new(report.alloc());
    let Ok(key) = String::from_str(report.alloc(), "k1") else {
        return report.lacks_memory();
    };
    report.ready();
    let is_repeat = match stream.publish(body, key, None, 0) {
        Ok(published) => published.repeated && published.position.offset == 2,
        Err(_) => false,
    };
    report.made("Stream::publish of a repeat", is_repeat);
}

fn size_calls(report: &Report<'_>, stream: &mut Stream) {
    stream.resize(8);
    report.made("Stream::resize", stream.held() == 8);
    stream.resize(LARGEST_SIZE);
    report.made("Stream::resize to more", stream.held() == 8);
    report.made("Stream::position", stream.position().offset == 12);
    stream.trim(5);
    report.made("Stream::trim", stream.held() == 5);
    stream.tick(300, 300);
    report.made("Stream::tick", stream.held() == 0);
}

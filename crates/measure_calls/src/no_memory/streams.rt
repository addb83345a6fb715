//! The streams of all channels.

use super::report::Report;
use cf_protocol::{Epoch, read_namespaces};
use cf_stream::{Due, Epochs, Streams};
use std::alloc::Global;

/// One epoch for each stream.
#[derive(Drop)]
struct Always;

impl Epochs for Always {
    ghost use Rattle.std.specs.Prelude.{⊤};

    ghost draws = { λ old r new. ⊤ };

    fn draw(&mut self) -> Option<Epoch> {
        Some(Epoch::from_text("aaaa"))
    }
}

/// A publication under a key of this number.
fn publish(alloc: Global, streams: &mut Streams, channel: u64, number: u64) -> Option<()> {
    let name = format!(in alloc; "c{channel}").ok()?;
    let key = format!(in alloc; "k{number}").ok()?;
    if streams.is_set_up(name.as_str()) {
        let body = String::new(alloc);
        streams
            .publish(&mut Always, name.as_str(), body, key, None, channel)
            .ok()?;
    }
    Some(())
}

/// Streams of a hundred channels, each with three publications, the last at the moment of the channel's number.
fn filled(alloc: Global) -> Option<Streams> {
    let namespaces = read_namespaces(alloc, "=2,300,phs").ok()?;
    let mut streams = Streams::new(alloc, &namespaces).ok()?;
    for number in 0..300 {
        publish(alloc, &mut streams, number / 3, number % 3)?;
    }
    Some(streams)
}

/// `position`, `last`, `held`, `repeat_of`, `set_size`, `trim`, `due`, `tick`, `forget` and `forget_all` of the streams of all
/// channels.
pub(crate) fn calls(report: &Report<'_>) {
    match filled(report.alloc()) {
        Some(mut streams) => {
            report.ready();
            look_calls(report, &streams);
            size_calls(report, &mut streams);
            tick_calls(report, &mut streams);
            forget_calls(report, &mut streams);
        }
        None => report.lacks_memory(),
    }
}

fn look_calls(report: &Report<'_>, streams: &Streams) {
    report.made("Streams::held", streams.held("c7") == 2);
    report.made("Streams::position", streams.position("c7").is_some());
    report.made("Streams::last", streams.last("c7").is_some());
    report.made(
        "Streams::repeat_of",
        streams.repeat_of("c7", "k2").is_some(),
    );
}

/// How many streams a tick would empty.
fn due_count(streams: &Streams, now: u64) -> u64 {
    let mut count = 0_u64;
    for (_, due) in streams.due(now) {
        if due == Due::Empty {
            count = count.saturating_add(1);
        }
    }
    count
}

fn size_calls(report: &Report<'_>, streams: &mut Streams) {
    if streams.has_namespace("") {
        streams.set_size("", 1);
    }
    report.made("Streams::set_size", streams.held("c7") == 1);
    streams.trim("c7", 0);
    report.made("Streams::trim", streams.held("c7") == 0);
    report.made("Streams::due", due_count(streams, 349) == 49);
}

fn tick_calls(report: &Report<'_>, streams: &mut Streams) {
    streams.tick(349);
    report.made("Streams::tick", streams.held("c8") == 0);
    streams.tick(2_592_050);
    report.made(
        "Streams::tick that forgets",
        streams.position("c8").is_none(),
    );
}

fn forget_calls(report: &Report<'_>, streams: &mut Streams) {
    streams.forget("c77");
    report.made("Streams::forget", streams.position("c77").is_none());
    streams.forget_all();
    report.made("Streams::forget_all", streams.position("c60").is_none());
}

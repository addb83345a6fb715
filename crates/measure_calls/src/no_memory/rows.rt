//! Who follows what, by numbers and by the names of channels.

use super::report::Report;
use cf_subs::SubTable;
use cf_subscribers::Subscribers;
use std::alloc::Global;

/// The calls of both kinds of rows.
pub(crate) fn calls(report: &Report<'_>) {
    match numbered(report.alloc()) {
        Some(mut table) => table_calls(report, &mut table),
        None => report.lacks_memory(),
    }
    match named(report.alloc()) {
        Some(mut rows) => rows_calls(report, &mut rows),
        None => report.lacks_memory(),
    }
}

/// A hundred sessions that follow the channels 1 and 2 each.
fn numbered(alloc: Global) -> Option<SubTable> {
    let mut table = SubTable::new(alloc);
    for number in 0..200_u32 {
        let (channel, session) = (1 + number % 2, number / 2);
        if !table.has(channel, session) {
            table.add(channel, session).ok()?;
        }
    }
    Some(table)
}

/// A hundred sessions that follow `news` and `chat` each.
fn named(alloc: Global) -> Option<Subscribers> {
    let mut rows = Subscribers::new(alloc);
    for number in 0..200_u32 {
        let channel = if number % 2 == 0 { "news" } else { "chat" };
        if !rows.has(channel, number / 2) {
            rows.add(alloc, channel, number / 2).ok()?;
        }
    }
    Some(rows)
}

/// Goes along a channel's sessions.
fn walked(table: &SubTable, channel: u32) -> u64 {
    let mut count = 0_u64;
    for _ in table.walk(channel) {
        count = count.saturating_add(1);
    }
    count
}

/// Goes along a session's channels.
fn walked_session(table: &SubTable, session: u32) -> u64 {
    let mut count = 0_u64;
    for _ in table.walk_session(session) {
        count = count.saturating_add(1);
    }
    count
}

fn table_calls(report: &Report<'_>, table: &mut SubTable) {
    report.ready();
    report.made("SubTable::has", table.has(1, 50));
    report.made("SubTable::walk", walked(table, 1) == 100);
    report.made("SubTable::walk_session", walked_session(table, 50) == 2);
    let is_so = table.first(1) == Some(0) && table.after(1, 50) == Some(51);
    report.made("SubTable::first and after", is_so);
    let is_so = !table.has_channel(3) && table.channel_count(50) == 2 && table.len() == 200;
    report.made("SubTable::has_channel, channel_count and len", is_so);
    report.made("SubTable::remove", table.remove(1, 50));
    report.made("SubTable::detach", table.detach(51) == 2);
}

fn rows_calls(report: &Report<'_>, rows: &mut Subscribers) {
    report.ready();
    report.made("Subscribers::len", rows.len() == 200);
    let is_so = rows.has("news", 50) && rows.count(50) == 2;
    report.made("Subscribers::has and count", is_so);
    let is_so = rows.first("news") == Some(0) && rows.after("news", 50) == Some(51);
    report.made("Subscribers::first and after", is_so);
    report.made("Subscribers::remove", rows.remove("news", 50));
    report.made("Subscribers::detach", rows.detach(51) == 2);
}

//! Which session follows which channel: by rows, against a plain list of rows, and at the largest size.
use crate::rows::{Subject, Told, are_so, call_of};
use cf_subs::{MOST_ROWS, SubTable, SubTableError};
use std::alloc::Global;

/// Adds a row, which may be there.
fn put(table: &mut SubTable, channel: u32, session: u32) -> Result<(), SubTableError> {
    if table.has(channel, session) {
        return Ok(());
    }
    table.add(channel, session)
}

/// Tells a number of a walk, of which it is the first or not.
fn tell_number(told: &mut Told, number: u32, is_first: bool) {
    told.tell(if is_first { "" } else { " " });
    told.tell(number);
}

/// Tells a channel's sessions, or that it has none.
fn tell_sessions(told: &mut Told, table: &SubTable, channel: u32) {
    let mut is_first = true;
    for session in table.walk(channel) {
        tell_number(told, session, is_first);
        is_first = false;
    }
    if is_first {
        told.tell("none");
    }
}

/// Tells a session's channels, or that it has none.
fn tell_channels(told: &mut Told, table: &SubTable, session: u32) {
    let mut is_first = true;
    for channel in table.walk_session(session) {
        tell_number(told, channel, is_first);
        is_first = false;
    }
    if is_first {
        told.tell("none");
    }
}

/// Tells what a step answers.
fn tell_step(told: &mut Told, table: &mut SubTable, step: &str) {
    let (name, passed) = call_of(step);
    let (first, second) = call_of(passed);
    let first = told.number(first);
    match name {
        "walk" => tell_sessions(told, table, first),
        "channels" => tell_channels(told, table, first),
        "detach" => told.tell(table.detach(first)),
        "remove" => {
            let second = told.number(second);
            told.is_so(table.remove(first, second));
        }
        _ => {
            let second = told.number(second);
            told.is_so(put(table, first, second).is_ok());
        }
    }
}

/// `add C S` and `remove C S` are of a channel and a session, `detach S` of a session; `walk C` gives a channel's sessions, and
/// `channels S` a session's channels.
impl Subject for SubTable {
    fn play(&mut self, _alloc: Global, done: &str, told: &mut Told) {
        for step in done.split("; ") {
            told.part("; ");
            tell_step(told, self, step);
        }
    }
}

const ROWS: &str = "\
// rows_in_order_of_adding
add 1 10; add 2 10; add 1 11; add 1 12 => yes; yes; yes; yes
walk 1; walk 2; channels 10; channels 11; channels 12 => 10 11 12; 10; 1 2; 1; 1
// first_middle_last_and_only_row_go: the middle one of channel 1, which session 11 follows alone
remove 1 11; remove 1 11 => yes; no
walk 1; walk 2; channels 10; channels 11; channels 12 => 10 12; 10; 1 2; none; 1
// the last one
add 1 11; walk 1; remove 1 11; walk 1; channels 11 => yes; 10 12 11; yes; 10 12; none
// the first one, which is the first of its session as well
remove 1 10; walk 1; walk 2; channels 10; channels 12 => yes; 12; 10; 2; 1
// the only one of channel 2 and of session 10
remove 2 10; walk 1; walk 2; channels 10; channels 12 => yes; 12; none; none; 1
// the middle and the last one of a session
add 1 7; add 2 7; add 3 7; channels 7 => yes; yes; yes; 1 2 3
remove 2 7; channels 7; walk 2; walk 1 => yes; 1 3; none; 12 7
remove 3 7; channels 7; walk 3 => yes; 1; none
detach 7; channels 7; walk 1 => 1; none; 12
add 4294967295 4294967295; walk 4294967295; channels 4294967295 => yes; 4294967295; 4294967295
// session_of_128_channels_detaches, and another, which follows them too, stays
*128*add # 5; add # 6; *walk 1000 => *128*yes; yes; *5 6
channels 5 => *127*# *1127
detach 5; detach 5; channels 5 => 128; 0; none
*128*walk #; *walk 5 => *128*6; *none
channels 6 => *127*# *1127";

#[test]
fn walks_and_removals(rt: HostRuntime) {
    let mut table = SubTable::new(rt.alloc());
    are_so(&rt, rt.alloc(), "state/subs", &mut table, ROWS);
}

/// A row of the plain list: a channel, and a session that follows it.
type Follow = (u32, u32);

/// Whether the sessions of a channel and the channels of a session of this number are those of the plain rows, in their order.
fn agree(table: &SubTable, rows: &[Follow], number: u32) -> bool {
    let mut sessions = table.walk(number);
    let mut channels = table.walk_session(number);
    for (channel, session) in rows {
        if *channel == number && sessions.next() != Some(*session) {
            return false;
        }
        if *session == number && channels.next() != Some(*channel) {
            return false;
        }
    }
    sessions.next().is_none() && channels.next().is_none()
}

/// Adds a row to the table and to the plain rows, or takes it out of both. Whether both did the same. None: there was no memory.
fn change(table: &mut SubTable, rows: &mut Vec<Follow>, which: u32) -> Option<bool> {
    let (channel, session) = (which % 2, which / 2 % 2);
    let is_there = rows.iter().any(|row| row.0 == channel && row.1 == session);
    if which < 4 {
        if !is_there {
            rows.push((channel, session)).ok()?;
        }
        put(table, channel, session).ok()?;
        return Some(table.has(channel, session));
    }
    rows.retain(|row| row.0 != channel || row.1 != session);
    Some(table.remove(channel, session) == is_there)
}

/// One of ten calls over two channels and two sessions: four rows that are added, the four that are taken out, and each session
/// that goes. Whether table and plain rows do the same.
fn call(table: &mut SubTable, rows: &mut Vec<Follow>, which: u32) -> Option<bool> {
    if which < 8 {
        return change(table, rows, which);
    }
    let session = which % 2;
    let before = rows.len();
    rows.retain(|row| row.1 != session);
    Some(table.detach(session) == before.saturating_sub(rows.len()))
}

/// Whether a table gives what plain rows give after each call of a sequence, whose calls are the digits of its number.
fn is_same(alloc: Global, number: u32) -> Option<bool> {
    let (mut table, mut rows) = (SubTable::new(alloc), Vec::new(alloc));
    for which in [
        number / 1000 % 10,
        number / 100 % 10,
        number / 10 % 10,
        number % 10,
    ] {
        let is_so = call(&mut table, &mut rows, which)?
            && table.len() == rows.len()
            && agree(&table, rows.as_slice(), 0)
            && agree(&table, rows.as_slice(), 1);
        if !is_so {
            return Some(false);
        }
    }
    Some(true)
}

#[test]
fn every_sequence_of_four_calls(rt: HostRuntime) {
    for number in 0..10_000 {
        assert!(rt; is_same(rt.alloc(), number) == Some(true), "at {number}");
    }
}

/// A table of as many rows as it may have, 64 a session. It may go to another thread.
fn full(alloc: Global) -> Option<SubTable>
where
    SubTable: Send,
{
    let mut table = SubTable::new(alloc);
    for number in 0..65_536 {
        put(&mut table, number % 1000, number / 64).ok()?;
    }
    Some(table)
}

/// Whether a full table takes a row more only if one went. It is as before then.
fn is_limited(table: &mut SubTable) -> bool {
    table.len() == MOST_ROWS
        && put(table, 7, 5000) == Err(SubTableError::Full)
        && table.remove(5, 0)
        && put(table, 7, 5000) == Ok(())
        && put(table, 8, 5000) == Err(SubTableError::Full)
        && table.remove(7, 5000)
        && put(table, 5, 0) == Ok(())
}

/// Whether each row of a full table goes, if each next one is so many further.
fn all_go(alloc: Global, step: u32) -> Option<bool> {
    let mut table = full(alloc)?;
    if !is_limited(&mut table) {
        return Some(false);
    }
    for turn in 0..65_536 {
        let number = step.wrapping_mul(turn) % 65_536;
        if !table.remove(number % 1000, number / 64) {
            return Some(false);
        }
    }
    Some(table.len() == 0)
}

/// A full table refuses row 65,537, and its rows go in three orders.
#[test]
fn full_tables(rt: HostRuntime) {
    for step in [1, 65_535, 40_503] {
        assert!(rt; all_go(rt.alloc(), step) == Some(true), "{step}");
    }
}

/// A table that ends with rows in it frees each: `.ci/rows-freed` counts the blocks.
#[test]
fn rows_left_at_the_end_are_freed(rt: HostRuntime) {
    let table = full(rt.alloc()).expect(&rt, "memory");
    assert!(rt; table.len() == MOST_ROWS);
}

//! One stream, by rows.
//!
//! `publish COUNT` publishes so many at moment 0, and gives the last one's offset; `keys COUNT` does under as many keys, `k1` the
//! first; `key K` is one, and `again` says that it repeats one. `recover O` and `list LIMIT` give how many come, and from which
//! offset to which. `tick NOW SECONDS` is one; `trim`, `resize` and `held` give how many are held then.
use crate::publications::ann;
use crate::rows::{Subject, Table, Told, call_of};
use cf_protocol::{Epoch, Position, Publication};
use cf_stream::{LARGEST_SIZE, LAST_OFFSET, Published, Stream, StreamRefusal};
use std::alloc::Global;
use std::process::Abort;

/// A stream of epoch aaaa and of this size, which has given so many offsets.
fn started(alloc: Global, size: usize, top: u64) -> Option<Box<Stream>> {
    let epoch = Epoch::from_text("aaaa");
    if epoch.is_empty() || size == 0 || size > LARGEST_SIZE || top > LAST_OFFSET {
        return None;
    }
    let stream = Stream::start_at(alloc, epoch, size, top).ok()?;
    Box::new(alloc, stream).ok()
}

/// A publication of ann under a key; the empty one is none.
fn publish(alloc: Global, stream: &mut Stream, key: &str) -> Result<Published, StreamRefusal> {
    let Ok(body) = String::from_str(alloc, "1") else {
        return Err(StreamRefusal::Memory);
    };
    let Ok(key) = String::from_str(alloc, key) else {
        return Err(StreamRefusal::Memory);
    };
    stream.publish(body, key, ann(alloc), 0)
}

/// Tells the offset of a publication, behind `again` if it repeats one, or why there is none.
fn tell_published(told: &mut Told, published: Result<Published, StreamRefusal>) {
    match published {
        Ok(Published { position, repeated }) => {
            let again = if repeated { "again " } else { "" };
            told.tell(format_args!("{again}{}", position.offset));
        }
        Err(refusal) => told.tell(refusal),
    }
}

/// The key of the publication of this number.
fn key_of(alloc: Global, name: &str, number: u32) -> Option<String> {
    if name == "publish" {
        return Some(String::new(alloc));
    }
    format!(in alloc; "k{}", number.saturating_add(1)).ok()
}

/// Tells the last offset of so many publications, or why one is refused.
fn publish_all(told: &mut Told, alloc: Global, stream: &mut Stream, name: &str, count: u32) {
    for number in 0..count {
        let Some(key) = key_of(alloc, name, number) else {
            return told.lack();
        };
        if let Err(refusal) = publish(alloc, stream, key.as_str()) {
            return told.tell(refusal);
        }
    }
    told.tell(stream.position().offset);
}

/// Tells how many publications there are, and from which offset to which, if each is one behind the other.
fn tell_offsets(told: &mut Told, publications: &[Publication]) {
    let Some(first) = publications.first() else {
        return told.tell("none");
    };
    let mut next = first.offset;
    for publication in publications {
        if publication.offset != next {
            return told.tell(format_args!("{} in place of {next}", publication.offset));
        }
        next = next.saturating_add(1);
    }
    let (count, last) = (publications.len(), next.saturating_sub(1));
    told.tell(format_args!("{count} of {} to {last}", first.offset));
}

/// Tells whether what came behind an offset is recovered, what it is, and where the stream stands.
fn recover(told: &mut Told, stream: &mut Stream, offset: u64) {
    let since = Position {
        epoch: stream.position().epoch,
        offset,
    };
    match stream.recover(Some(since), 0) {
        Ok(found) => {
            told.tell(if found.recovered {
                "recovered "
            } else {
                "lost "
            });
            tell_offsets(told, found.publications.as_slice());
            told.tell(format_args!(" at {}", found.position.offset));
        }
        Err(refusal) => told.tell(refusal),
    }
}

/// Tells the publications that are listed.
fn list(told: &mut Told, stream: &mut Stream, limit: &str) {
    let Ok(limit) = limit.parse::<i32>() else {
        return told.tell("no limit");
    };
    match stream.history(None, limit, 0) {
        Ok(history) => tell_offsets(told, history.publications.as_slice()),
        Err(refusal) => told.tell(refusal),
    }
}

/// Tells where a key is known to stand.
fn tell_known(told: &mut Told, stream: &Stream, key: &str) {
    match stream.repeat_of(key) {
        Some(position) => told.tell(position.offset),
        None => told.tell("none"),
    }
}

/// Leaves a stream so many publications, or room for so many, and tells how many it holds then.
fn shrink(told: &mut Told, stream: &mut Stream, name: &str, count: usize) {
    match name {
        "trim" => stream.trim(count),
        "resize" if count > 0 && count <= LARGEST_SIZE => stream.resize(count),
        _ => told.tell("no call "),
    }
    told.tell(stream.held());
}

/// Tells what a call with a number answers.
fn call(told: &mut Told, alloc: Global, stream: &mut Stream, name: &str, passed: &str) {
    let (first, second) = call_of(passed);
    let number = told.number(first);
    match name {
        "publish" | "keys" => publish_all(told, alloc, stream, name, number),
        "recover" => recover(told, stream, u64::from(number)),
        "tick" => {
            let seconds = told.long_number(second);
            let outcome = stream.tick(u64::from(number), seconds);
            told.tell(format_args!("{outcome:?}"));
        }
        _ => shrink(told, stream, name, number as usize),
    }
}

impl Subject for Stream {
    fn play(&mut self, alloc: Global, done: &str, told: &mut Told) {
        let (name, passed) = call_of(done);
        match name {
            "key" => tell_published(told, publish(alloc, self, passed)),
            "known" => tell_known(told, self, passed),
            "list" => list(told, self, passed),
            "held" => told.tell(self.held()),
            "position" => {
                let Position { epoch, offset } = self.position();
                told.tell(format_args!("{epoch} {offset}"));
            }
            _ => call(told, alloc, self, name, passed),
        }
    }
}

/// The rows of a part are played on a new stream, whose size, and how many offsets it has given, stand behind the colon of its
/// title.
fn play(rt: &impl Abort, alloc: Global, table: &mut Table<'_>, part: &str) {
    let (title, _) = part.split_once('\n').unwrap_or((part, ""));
    let (_, setting) = title.split_once(": ").unwrap_or((title, ""));
    let (size, top) = call_of(setting);
    let mut told = Told::new(alloc);
    let (size, top) = (told.number(size), told.long_number(top));
    let mut stream = started(alloc, size as usize, top).expect(rt, "a stream");
    table.play(&mut *stream, part);
    table.part_ends();
}

const PARTS: &str = "\
# recovery_limit: 1000 0
publish 301 => 301
recover 1 => recovered 300 of 2 to 301 at 301
recover 0 => lost none at 301
recover 301 => recovered none at 301
recover 302 => lost none at 301
list -2147483648 => 300 of 1 to 300
list -1 => 300 of 1 to 300
list 0 => none
list 1 => 1 of 1 to 1
list 300 => 300 of 1 to 300
list 2147483647 => 300 of 1 to 300

# last_offset: 3 9007199254740990
publish 1 => 9007199254740991
publish 1 => the stream is at its last offset
position => aaaa 9007199254740991
held => 1
list -1 => 1 of 9007199254740991 to 9007199254740991

# a repeat is answered at the last offset too, and after a trim to nothing: 1000 9007199254740990
key k1 => 9007199254740991
key k2 => the stream is at its last offset
key k1 => again 9007199254740991
known k2 => none
trim 0 => 0
key k1 => again 9007199254740991

# keys_are_remembered, the last hundred of them: 3 0
keys 100 => 100
key k1 => again 1
key k101 => 101
key k1 => 102
key k2 => 103
key k4 => again 4
known k4 => 4
known k3 => none
trim 3 => 3

# history_ends_in_time, and then the stream: 100 0
publish 3 => 3
tick 299 300 => Alive
held => 3
tick 300 300 => Alive
held => 0
position => aaaa 3
tick 2591999 300 => Alive
position => aaaa 3
tick 2592000 300 => Forgotten

# resize_keeps_the_newest: 3 0
publish 3 => 3
resize 2 => 2
list -1 => 2 of 2 to 3
resize 3 => 2
list -1 => 2 of 2 to 3

# great_stream, which brings nothing back where it is larger again: 10000 0
publish 10000 => 10000
recover 9700 => recovered 300 of 9701 to 10000 at 10000
recover 9699 => lost none at 10000
list -1 => 300 of 1 to 300
resize 2 => 2
resize 5 => 2
list -1 => 2 of 9999 to 10000
recover 9997 => lost none at 10000
recover 9998 => recovered 2 of 9999 to 10000 at 10000";

#[test]
fn limits(rt: HostRuntime) {
    let mut table = Table::new(rt.alloc(), "state/stream");
    for part in PARTS.split("\n\n") {
        play(&rt, rt.alloc(), &mut table, part);
    }
    table.ends(&rt);
}

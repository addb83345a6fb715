//! Wires over streams in memory, under a hub's session, as rows of what is done and of what comes of it.
//!
//! Behind a part's title stand the bytes that come with the request. `in BYTES` come, and `out BYTES` are written next:
//! `COUNT WORD ..`, as often as counted, each word a byte in two digits or a text behind `'`. `turn` gives how it ends, and how
//! many bytes of text were heard by then; `say COUNT` says so long a text; `unread` and `unflushed` tell what waits; the stream
//! is `blocked` or not, and the desk `busy` or not.
ghost use Rattle.std.specs.Prelude.{not};

use super::session::{said_to, tables};
use super::stream::Pieces;
use crate::rows::{Subject, Table, Told, are_so, call_of};
use cf_hub::Hub;
use cf_queue::Out;
use cf_session::Session;
use cf_wire::{Desk, Gather, TurnEnd, Wire, WireFault};
use std::alloc::Global;
use std::io::{ErrorKind, Write};
use std::process::Abort;

/// The desk of session 0 of a hub, which sends each text back, and closes behind `close`; or says what a session says to it.
#[derive(Drop)]
struct Echo<'a> {
    alloc: Global,
    hub: Box<Hub>,
    /// How many bytes of text were heard.
    heard: usize,
    busy: bool,
    session: Option<Session<'a>>,
}

impl<'a> Echo<'a> {
    fn new(alloc: Global, session: Option<Session<'a>>) -> Option<Echo<'a>> {
        let mut hub = Box::new(alloc, Hub::new(alloc, 0, 1)).ok()?;
        let user = String::from_str(alloc, "ann").ok()?;
        let _session = hub.attach(user, 0);
        Some(Echo {
            alloc,
            hub,
            heard: 0,
            busy: false,
            session,
        })
    }

    /// What is said to a text.
    fn answer_to(&mut self, text: &str) -> Option<String> {
        match &mut self.session {
            Some(session) => said_to(self.alloc, session, text),
            None => String::from_str(self.alloc, text).ok(),
        }
    }
}

impl<'a> Desk for Echo<'a> {
    ghost hears = { λ _ _ _. Unit {0} };

    ghost gives = { λ _ _ _. Unit {0} };

    ghost ready = { λ d. not d.busy };

    fn is_ready(&self) -> bool {
        !self.busy
    }

    fn heard(&mut self, text: &str) {
        self.heard = self.heard.saturating_add(text.len());
        if let Some(answer) = self.answer_to(text) {
            let _said = self.hub.say(0, answer);
        }
        if text == "close" {
            self.hub.close(0, 3012);
        }
    }

    fn next(&mut self) -> Option<Out> {
        self.hub.take(0)
    }
}

/// Adds a byte that is written by two digits, or several that are a text behind `'`.
fn push_word(bytes: &mut Vec<u8>, word: &str) -> Option<()> {
    match word.strip_prefix('\'') {
        Some(text) => bytes.extend_from_slice(text.as_bytes()).ok(),
        None => bytes.push(u8::from_str_radix(word, 16).ok()?).ok(),
    }
}

/// Bytes, `COUNT WORD ..`, as often as counted. None: a word is no byte, or there was no memory.
fn bytes_of(alloc: Global, words: &str) -> Option<Vec<u8>> {
    let (count, words) = words.split_once(' ')?;
    let mut bytes = Vec::new(alloc);
    for word in words.split(' ') {
        push_word(&mut bytes, word)?;
    }
    bytes
        .repeat(alloc, count.parse::<u32>().ok()? as usize)
        .ok()
}

/// Tells whether these bytes are written next, or the first that are.
fn tell_written(told: &mut Told, stream: &mut Pieces, bytes: &[u8]) {
    if stream.has_written(bytes) {
        return told.tell("written");
    }
    for byte in stream.written().iter().take(20) {
        told.tell(format_args!("{byte} "));
    }
}

/// Bytes come, or are written.
fn tell_moved(told: &mut Told, stream: &mut Pieces, alloc: Global, word: &str, bytes: &str) {
    let Some(bytes) = bytes_of(alloc, bytes) else {
        return told.tell("no bytes");
    };
    if word == "out" {
        return tell_written(told, stream, bytes.as_slice());
    }
    if stream.input.extend_from_slice(bytes.as_slice()).is_err() {
        told.lack();
    }
}

/// Tells how a text of so many bytes is met by the hub.
fn tell_said(told: &mut Told, desk: &mut Echo<'_>, bytes: &str) {
    match "x".repeat(desk.alloc, told.number(bytes) as usize) {
        Ok(text) => told.tell(format_args!("{:?}", desk.hub.say(0, text))),
        Err(_) => told.lack(),
    }
}

/// A wire and its desk.
#[derive(Drop)]
struct Served<'a> {
    wire: Wire<Pieces>,
    desk: Echo<'a>,
}

impl<'a> Subject for Served<'a> {
    fn play(&mut self, alloc: Global, done: &str, told: &mut Told) {
        let (word, rest) = call_of(done);
        match word {
            "turn" => {
                let end = self.wire.turn(&mut self.desk);
                told.tell(format_args!("{end:?} {}", self.desk.heard));
            }
            "in" | "out" => tell_moved(told, self.wire.stream_mut(), alloc, word, rest),
            "say" => tell_said(told, &mut self.desk, rest),
            "unread" => told.tell(self.wire.stream().unread()),
            "unflushed" => told.is_so(self.wire.is_unflushed()),
            "blocked" => self.wire.stream_mut().blocked = rest == "yes",
            "busy" => self.desk.busy = rest == "yes",
            _ => told.tell("no step"),
        }
    }
}

/// A wire over a stream that has these bytes behind the request, and fails from the call of this number on.
fn wire_over(
    alloc: Global,
    behind: &str,
    piece: usize,
    fails: usize,
) -> Result<Wire<Pieces>, WireFault> {
    let Some(behind) = bytes_of(alloc, behind) else {
        return Err(WireFault::Memory);
    };
    let mut stream = Pieces::of_request(alloc, behind.as_slice(), piece)?;
    stream.fails = fails;
    Wire::accept(alloc, stream).map_err(|refused| refused.fault)
}

/// The rows of a part are played on a wire, by pieces of so many bytes, and say all that was written.
fn plays(
    rt: &impl Abort,
    alloc: Global,
    table: &mut Table<'_>,
    session: Option<Session<'_>>,
    part: &str,
    piece: usize,
) {
    let (title, _) = part.split_once('\n').unwrap_or((part, ""));
    let (_, behind) = title.split_once(": ").unwrap_or((title, ""));
    let wire = wire_over(alloc, behind, piece, usize::MAX).expect(rt, "wire");
    let desk = Echo::new(alloc, session).expect(rt, "memory");
    let mut served = Served { wire, desk };
    served.wire.stream_mut().look_behind();
    table.play(&mut served, part);
    table.part_ends();
    if !served.wire.stream().is_seen() {
        table.is_wrong("more is written");
    }
}

/// Each part is played by pieces of so many bytes.
fn all_play(rt: &impl Abort, alloc: Global, name: &str, parts: &str, pieces: &[usize]) {
    for piece in pieces {
        let mut table = Table::new(alloc, name);
        for part in parts.split("\n\n") {
            plays(rt, alloc, &mut table, None, part, *piece);
        }
        table.ends(rt);
    }
}

/// The masked text is that of RFC 6455, section 5.7, and so is the answer.
const FRAMES: &str = "\
# a masked text: 1 81 85 37 fa 21 3d 7f 9f 4d 51 58
turn => Idle 5
out 1 81 05 'Hello => written

# a text by another mask: 1 81 83 01 02 03 04 60 60 60
turn => Idle 3
out 1 81 03 'abc => written

# a ping and a pong before a text: 1 89 82 00 00 00 00 'hi 8a 80 00 00 00 00 81 81 00 00 00 00 'a
turn => Idle 1
out 1 8a 02 'hi 81 01 'a => written

# a close: 1 88 82 00 00 00 00 0b b9
turn => Closed(3001) 0
turn => Closed(3001) 0
out 1 88 02 0b b9 => written

# a close without a code: 1 88 80 00 00 00 00
turn => Closed(1005) 0
turn => Closed(1005) 0
out 1 88 00 => written

# a binary message: 1 82 81 00 00 00 00 'a
turn => Closed(3501) 0
turn => Closed(3501) 0
out 1 88 0d 0d ad 'bad 20 'request => written

# a text that the desk closes by: 1 81 85 00 00 00 00 'close
turn => Closed(3012) 5
turn => Closed(3012) 5
out 1 81 05 'close 88 09 0b c4 'no 20 'pong => written

# a text that isn't masked: 1 81 01 'a
turn => StreamFault 0
turn => StreamFault 0
out 1 88 02 03 ea => written

# a text that isn't UTF-8: 1 81 81 00 00 00 00 ff
turn => StreamFault 0
turn => StreamFault 0
out 1 88 02 03 ef => written

# a character in two frames: 1 01 81 00 00 00 00 c3 80 81 00 00 00 00 a9
turn => Idle 2
out 1 81 02 c3 a9 => written

# a character without its second byte: 1 01 81 00 00 00 00 c3 80 81 00 00 00 00 'a
turn => StreamFault 0
turn => StreamFault 0
out 1 88 02 03 ef => written

# a character without its end: 1 81 82 00 00 00 00 'a c3
turn => StreamFault 0
turn => StreamFault 0
out 1 88 02 03 ef => written

# a second byte alone: 1 01 81 00 00 00 00 'a 80 81 00 00 00 00 a9
turn => StreamFault 0
turn => StreamFault 0
out 1 88 02 03 ef => written

# a ping in two frames: 1 09 80 00 00 00 00
turn => StreamFault 0
turn => StreamFault 0
out 1 88 02 03 ea => written

# a close of one byte: 1 88 81 00 00 00 00 03
turn => StreamFault 0
turn => StreamFault 0
out 1 88 02 03 ea => written

# a text, and then what is no frame: 1 81 81 00 00 00 00 'a 83 80 00 00 00 00
turn => StreamFault 1
turn => StreamFault 1
out 1 81 01 'a 88 02 03 ea => written";

/// While a message waits for the stream nothing is read, and nothing while the desk isn't ready. A turn hears 64 texts at most.
const WAITING: &str = "\
# a stream that takes nothing for a while: 3 81 81 00 00 00 00 'a
blocked yes => nothing
turn => Idle 1
turn => Idle 1
unflushed => yes
blocked no => nothing
turn => Idle 3
out 3 81 01 'a => written

# a desk that isn't ready for a while: 3 81 81 00 00 00 00 'a
busy yes => nothing
turn => Idle 0
busy no => nothing
turn => Idle 3
out 3 81 01 'a => written

# one text more than a turn hears: 65 81 81 00 00 00 00 'a
turn => More 64
turn => Idle 65
out 65 81 01 'a => written";

/// A text of up to 131,072 bytes is heard, and one byte more closes. A turn reads nothing more once 65,536 bytes were heard. A
/// client that takes nothing is closed once 1,048,576 bytes wait for it.
const LONG_TEXTS: &str = "\
# 65,537 bytes: 1 81 ff 00 00 00 00 00 01 00 01 00 00 00 00
in 65537 'x => nothing
turn => More 65537
out 1 81 7f 00 00 00 00 00 01 00 01 => written
out 65537 'x => written

# 131,072 bytes: 1 81 ff 00 00 00 00 00 02 00 00 00 00 00 00
in 131072 'x => nothing
turn => More 131072
out 1 81 7f 00 00 00 00 00 02 00 00 => written
out 131072 'x => written

# 131,073 bytes: 1 81 ff 00 00 00 00 00 02 00 01 00 00 00 00
in 131073 'x => nothing
turn => Closed(3501) 0
out 1 88 0d 0d ad 'bad 20 'request => written

# 65,536 bytes, and three: 1 81 ff 00 00 00 00 00 01 00 00 00 00 00 00
in 65536 'x => nothing
in 3 81 81 00 00 00 00 'a => nothing
turn => More 65536
turn => Idle 65539
out 1 81 7f 00 00 00 00 00 01 00 00 => written
out 65536 'x => written
out 3 81 01 'a => written

# 65,535 bytes, and three: 1 81 fe ff ff 00 00 00 00
in 65535 'x => nothing
in 3 81 81 00 00 00 00 'a => nothing
turn => More 65536
turn => Idle 65538
out 1 81 7e ff ff => written
out 65535 'x => written
out 3 81 01 'a => written

# 65,532 bytes, and three: 1 81 fe ff fc 00 00 00 00
in 65532 'x => nothing
in 3 81 81 00 00 00 00 'a => nothing
turn => Idle 65535
turn => Idle 65535
out 1 81 7e ff fc => written
out 65532 'x => written
out 3 81 01 'a => written

# a client that takes nothing: 0 00
in 3 81 81 00 00 00 00 'a => nothing
blocked yes => nothing
say 5 => Kept
turn => Idle 0
unflushed => yes
unread => 21
say 600000 => Kept
turn => Idle 0
unread => 21
say 600000 => Closed
turn => Idle 0
unflushed => yes
unread => 21
blocked no => nothing
turn => Closed(3008) 0
out 1 81 05 => written
out 5 'x => written
out 1 81 7f 00 00 00 00 00 09 27 c0 => written
out 600000 'x => written
out 1 88 06 0b c0 'slow => written";

/// Frames are met in the same way by whatever pieces they come.
#[test]
fn scripts(rt: HostRuntime) {
    all_play(
        &rt,
        rt.alloc(),
        "sessions/wire frames",
        FRAMES,
        &[1, 2, 7, 8, 4096],
    );
    all_play(
        &rt,
        rt.alloc(),
        "sessions/wire waiting",
        WAITING,
        &[1, 1000],
    );
    all_play(&rt, rt.alloc(), "sessions/wire long", LONG_TEXTS, &[4096]);
}

/// The conversation's first command, and its reply.
const CONNECT: &str = "\
# a connect: 1 81 95 00 00 00 00 '{\"id\":1,\"connect\":{}}
turn => Idle 21
out 1 81 4d '{\"connect\":{\"client\":\"0-1-1\",\"ping\":25,\"pong\":true,\"version\":\"1.0.0\"},\"id\":1} => written";

/// A masked connect that comes by pieces of one, two and seven bytes is answered by a session.
#[test]
fn connect_by_pieces(rt: HostRuntime) {
    let (namespaces, tokens) = tables(rt.alloc(), "").expect(&rt, "tables");
    let mut table = Table::new(rt.alloc(), "sessions/wire connect_by_pieces");
    for piece in [1, 2, 7] {
        let session = Session::new(rt.alloc(), &namespaces, &tokens);
        plays(&rt, rt.alloc(), &mut table, Some(session), CONNECT, piece);
    }
    table.ends(&rt);
}

/// A wire over three texts by pieces of three bytes, whose stream fails from the call of this number on.
fn failing_wire(alloc: Global, fails: usize) -> Result<Wire<Pieces>, WireFault> {
    wire_over(alloc, "3 81 81 00 00 00 00 'a", 3, fails)
}

/// How many calls of the stream a handshake makes, and how many a turn by its end, if none fails.
fn calls_of_a_turn(alloc: Global) -> Option<(usize, usize)> {
    let mut wire = failing_wire(alloc, usize::MAX).ok()?;
    let mut desk = Echo::new(alloc, None)?;
    let before = wire.stream().calls;
    let _end = wire.turn(&mut desk);
    Some((before, wire.stream().calls))
}

/// Whether the call of this number fails a handshake that makes so many, or else the turn that makes it and the next one.
fn is_failed(alloc: Global, call: usize, before: usize) -> bool {
    match (failing_wire(alloc, call), Echo::new(alloc, None)) {
        (Ok(mut wire), Some(mut desk)) => {
            before < call
                && wire.turn(&mut desk) == TurnEnd::StreamFault
                && wire.turn(&mut desk) == TurnEnd::StreamFault
        }
        (Err(fault), Some(_)) => call <= before && fault == WireFault::StreamFault,
        _ => false,
    }
}

#[test]
fn each_call_fails(rt: HostRuntime) {
    let (before, after) = calls_of_a_turn(rt.alloc()).expect(&rt, "calls");
    assert!(rt; 0 < before && before < after);
    for call in 0..after {
        let call = call.saturating_add(1);
        assert!(rt; is_failed(rt.alloc(), call, before), "at {call}");
    }
}

/// Tells how many bytes of a write are taken, or why none are.
fn tell_write(told: &mut Told, gather: &mut Gather<Pieces>, text: &str) {
    match gather.write(text.as_bytes()) {
        Ok(count) => told.tell(count),
        Err(error) if error.kind() == ErrorKind::WouldBlock => told.tell("would block"),
        Err(_) => told.tell("fault"),
    }
}

/// A stream that gathers.
impl Subject for Gather<Pieces> {
    fn play(&mut self, _alloc: Global, done: &str, told: &mut Told) {
        let (word, rest) = call_of(done);
        match word {
            "write" => tell_write(told, self, rest),
            "flush" => told.is_so(self.flush().is_ok()),
            "drain" => told.is_so(self.drain().is_ok()),
            "calls" => told.tell(self.stream().calls),
            "out" => tell_written(told, self.stream_mut(), rest.as_bytes()),
            "blocked" => self.stream_mut().blocked = rest == "yes",
            _ => told.tell("no step"),
        }
    }
}

/// A write drains first while four bytes or more wait, as it does at the third, by pieces of three bytes.
const GATHERED: &str = "\
write abc => 3
write de => 2
flush => yes
calls => 0
write fg => 2
calls => 2
out abcde => written
blocked yes => nothing
write hijk => 4
write l => would block
blocked no => nothing
drain => yes
calls => 5
out fghijk => written";

#[test]
fn gathers_to_its_limit(rt: HostRuntime) {
    let alloc = rt.alloc();
    let mut gather = Gather::new(alloc, Pieces::new(alloc, Vec::new(alloc), 3), 4);
    are_so(&rt, alloc, "sessions/wire gathers", &mut gather, GATHERED);
}

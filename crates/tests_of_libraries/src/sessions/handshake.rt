//! What a client is answered whose first request is no handshake, or one of another form.
use super::stream::Pieces;
use crate::rows::{Subject, Told, are_so};
use cf_wire::{Wire, WireFault};
use std::alloc::Global;
use std::process::Abort;

const OPENED: &str =
    "HTTP/1.1 101 Switching Protocols\r\nUpgrade: websocket\r\nConnection: Upgrade\r\nSec-WebSocket-Accept: s3pPLMBiTxaQ9kYGzzhZRbK+xOo=\r\n\r\n";

const OPENED_AS_JSON: &str =
    "HTTP/1.1 101 Switching Protocols\r\nUpgrade: websocket\r\nConnection: Upgrade\r\nSec-WebSocket-Accept: s3pPLMBiTxaQ9kYGzzhZRbK+xOo=\r\nSec-WebSocket-Protocol: centrifuge-json\r\n\r\n";

const BAD_REQUEST: &str =
    "HTTP/1.1 400 Bad Request\r\nContent-Type: text/plain\r\nContent-Length: 12\r\nConnection: close\r\n\r\nbad request\n";

const UPGRADE_REQUIRED: &str =
    "HTTP/1.1 426 Upgrade Required\r\nUpgrade: websocket\r\nSec-WebSocket-Version: 13\r\nContent-Type: text/plain\r\nContent-Length: 17\r\nConnection: close, Upgrade\r\n\r\nupgrade required\n";

/// The lines of a head, each before a `;`, and how it is answered. A line of one letter stands for one of the example of RFC
/// 6455, section 1.3. A health that is asked for is answered by whoever is asked; a `fault` is of the stream, which ends before
/// the head does.
const ROWS: &str = "\
GET /chat HTTP/1.1;H;U;C;K;V; => open
GET /health HTTP/1.1;H;U;C;K;V; => open
GET / HTTP/1.1;H;Upgrade: h2c, websocket;C;K;V; => open
GET / HTTP/1.1;H;Upgrade: h2c;U;C;K;V; => open
GET / HTTP/1.1;H;U;Connection: keep-alive;C;K;V; => open
GET / HTTP/1.1;H;U;Connection: keep-alive ,\tUpgrade;K;V; => open
GET / HTTP/1.1;K;V;H;upgrade:WebSocket;CONNECTION: upGRADE; => open
GET / HTTP/1.1;H;U;C;K;V;Sec-WebSocket-Protocol: centrifuge-protobuf; => open
GET / HTTP/1.1;H;U;C;K;V;Sec-WebSocket-Protocol: Centrifuge-JSON; => open
GET / HTTP/1.1;H;U;C;K;V;Sec-WebSocket-Protocol: centrifuge-json; => json
GET / HTTP/1.1;H;U;C;K;V;Sec-WebSocket-Protocol: centrifuge-protobuf, centrifuge-json; => json
GET / HTTP/1.1;H;U;C;K;V;Sec-WebSocket-Protocol: centrifuge-protobuf;Sec-WebSocket-Protocol: centrifuge-json; => json
GET / HTTP/1.1;U;C;K;V; => bad
GET / HTTP/1.1;H;H;U;C;K;V; => bad
GET / HTTP/1.0;H;U;C;K;V; => bad
POST / HTTP/1.1;H;U;C;K;V; => bad
GET / HTTP/1.1;H;Upgrade: h2c;C;K;V; => bad
GET / HTTP/1.1;H;Upgrade: websockets;C;K;V; => bad
GET / HTTP/1.1;H;U;K;V; => bad
GET / HTTP/1.1;H;U;Connection: keep-alive;K;V; => bad
GET / HTTP/1.1;H;U;C;V; => bad
GET / HTTP/1.1;H;U;C;K;K;V; => bad
GET / HTTP/1.1;H;U;C;V;Sec-WebSocket-Key: dGhlIHNhbXBsZSBub25j; => bad
GET / HTTP/1.1;H;U;C;V;Sec-WebSocket-Key: dGhlIHNhbXBsZSBub25jZQ; => bad
GET / HTTP/1.1;H;U;C;V;Sec-WebSocket-Key: dGhlIHNhbXBsZSBub25j!Q==; => bad
GET /health HTTP/1.1;H;Upgrade: h2c; => bad
GET /health HTTP/1.1; => bad
POST /health HTTP/1.1;H; => bad
no request; => bad
GET / HTTP/1.1;H; => upgrade
GET / HTTP/1.0; => upgrade
GET /healthy HTTP/1.1;H; => upgrade
GET / HTTP/1.1;H;U;C;K; => upgrade
GET / HTTP/1.1;H;U;C;K;Sec-WebSocket-Version: 8; => upgrade
GET / HTTP/1.1;H;U;C;K;V;V; => upgrade
GET /health HTTP/1.1;H; => health
GET /health HTTP/1.0; => health
GET /health?of=balancer HTTP/1.1;H;Connection: close; => health
GET / HTTP/1.1;H;U;C;K;V => fault
GET / HTTP/1.1 => fault
GET / HTTP/1.1;H;U;C;K;V;*16384*x*; => long";

/// The line for which another stands.
fn line_of(line: &str) -> &str {
    match line {
        "H" => "Host: x",
        "U" => "Upgrade: websocket",
        "C" => "Connection: Upgrade",
        "K" => "Sec-WebSocket-Key: dGhlIHNhbXBsZSBub25jZQ==",
        "V" => "Sec-WebSocket-Version: 13",
        _ => line,
    }
}

/// The short name of an answer.
fn name_of(answer: &[u8]) -> &'static str {
    if answer == OPENED.as_bytes() {
        return "open";
    }
    if answer == OPENED_AS_JSON.as_bytes() {
        return "json";
    }
    if answer == BAD_REQUEST.as_bytes() {
        return "bad";
    }
    if answer == UPGRADE_REQUIRED.as_bytes() {
        return "upgrade";
    }
    "another answer"
}

/// Tells the answer that refuses a handshake, or why there is no wire if nothing is answered.
fn tell_refused(told: &mut Told, fault: WireFault, answered: bool, output: &[u8]) {
    if answered && fault == WireFault::Handshake {
        return told.tell(name_of(output));
    }
    if answered || !output.is_empty() {
        return told.tell(format_args!("{fault}, answered by {}", name_of(output)));
    }
    told.tell(match fault {
        WireFault::Handshake => "long",
        WireFault::Health => "health",
        WireFault::StreamFault => "fault",
        WireFault::Memory => "out of memory",
    });
}

/// Tells how a stream is answered.
fn tell_answer(told: &mut Told, stream: Pieces, alloc: Global) {
    match Wire::accept(alloc, stream) {
        Ok(wire) => told.tell(name_of(wire.stream().output.as_slice())),
        Err(refused) => {
            let output = refused.stream.output.as_slice();
            tell_refused(told, refused.fault, refused.answered, output);
        }
    }
}

/// The bytes of these lines.
pub(super) fn head_of(alloc: Global, lines: &str) -> Option<Vec<u8>> {
    let mut head = Vec::new(alloc);
    for line in lines.split(';') {
        head.extend_from_slice(line_of(line).as_bytes()).ok()?;
        head.extend_from_slice(b"\r\n").ok()?;
    }
    Some(head)
}

/// A stream of these lines, by pieces of so many bytes.
fn stream_over(alloc: Global, lines: &str, piece: usize) -> Option<Pieces> {
    let head = head_of(alloc, lines)?;
    Some(Pieces::new(alloc, head, piece))
}

/// Heads that come by pieces of so many bytes.
#[derive(Clone, Copy)]
struct Heads {
    piece: usize,
}

impl Subject for Heads {
    fn play(&mut self, alloc: Global, done: &str, told: &mut Told) {
        match stream_over(alloc, done, self.piece) {
            Some(stream) => tell_answer(told, stream, alloc),
            None => told.lack(),
        }
    }
}

/// Whether a refusal whose call of this number fails is one all the same, and says that its answer isn't whole.
fn is_refused_unheard(rt: &impl Abort, alloc: Global, call: usize) -> bool {
    let mut stream = stream_over(alloc, "no request;", 4096).expect(rt, "memory");
    stream.fails = call;
    match Wire::accept(alloc, stream) {
        Ok(_) => false,
        Err(refused) => refused.fault == WireFault::Handshake && !refused.answered,
    }
}

/// Each head is answered as its row says, byte by byte, by pieces of seven bytes, and whole.
#[test]
fn answered_heads(rt: HostRuntime) {
    for (name, piece) in [
        ("sessions/handshake byte by byte", 1),
        ("sessions/handshake by sevens", 7),
        ("sessions/handshake whole", 4096),
    ] {
        are_so(&rt, rt.alloc(), name, &mut Heads { piece }, ROWS);
    }
}

/// The head is read by the first call, the answer written by the second and let go of by the third: a write that fails changes
/// nothing of why there is no wire.
#[test]
fn unheard_refusal(rt: HostRuntime) {
    assert!(rt; is_refused_unheard(&rt, rt.alloc(), 2));
    assert!(rt; is_refused_unheard(&rt, rt.alloc(), 3));
    assert!(rt; !is_refused_unheard(&rt, rt.alloc(), 4));
}

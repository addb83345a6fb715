//! Who asks for a node's health otherwise than by `GET`, and what is answered.
use super::handshake::head_of;
use crate::rows::{Subject, Told, are_so};
use cf_health::health_ask;
use std::alloc::Global;

const WELL: &str =
    "HTTP/1.1 200 OK\r\nContent-Type: text/plain\r\nContent-Length: 2\r\nConnection: close\r\n\r\n";

const STUCK: &str =
    "HTTP/1.1 503 Service Unavailable\r\nContent-Type: text/plain\r\nContent-Length: 5\r\nConnection: close\r\n\r\n";

const NOT_ALLOWED: &str =
    "HTTP/1.1 405 Method Not Allowed\r\nAllow: GET, HEAD\r\nContent-Type: text/plain\r\nContent-Length: 19\r\nConnection: close\r\n\r\nmethod not allowed\n";

/// The lines of a head and what stands behind them, as in the rows of a handshake, and what a node answers that is well, and one
/// that isn't: `-` if it is none of these.
const ROWS: &str = "\
HEAD /health HTTP/1.1;H; => well; stuck
HEAD /health HTTP/1.0; => well; stuck
HEAD /health?of=balancer HTTP/1.1;U;C;host: x; => well; stuck
POST /health HTTP/1.1;H;Content-Length: 2;;ok => not allowed; not allowed
head /health HTTP/1.1;H; => not allowed; not allowed
GET /health HTTP/1.1;H; => -
HEAD /healthy HTTP/1.1;H; => -
HEAD / HTTP/1.1;H; => -
HEAD /health HTTP/1.1; => -
HEAD /health HTTP/1.0;H;H; => -
HEAD /health HTTP/1.1;H => -
no request; => -";

/// The short name of an answer.
fn name_of(answer: &[u8]) -> &'static str {
    if answer == WELL.as_bytes() {
        return "well";
    }
    if answer == STUCK.as_bytes() {
        return "stuck";
    }
    if answer == NOT_ALLOWED.as_bytes() {
        return "not allowed";
    }
    "another answer"
}

/// Heads that a node looks at.
#[derive(Drop)]
struct Heads;

impl Subject for Heads {
    fn play(&mut self, alloc: Global, done: &str, told: &mut Told) {
        let Some(head) = head_of(alloc, done) else {
            return told.lack();
        };
        match health_ask(head.as_slice()) {
            None => told.tell("-"),
            Some(ask) => {
                told.tell(name_of(ask.answer(true)));
                told.part("; ");
                told.tell(name_of(ask.answer(false)));
            }
        }
    }
}

/// Each head is answered as its row says.
#[test]
fn asked_health(rt: HostRuntime) {
    are_so(&rt, rt.alloc(), "sessions/health", &mut Heads, ROWS);
}

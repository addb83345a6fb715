//! What is asked of a node's health without `GET`, and the texts that answer it.
ghost use Rattle.std.specs.Prelude.{◌≡◌, ◌++◌, ℕ, List, length, codes, All, None};
ghost use Rattle.httparse.specs.Grammar.{ReadsRequest, RequestHead};
ghost use Rattle.httparse.specs.Spans.{IsHeaderWithin, IsWithin, span_bytes};
ghost use Rattle.websocket.specs.Headers.{eq_ignore_case, fields_of};
ghost use Rattle.cf_handshake.specs.Answers.{health_text};
ghost use Rattle.cf_handshake.specs.Asks.{has_host, is_health, request, request_of};
ghost use Rattle.cf_handshake.specs.Lines.{values_of};
ghost use Rattle.cf_health.specs.HealthAsks.{HasNoHead, IsBegun, ask_by_method, ask_of, health_body, not_allowed_text};

use httparse::Status;
use httparse::spans::{EMPTY_HEADER_SPAN, HeaderSpan, RequestSpans, parse_request};

/// The most lines that a head may have.
const MOST_LINES: usize = 124;

/// How a node's health is asked for otherwise than by `GET`.
#[derive(Clone, Copy, Debug, PartialEq, Eq)]
pub enum HealthAsk {
    /// By `HEAD`.
    Head,
    /// By a method that isn't served there.
    Other,
}

/// How the head of a request, with which bytes begin, asks for a node's health otherwise than by `GET`: its path is `/health`,
/// with a query or without, and one line names the host, or none in HTTP/1.0. `None` if it doesn't, or has more than 124 lines,
/// or the bytes begin with no whole head.
pub fn health_ask(bytes: &[u8]) -> Option<HealthAsk>
    ensures read { (h : RequestHead) (rest : List ℕ) → IsBegun bytes.now h rest
        → result ≡ ask_of (request_of h) }
    ensures unread { HasNoHead bytes.now → result ≡ None }
{
    let mut spans = [EMPTY_HEADER_SPAN; MOST_LINES];
    let Ok(Status::Complete(found)) = parse_request(bytes, &mut spans) else {
        return None;
    };
    ask_by(bytes, &found, &spans[..found.headers])
}

// How it is asked for by the parts of a head.
fn ask_by(head: &[u8], found: &RequestSpans, lines: &[HeaderSpan]) -> Option<HealthAsk>
    requires method { IsWithin (length head.now) found.now.method }
    requires path { IsWithin (length head.now) found.now.path }
    requires lines { All (IsHeaderWithin (length head.now)) lines.now }
    ensures { result ≡ ask_of (request (span_bytes head.now found.now.method)
        (span_bytes head.now found.now.path) found.now.version (fields_of head.now lines.now)) }
{
    if !is_health(found.path.of(head)) || !has_host(head, lines, found.version) {
        return None;
    }
    ask_by_method(found.method.of(head))
}

// Whether a target is that of the health.
fn is_health(target: &[u8]) -> bool
    ensures { result ≡ is_health target.now }
{
    target == b"/health".as_slice() || target.starts_with(b"/health?")
}

// How it is asked for by a method.
fn ask_by_method(method: &[u8]) -> Option<HealthAsk>
    ensures { result ≡ ask_by_method method.now }
{
    if method == b"GET".as_slice() {
        None
    } else if method == b"HEAD".as_slice() {
        Some(HealthAsk::Head)
    } else {
        Some(HealthAsk::Other)
    }
}

// Whether one line names the host; in HTTP/1.0 there may be none.
fn has_host(head: &[u8], lines: &[HeaderSpan], version: u8) -> bool
    requires { All (IsHeaderWithin (length head.now)) lines.now }
    ensures { result ≡ has_host version (fields_of head.now lines.now) }
{
    let count = count_hosts(head, lines);
    count == 1 || (version == 0 && count == 0)
}

// How many lines name the host.
fn count_hosts(head: &[u8], lines: &[HeaderSpan]) -> usize
    requires { All (IsHeaderWithin (length head.now)) lines.now }
    ensures { result ≡ length (values_of (fields_of head.now lines.now) (codes "Host")) }
{
    let mut count: usize = 0;
    for line in lines {
        if names_host(line.name.of(head)) {
            count += 1;
        }
    }
    count
}

// Whether a line of this name names the host.
fn names_host(name: &[u8]) -> bool
    ensures { result ≡ eq_ignore_case name.now (codes "Host") }
{
    name.eq_ignore_ascii_case(b"Host")
}

impl HealthAsk {
    /// The answer of a node that is well, or isn't, after which the connection is to be closed: for `HEAD` what `GET` is answered
    /// without the body; for another method 405.
    pub fn answer(self, is_well: bool) -> &'static [u8]
        ensures head { self ≡ HealthAsk.Head
            → result.now ++ health_body is_well ≡ health_text is_well }
        ensures other { self ≡ HealthAsk.Other → result.now ≡ not_allowed_text }
    {
        match self {
            HealthAsk::Head => head_answer(is_well),
            HealthAsk::Other => not_allowed_answer(),
        }
    }
}

// What `GET` is answered, without the body.
fn head_answer(is_well: bool) -> &'static [u8]
    ensures { result.now ++ health_body is_well ≡ health_text is_well }
{
    if is_well {
        b"HTTP/1.1 200 OK\r\nContent-Type: text/plain\r\nContent-Length: 2\r\nConnection: close\r\n\r\n"
    } else {
        b"HTTP/1.1 503 Service Unavailable\r\nContent-Type: text/plain\r\nContent-Length: 5\r\nConnection: close\r\n\r\n"
    }
}

// The answer that names the methods which are served.
fn not_allowed_answer() -> &'static [u8]
    ensures { result.now ≡ not_allowed_text }
{
    b"HTTP/1.1 405 Method Not Allowed\r\nAllow: GET, HEAD\r\nContent-Type: text/plain\r\nContent-Length: 19\r\nConnection: close\r\n\r\nmethod not allowed\n"
}

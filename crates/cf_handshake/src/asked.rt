//! What the head of a request asks for.
ghost use Rattle.std.specs.Prelude.{◌≡◌, length, All};
ghost use Rattle.httparse.specs.Grammar.{RequestHead};
ghost use Rattle.httparse.specs.Spans.{IsHeaderWithin, IsWithin, span_bytes};
ghost use Rattle.websocket.specs.Headers.{fields_of};
ghost use Rattle.cf_handshake.specs.Asks.{Asks, AsksByKey, IsUnread, IsWhole, asked_plainly, has_host, has_version, is_upgrade, request, request_of};

use crate::answer::{HandshakeError, Opening};
use crate::lines::{Case, has_line, lists, only_value};
use httparse::Status;
use httparse::spans::{EMPTY_HEADER_SPAN, HeaderSpan, RequestSpans, parse_request};
use websocket::handshake::server::accept_key;

/// The most lines that a head may have.
const MOST_LINES: usize = 124;

/// What the head of a request asks for.
#[derive(Clone, Copy, Debug, PartialEq, Eq)]
pub enum HeadAsk {
    /// A WebSocket.
    Socket(Opening),
    /// Whether the node lives.
    Health,
    /// Nothing that is served.
    Refused(HandshakeError),
}

/// What a head asks for: all the bytes of a request up to the empty line that ends it. What isn't such a head, or has more than
/// 124 lines, is a bad request.
pub fn asked_of(head: &[u8]) -> HeadAsk
    ensures read { (h : RequestHead) → IsWhole head.now h → Asks (request_of h) result }
    ensures unread { IsUnread head.now → result ≡ HeadAsk.Refused HandshakeError.BadRequest }
{
    let mut spans = [EMPTY_HEADER_SPAN; MOST_LINES];
    let Ok(Status::Complete(found)) = parse_request(head, &mut spans) else {
        return HeadAsk::Refused(HandshakeError::BadRequest);
    };
    if found.len != head.len() {
        return HeadAsk::Refused(HandshakeError::BadRequest);
    }
    asked_by(head, &found, &spans[..found.headers])
}

// What is asked for by the parts of a head.
fn asked_by(head: &[u8], found: &RequestSpans, lines: &[HeaderSpan]) -> HeadAsk
    requires method { IsWithin (length head.now) found.now.method }
    requires path { IsWithin (length head.now) found.now.path }
    requires lines { All (IsHeaderWithin (length head.now)) lines.now }
    ensures { Asks (request (span_bytes head.now found.now.method)
        (span_bytes head.now found.now.path) found.now.version (fields_of head.now lines.now))
        result }
{
    if found.method.of(head) != b"GET".as_slice() || !has_host(head, lines, found.version) {
        return HeadAsk::Refused(HandshakeError::BadRequest);
    }
    if !has_line(head, lines, b"Upgrade") {
        return asked_plainly(found.path.of(head));
    }
    if found.version == 0 || !is_upgrade(head, lines) {
        return HeadAsk::Refused(HandshakeError::BadRequest);
    }
    if !has_version(head, lines) {
        return HeadAsk::Refused(HandshakeError::UpgradeRequired);
    }
    asked_by_key(head, lines)
}

// Whether one line names the host; in HTTP/1.0 there may be none.
fn has_host(head: &[u8], lines: &[HeaderSpan], version: u8) -> bool
    requires { All (IsHeaderWithin (length head.now)) lines.now }
    ensures { result ≡ has_host version (fields_of head.now lines.now) }
{
    only_value(head, lines, b"Host").is_some() || (version == 0 && !has_line(head, lines, b"Host"))
}

// What is asked for without an upgrade, by the request's target.
fn asked_plainly(target: &[u8]) -> HeadAsk
    ensures { result ≡ asked_plainly target.now }
{
    if target == b"/health".as_slice() || target.starts_with(b"/health?") {
        return HeadAsk::Health;
    }
    HeadAsk::Refused(HandshakeError::UpgradeRequired)
}

// Whether the lines ask for an upgrade to a WebSocket.
fn is_upgrade(head: &[u8], lines: &[HeaderSpan]) -> bool
    requires { All (IsHeaderWithin (length head.now)) lines.now }
    ensures { result ≡ is_upgrade (fields_of head.now lines.now) }
{
    lists(head, lines, b"Upgrade", b"websocket", Case::Ignored)
        && lists(head, lines, b"Connection", b"upgrade", Case::Ignored)
}

// Whether the one version asked for is 13.
fn has_version(head: &[u8], lines: &[HeaderSpan]) -> bool
    requires { All (IsHeaderWithin (length head.now)) lines.now }
    ensures { result ≡ has_version (fields_of head.now lines.now) }
{
    only_value(head, lines, b"Sec-WebSocket-Version") == Some(b"13".as_slice())
}

// What is asked for by the key, if all else is as it is to be.
fn asked_by_key(head: &[u8], lines: &[HeaderSpan]) -> HeadAsk
    requires { All (IsHeaderWithin (length head.now)) lines.now }
    ensures { AsksByKey (fields_of head.now lines.now) result }
{
    let Some(key) = only_value(head, lines, b"Sec-WebSocket-Key") else {
        return HeadAsk::Refused(HandshakeError::BadRequest);
    };
    let Ok(accept) = accept_key(key) else {
        return HeadAsk::Refused(HandshakeError::BadRequest);
    };
    HeadAsk::Socket(Opening {
        accept,
        offers_json: lists(
            head,
            lines,
            b"Sec-WebSocket-Protocol",
            b"centrifuge-json",
            Case::Matters,
        ),
    })
}

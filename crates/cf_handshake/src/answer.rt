//! The texts that answer the head of a request.
ghost use Rattle.std.specs.Prelude.{◌≡◌, IfOk};
ghost use Rattle.cf_handshake.specs.Answers.{health_text, opening_end, opening_text, refusal_text};

use std::alloc::{AllocError, Global};

/// How a WebSocket is opened.
#[derive(Clone, Copy, Debug, PartialEq, Eq)]
pub struct Opening {
    /// The key that answers the client's.
    pub accept: [u8; 28],
    /// The client offered `centrifuge-json` as a subprotocol.
    pub offers_json: bool,
}

/// Why a request is refused.
#[derive(Clone, Copy, Debug, PartialEq, Eq)]
pub enum HandshakeError {
    /// It is no request, or no opening handshake of a WebSocket.
    BadRequest,
    /// It asks for no upgrade, or for another version of the protocol.
    UpgradeRequired,
}

impl Opening {
    /// The answer that opens the WebSocket, and chooses `centrifuge-json` if that was offered.
    pub fn answer(&self, alloc: Global) -> Result<Vec<u8>, AllocError>
        ensures { IfOk result (λ text. text.items ≡ opening_text self.now) }
    {
        let lines =
            b"HTTP/1.1 101 Switching Protocols\r\nUpgrade: websocket\r\nConnection: Upgrade\r\nSec-WebSocket-Accept: ";
        let mut text = lines.to_vec(alloc)?;
        text.extend_from_slice(&self.accept)?;
        text.extend_from_slice(self.end())?;
        Ok(text)
    }

    // The lines behind the key.
    fn end(&self) -> &'static [u8]
        ensures { result.now ≡ opening_end self.now.offers_json }
    {
        if self.offers_json {
            b"\r\nSec-WebSocket-Protocol: centrifuge-json\r\n\r\n"
        } else {
            b"\r\n\r\n"
        }
    }
}

impl HandshakeError {
    /// The answer, after which the connection is to be closed.
    pub fn answer(self) -> &'static [u8]
        ensures { result.now ≡ refusal_text self }
    {
        match self {
            HandshakeError::BadRequest =>
                b"HTTP/1.1 400 Bad Request\r\nContent-Type: text/plain\r\nContent-Length: 12\r\nConnection: close\r\n\r\nbad request\n",
            HandshakeError::UpgradeRequired =>
                b"HTTP/1.1 426 Upgrade Required\r\nUpgrade: websocket\r\nSec-WebSocket-Version: 13\r\nContent-Type: text/plain\r\nContent-Length: 17\r\nConnection: close, Upgrade\r\n\r\nupgrade required\n",
        }
    }
}

/// The answer to who asks whether the node lives, after which the connection is to be closed.
pub fn health_answer(is_well: bool) -> &'static [u8]
    ensures { result.now ≡ health_text is_well }
{
    if is_well {
        b"HTTP/1.1 200 OK\r\nContent-Type: text/plain\r\nContent-Length: 2\r\nConnection: close\r\n\r\nok"
    } else {
        b"HTTP/1.1 503 Service Unavailable\r\nContent-Type: text/plain\r\nContent-Length: 5\r\nConnection: close\r\n\r\nstuck"
    }
}

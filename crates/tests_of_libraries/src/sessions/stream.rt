//! A stream in memory.
use std::alloc::{AllocError, Global};
use std::io;
use std::io::{ErrorKind, Read, Write};

/// The request of RFC 6455, section 1.3.
const REQUEST: &[u8] =
    b"GET /chat HTTP/1.1\r\nHost: x\r\nUpgrade: websocket\r\nConnection: Upgrade\r\nSec-WebSocket-Key: dGhlIHNhbXBsZSBub25jZQ==\r\nSec-WebSocket-Version: 13\r\n\r\n";

/// A stream that moves at most `piece` bytes a call, would block at the end of its input, and fails
/// from the call of this number on.
#[derive(Drop)]
pub(crate) struct Pieces {
    pub(crate) input: Vec<u8>,
    at: usize,
    piece: usize,
    pub(crate) output: Vec<u8>,
    /// How many bytes of the output were looked at.
    seen: usize,
    pub(crate) blocked: bool,
    pub(crate) calls: usize,
    pub(crate) fails: usize,
}

impl Pieces {
    /// A stream of this input, of which no call fails.
    pub(crate) fn new(alloc: Global, input: Vec<u8>, piece: usize) -> Pieces {
        Pieces {
            input,
            at: 0,
            piece,
            output: Vec::new(alloc),
            seen: 0,
            blocked: false,
            calls: 0,
            fails: usize::MAX,
        }
    }

    /// A stream that begins with a request.
    pub(crate) fn of_request(
        alloc: Global,
        behind: &[u8],
        piece: usize,
    ) -> Result<Pieces, AllocError> {
        let mut input = REQUEST.to_vec(alloc)?;
        input.extend_from_slice(behind)?;
        Ok(Pieces::new(alloc, input, piece))
    }

    /// How much of the input was not read yet.
    pub(crate) fn unread(&self) -> usize {
        self.input.len().saturating_sub(self.at)
    }

    /// Whether these bytes are what was written next behind those that were looked at; if so they are looked at.
    pub(crate) fn has_written(&mut self, bytes: &[u8]) -> bool {
        if !self.written().starts_with(bytes) {
            return false;
        }
        self.seen = self.seen.saturating_add(bytes.len());
        true
    }

    /// What was written behind what was looked at.
    pub(crate) fn written(&self) -> &[u8] {
        self.output.get(self.seen..).unwrap_or(&[])
    }

    /// Counts all that was written as looked at.
    pub(crate) fn look_behind(&mut self) {
        self.seen = self.output.len();
    }

    /// Whether all that was written was looked at.
    pub(crate) fn is_seen(&self) -> bool {
        self.seen == self.output.len()
    }

    fn count_call(&mut self) -> io::Result<()> {
        self.calls = self.calls.saturating_add(1);
        if self.calls >= self.fails {
            return Err(io::Error::from(ErrorKind::ConnectionReset));
        }
        Ok(())
    }
}

impl Read for Pieces {
    fn read(&mut self, buf: &mut [u8]) -> io::Result<usize> {
        self.count_call()?;
        let rest = self.input.get(self.at..).unwrap_or(&[]);
        let count = rest.len().min(self.piece).min(buf.len());
        if count == 0 {
            return Err(io::Error::from(ErrorKind::WouldBlock));
        }
        buf[..count].copy_from_slice(&rest[..count]);
        self.at = self.at.saturating_add(count);
        Ok(count)
    }
}

impl Write for Pieces {
    fn write(&mut self, buf: &[u8]) -> io::Result<usize> {
        self.count_call()?;
        if self.blocked {
            return Err(io::Error::from(ErrorKind::WouldBlock));
        }
        let count = buf.len().min(self.piece);
        self.output.extend_from_slice(&buf[..count])?;
        Ok(count)
    }

    fn flush(&mut self) -> io::Result<()> {
        self.count_call()
    }
}

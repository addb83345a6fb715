//! A client's socket: what came with its head is read first, and a read is tried only where it may
//! find something.
ghost use Rattle.std.specs.Prelude.{◌≤◌, IfOk, length};

use mio::net::TcpStream;
use std::alloc::Global;
use std::io;
use std::io::{ErrorKind, Read, Write};
use std::net::Shutdown;

#[derive(Drop)]
pub(crate) struct Socket {
    alloc: Global,
    pub(crate) stream: TcpStream,
    // Whether a read may find something. It spares the reads that would block.
    readable: bool,
    // The peer sends no more, so that only a read tells the end.
    ended: bool,
    // A read has told the end.
    is_at_end: bool,
    /// What was read before the handshake, to be read once more.
    pub(crate) early: Vec<u8>,
    // How much of it was given.
    given: usize,
}

impl Socket {
    pub(crate) fn new(alloc: Global, stream: TcpStream) -> Socket {
        Socket {
            alloc,
            stream,
            readable: true,
            ended: false,
            is_at_end: false,
            early: Vec::new(alloc),
            given: 0,
        }
    }

    /// The socket was seen to have something to read, or to be at its end.
    pub(crate) fn notice(&mut self, readable: bool, ended: bool) {
        self.readable = self.readable || readable || ended;
        self.ended = self.ended || ended;
    }

    /// Whether all was read that the peer sent, up to its end.
    pub(crate) fn is_at_end(&self) -> bool {
        self.is_at_end
    }

    /// Tells the peer that nothing more is written.
    pub(crate) fn shut(&self) -> io::Result<()> {
        self.stream.shutdown(Shutdown::Write)
    }

    // What was read early and not given yet.
    fn read_early(&mut self, room: &mut [u8]) -> usize
        ensures { result ≤ length room.new }
    {
        let rest = self.early.get(self.given..).unwrap_or(&[]);
        let count = rest.len().min(room.len());
        room[..count].copy_from_slice(&rest[..count]);
        if count == rest.len() {
            // An idle connection keeps no room for it.
            self.early = Vec::new(self.alloc);
            self.given = 0;
        } else {
            self.given = self.given.saturating_add(count);
        }
        count
    }

    /// Reads what the peer sends, where a read may find something.
    pub(crate) fn read_new(&mut self, room: &mut [u8]) -> io::Result<usize>
        ensures { IfOk result (λ count. count ≤ length room.new) }
    {
        if !self.readable {
            return Err(io::Error::from(ErrorKind::WouldBlock));
        }
        match self.stream.read(room) {
            Ok(count) => {
                self.is_at_end = count == 0;
                if count < room.len() && !self.ended {
                    self.readable = false;
                }
                Ok(count)
            }
            Err(error) => {
                if error.kind() == ErrorKind::WouldBlock {
                    self.readable = false;
                }
                Err(error)
            }
        }
    }
}

impl Read for Socket {
    fn read(&mut self, room: &mut [u8]) -> io::Result<usize> {
        if self.early.is_empty() {
            self.read_new(room)
        } else {
            Ok(self.read_early(room))
        }
    }
}

impl Write for Socket {
    fn write(&mut self, bytes: &[u8]) -> io::Result<usize> {
        self.stream.write(bytes)
    }

    fn flush(&mut self) -> io::Result<()> {
        Ok(())
    }
}

//! A client's end of a connection. No read of it waits for its node longer than twenty seconds.
use std::alloc::Global;
use std::io::{ErrorKind, Read, Write};
use std::net::{Net, OpenStream, SocketAddr, TcpStream};
use std::time::Duration;
use std::{io, str};

const HANDSHAKE: &[u8] =
    b"GET / HTTP/1.1\r\nHost: localhost\r\nUpgrade: websocket\r\nConnection: Upgrade\r\n\
Sec-WebSocket-Key: dGhlIHNhbXBsZSBub25jZQ==\r\nSec-WebSocket-Version: 13\r\n\r\n";

/// So many seconds a client waits for what comes next.
const LONGEST_WAIT: u64 = 20;

/// A head of an answer that has more bytes isn't read to its end.
const LONGEST_HEAD: usize = 1000;

/// A client that speaks through a stream, in texts of less than 126 bytes.
#[derive(Drop)]
pub(super) struct Peer<S> {
    stream: S,
    text: [u8; 125],
}

// A stream to the node at this address.
fn stream_to<N: Net>(rt: &N, address: SocketAddr) -> io::Result<N::Stream> {
    let stream = TcpStream::connect(rt, address)?;
    stream.set_read_timeout(Some(Duration::from_secs(LONGEST_WAIT)))?;
    Ok(stream)
}

/// A client that is connected to a node, by WebSocket and then by a command.
pub(super) fn connect<N: Net>(rt: &N, address: SocketAddr) -> io::Result<Peer<N::Stream>> {
    let mut peer = Peer {
        stream: stream_to(rt, address)?,
        text: [0; 125],
    };
    peer.shake_hands()?;
    peer.say("{\"id\":1,\"connect\":{}}")?;
    peer.next_text()?;
    Ok(peer)
}

/// What a node answers to a request, up to where it ends the connection.
pub(super) fn answer_to<N: Net>(
    rt: &N,
    alloc: Global,
    address: SocketAddr,
    request: &[u8],
) -> io::Result<Vec<u8>> {
    let mut stream = stream_to(rt, address)?;
    stream.write_all(request)?;
    let mut answer = Vec::new(alloc);
    stream.read_to_end(&mut answer)?;
    Ok(answer)
}

impl<S: Read + Write> Peer<S> {
    // Asks for a WebSocket, and reads the answer to its empty line.
    fn shake_hands(&mut self) -> io::Result<()> {
        self.stream.write_all(HANDSHAKE)?;
        let mut last = [0; 4];
        for _ in 0..LONGEST_HEAD {
            let mut next = [0];
            self.stream.read_exact(&mut next)?;
            last = [last[1], last[2], last[3], next[0]];
            if last == *b"\r\n\r\n" {
                return Ok(());
            }
        }
        Err(io::Error::from(ErrorKind::InvalidData))
    }

    /// Sends a text.
    pub(super) fn say(&mut self, text: &str) -> io::Result<()> {
        let head = [0x81, 0x80 | (text.len() % 126) as u8, 0, 0, 0, 0];
        self.stream.write_all(&head)?;
        self.stream.write_all(text.as_bytes())
    }

    // Reads the next text, and answers how many bytes it has.
    fn read_text(&mut self) -> io::Result<usize> {
        let mut head = [0; 2];
        self.stream.read_exact(&mut head)?;
        let size = usize::from(head[1]);
        match self.text.get_mut(..size) {
            Some(text) => self.stream.read_exact(text)?,
            None => return Err(io::Error::from(ErrorKind::InvalidData)),
        }
        Ok(size)
    }

    /// The next text.
    pub(super) fn next_text(&mut self) -> io::Result<&str> {
        let size = self.read_text()?;
        let Some(text) = self.text.get(..size) else {
            return Err(io::Error::from(ErrorKind::InvalidData));
        };
        match str::from_utf8(text) {
            Ok(text) => Ok(text),
            Err(_) => Err(io::Error::from(ErrorKind::InvalidData)),
        }
    }
}

//! How an application uses `cf_client`: a client of ours, which says what to send and what to make of a text, and a WebSocket of
//! `tungstenite`, which carries the texts. No call of a connection waits for its node, so that one thread can have many.
use cf_client::{AppEvent, Client, ClientFault};
use std::alloc::Global;
use std::io;
use std::io::{ErrorKind, Read, Write};
use std::net::{Net, OpenStream, SocketAddr, TcpStream};
use thiserror::Error;
use tungstenite::handshake::client::{request_of, start};
use tungstenite::{Error as SocketError, HandshakeError, Message, NoMask, WebSocket};

/// Where a node takes its clients, as far as a handshake names it.
const NODE: &str = "ws://localhost/connection/websocket";

/// What the key of a handshake is made from. An application draws it by chance, and so the masks of what it sends: by
/// `tungstenite::client`, in the place of `start`.
const NONCE: [u8; 16] = *b"the sample nonce";

/// What answers a node's ping.
const PONG: &str = "{}";

/// Why a connection is over. Its client can go on over another: it is told so by `Client::reconnect`.
#[derive(Debug, Drop, Error)]
pub(super) enum Broken {
    /// The stream failed, or the WebSocket was closed.
    #[error("{0}")]
    Socket(#[from] SocketError),
    /// The client was asked for what doesn't fit, or got what is no text of a node.
    #[error("{0}")]
    Client(#[from] ClientFault),
}

/// A client of ours that is connected to a node.
#[derive(Drop)]
pub(super) struct Connection<S> {
    alloc: Global,
    client: Client,
    socket: WebSocket<S, NoMask>,
}

// A stream to the node at this address, which keeps nothing back to send more at once.
fn stream_to<N: Net>(rt: &N, address: SocketAddr) -> io::Result<N::Stream> {
    let stream = TcpStream::connect(rt, address)?;
    stream.set_nodelay(true)?;
    Ok(stream)
}

// A WebSocket to the node at this address. The handshake waits for the node; from then on nothing does.
fn dial<N: Net>(
    rt: &N,
    alloc: Global,
    address: SocketAddr,
) -> Result<WebSocket<N::Stream, NoMask>, SocketError> {
    let stream = stream_to(rt, address)?;
    let request = request_of(alloc, NODE)?;
    let handshake = start(alloc, NONCE, NoMask, request, stream, None)?;
    match handshake.handshake() {
        Ok((socket, _response)) => {
            socket.get_ref().set_nonblocking(true)?;
            Ok(socket)
        }
        Err(HandshakeError::Failure(error)) => Err(error),
        Err(HandshakeError::Interrupted(_)) => Err(SocketError::HandshakeIncomplete),
    }
}

/// Connects a client to the node at this address, by WebSocket and then by its connect command, with no token.
pub(super) fn open<N: Net>(
    rt: &N,
    alloc: Global,
    address: SocketAddr,
) -> Result<Connection<N::Stream>, Broken> {
    let socket = dial(rt, alloc, address)?;
    let mut connection = Connection {
        alloc,
        client: Client::new(alloc),
        socket,
    };
    connection.send(|client| client.connect(""))?;
    Ok(connection)
}

// A stream that would block only waits; any other error is the end.
fn wait_or_break(error: SocketError) -> Result<(), Broken> {
    match error {
        SocketError::Io(cause) if cause.kind() == ErrorKind::WouldBlock => Ok(()),
        error => Err(Broken::Socket(error)),
    }
}

impl<S: Read + Write + Drop> Connection<S> {
    /// What the client knows.
    pub(super) fn client(&self) -> &Client {
        &self.client
    }

    /// Sends the text that this call of the client gives.
    pub(super) fn send<F>(&mut self, call: F) -> Result<(), Broken>
    where
        F: FnOnce(&mut Client) -> Result<String, ClientFault>,
        requires { F.IsAlwaysCallable call }
    {
        let text = call(&mut self.client)?;
        self.say(text.as_str())
    }

    /// What the application gets by the next text, if one came. Pings are answered.
    pub(super) fn hear(&mut self) -> Result<Vec<AppEvent>, Broken> {
        match self.socket.read() {
            Ok(Message::Text(text)) => self.take(text.as_str()),
            Ok(_) => Ok(Vec::new(self.alloc)),
            Err(error) => {
                wait_or_break(error)?;
                Ok(Vec::new(self.alloc))
            }
        }
    }

    // What the application gets by a text.
    fn take(&mut self, text: &str) -> Result<Vec<AppEvent>, Broken> {
        let events = self.client.on_text(text)?;
        if events
            .iter()
            .any(|event| matches!(event, AppEvent::PongDue))
        {
            self.say(PONG)?;
        }
        Ok(events)
    }

    // Sends a text. What the stream doesn't take now leaves with a later call.
    fn say(&mut self, text: &str) -> Result<(), Broken> {
        let Ok(message) = Message::text(self.alloc, text) else {
            return Err(Broken::Client(ClientFault::Memory));
        };
        match self.socket.send(message) {
            Ok(()) => Ok(()),
            Err(error) => wait_or_break(error),
        }
    }
}

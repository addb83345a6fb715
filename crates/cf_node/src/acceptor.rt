//! Where a node's clients come in: its listener, and the readiness of all its sockets.
use mio::net::{TcpListener, TcpStream};
use mio::{Events, Interest, Poll, Registry, Token, Waker};
use std::io;
use std::io::ErrorKind;
use std::net::Net;
use std::time::Duration;

/// The token of the listener's readiness.
pub(crate) const LISTENER: Token = Token(usize::MAX);

/// The token of a wake by the dispatcher.
pub(crate) const WAKER: Token = Token(usize::MAX - 1);

/// A listener, and what tells of readiness.
#[derive(Drop)]
pub(crate) struct Acceptor {
    poll: Poll,
    listener: TcpListener,
}

// Asks to be told when a connection waits at a listener, and gives what ends a wait for that.
fn listens(registry: &Registry, listener: &mut TcpListener) -> io::Result<Waker> {
    registry.register(listener, LISTENER, Interest::READABLE)?;
    Waker::new(registry, WAKER)
}

impl Acceptor {
    /// The acceptor at this listener, and what ends a wait at it. An error where its readiness can't be
    /// set up.
    pub(crate) fn open<R: Net>(rt: &R, mut listener: TcpListener) -> io::Result<(Acceptor, Waker)> {
        let poll = Poll::new(rt)?;
        let waker = listens(poll.registry(), &mut listener)?;
        Ok((Acceptor { poll, listener }, waker))
    }

    /// Waits for readiness, at most so long. A wait that a signal interrupts has found nothing.
    pub(crate) fn wait(&mut self, events: &mut Events, patience: Duration) -> io::Result<()> {
        match self.poll.poll(events, Some(patience)) {
            Err(error) if error.kind() == ErrorKind::Interrupted => {
                events.clear();
                Ok(())
            }
            waited => waited,
        }
    }

    /// Accepts a connection, whose texts are sent as soon as they are written.
    pub(crate) fn accept(&self) -> io::Result<TcpStream> {
        let (stream, _) = self.listener.accept()?;
        let _ = stream.set_nodelay(true);
        Ok(stream)
    }

    /// Asks to be told when a connection's socket is ready, by the number of its slot. `false`
    /// where it can't be.
    pub(crate) fn registers(&self, stream: &mut TcpStream, slot: usize) -> bool {
        let interest = Interest::READABLE | Interest::WRITABLE;
        let registered = self.poll.registry().register(stream, Token(slot), interest);
        registered.is_ok()
    }
}

//! A connection that is let go: what is left to be written goes out, its client is told that nothing more comes, and then it is
//! kept until its client has read that. A socket that is closed while its client still sends is reset, and what was written last,
//! a close frame or an answer, may be lost by it.
use crate::connection::Turned;
use crate::socket::Socket;
use cf_handshake::health_answer;
use cf_session::WireFault;
use cf_wire::{Gather, RefusedStream};
use std::io::{ErrorKind, Read, Write};

/// The most reads of one turn.
const MOST_READS: usize = 16;

/// So many seconds a client has to read what it is told.
const SECONDS_TO_READ: u64 = 5;

/// A socket on which the last was said, and what is left of that to be written.
#[derive(Drop)]
pub(crate) struct Leaving {
    pub(crate) stream: Gather<Socket>,
    // Since when, in seconds.
    since: u64,
    // Its client was told that nothing more is written.
    is_shut: bool,
}

impl Leaving {
    /// A connection that is over at this moment, with what is left to be written.
    pub(crate) fn new(stream: Gather<Socket>, now: u64) -> Leaving {
        Leaving {
            stream,
            since: now,
            is_shut: false,
        }
    }

    /// One that gets no WebSocket, with the answer to who asks whether the node lives. `None` where
    /// there is nothing to be read: the socket failed, or memory was refused, or the head was too long.
    pub(crate) fn refused(
        refused: RefusedStream<Gather<Socket>>,
        is_well: bool,
        now: u64,
    ) -> Option<Leaving> {
        let RefusedStream {
            fault,
            stream,
            answered,
        } = refused;
        match fault {
            WireFault::Health => Leaving::told(stream, health_answer(is_well), now),
            _ if answered => Some(Leaving::new(stream, now)),
            _ => None,
        }
    }

    /// One that gets this answer and no WebSocket. `None` where memory was refused.
    pub(crate) fn told(mut stream: Gather<Socket>, answer: &[u8], now: u64) -> Option<Leaving> {
        if stream.write_all(answer).is_err() {
            return None;
        }
        Some(Leaving::new(stream, now))
    }

    /// Whether its client's time to read is over at this moment.
    pub(crate) fn is_over(&self, now: u64) -> bool {
        now.saturating_sub(self.since) >= SECONDS_TO_READ
    }

    /// Takes a turn: writes on, and once all is written reads what the client still sends, up to its
    /// end. What is read is passed over.
    pub(crate) fn turn(&mut self) -> Turned {
        match self.stream.drain() {
            Ok(()) => self.sees_off(),
            Err(error) if error.kind() == ErrorKind::WouldBlock => Turned::Idle,
            Err(_) => Turned::Over,
        }
    }

    // All is written: the client is told so, unless its end has come by now, and that is waited for.
    fn sees_off(&mut self) -> Turned {
        let turned = self.reads_on();
        if self.is_shut || turned == Turned::Over {
            return turned;
        }
        if self.stream.stream().shut().is_err() {
            return Turned::Over;
        }
        self.is_shut = true;
        turned
    }

    // What the client still sends is read and passed over, up to its end.
    fn reads_on(&mut self) -> Turned {
        let mut chunk = [0u8; 4096];
        for _ in 0..MOST_READS {
            match self.stream.read(&mut chunk) {
                Ok(0) => return Turned::Over,
                Ok(_) => {}
                Err(error) if error.kind() == ErrorKind::WouldBlock => return Turned::Idle,
                Err(_) => return Turned::Over,
            }
        }
        Turned::More
    }
}

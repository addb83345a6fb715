//! Whether standard input has something to read, and whether standard error takes a line.
use mio::unix::SourceFd;
use mio::{Events, Interest, Poll, Token};
use std::io;
use std::io::ErrorKind;
use std::net::Net;
use std::os::fd::RawFd;
use std::time::Duration;

/// Tells when a descriptor of the program is ready.
#[derive(Drop)]
pub(crate) struct Readiness {
    descriptor: RawFd,
    interest: Interest,
    poll: Poll,
    events: Events,
    // A file can't be waited for, and is always ready.
    can_wait: bool,
}

impl Readiness {
    /// The readiness of a descriptor for this. It takes its own descriptors and memory here, before clients come who
    /// could take all.
    pub(crate) fn open<R: Net + AllocGlobal>(
        rt: &R,
        descriptor: RawFd,
        interest: Interest,
    ) -> io::Result<Readiness> {
        let poll = Poll::new(rt)?;
        let events = Events::with_capacity(rt.alloc(), 1)?;
        let mut source = SourceFd(&descriptor);
        let registered = poll.registry().register(&mut source, Token(0), interest);
        let can_wait = registered.is_ok();
        Ok(Readiness {
            descriptor,
            interest,
            poll,
            events,
            can_wait,
        })
    }

    /// Waits at most so long, and says whether the descriptor is ready, or at its end.
    pub(crate) fn is_ready(&mut self, patience: Duration) -> io::Result<bool> {
        if !self.can_wait {
            return Ok(true);
        }
        // What an earlier call left is told again.
        let mut source = SourceFd(&self.descriptor);
        self.poll
            .registry()
            .reregister(&mut source, Token(0), self.interest)?;
        match self.poll.poll(&mut self.events, Some(patience)) {
            Ok(()) => Ok(!self.events.is_empty()),
            Err(error) if error.kind() == ErrorKind::Interrupted => Ok(false),
            Err(error) => Err(error),
        }
    }
}

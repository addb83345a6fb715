//! What is known of the nodes while they serve, and the wait for the end of standard input.
ghost use Rattle.std.specs.Prelude.{◌≡◌, true, IfOk, IfErr};
ghost use Rattle.std.specs.Io.KnownBytes.{IsAtEnd};
ghost use Rattle.cf_commands.specs.Status.{IsOutside};

use crate::error::CommandError;
use crate::readiness::Readiness;
use crate::sizes::{InputLine, Listener};
use cf_node::{ErrorCounts, Gate, Reach};
use mio::Interest;
use std::io::{ErrorKind, Read};
use std::net::Net;
use std::os::fd::RawFd;
use std::sync::atomic::{AtomicU64, Ordering};
use std::time::{Clock, Duration, Instant};
use std::{io, thread};

/// The most turns of a wait, as of any loop over input or output. One that had no end by then has failed.
const MOST_TURNS: u64 = 4_294_967_296;

/// How long one turn waits at most for standard input, in milliseconds, so that a node's end is seen as soon.
const PATIENCE: u64 = 500;

/// How long one turn waits for the nodes' workers to begin, in milliseconds.
const PAUSE: u64 = 1;

/// The workers of each node.
const WORKERS: u64 = 2;

/// So much of the input is read at once, in bytes.
const ROOM: usize = 4096;

const STANDARD_INPUT: RawFd = 0;

/// No node's number.
const NONE: u64 = u64::MAX;

/// The nodes while they serve. Every worker goes on, and the moment is how long the program runs.
#[derive(Drop)]
pub(crate) struct Running {
    start: Instant,
    // How many workers have begun their first turn.
    begun: AtomicU64,
    // The number of a node whose loop ended, or `NONE`.
    failed: AtomicU64,
    /// What goes wrong at each node.
    pub(crate) counts: Vec<ErrorCounts>,
    /// What publications reach, at all nodes.
    pub(crate) reach: Reach,
    /// Whether nothing is said of that.
    pub(crate) is_quiet: bool,
}

impl Running {
    /// So many nodes, of which none serves yet. An error if there is no clock, or no memory.
    pub(crate) fn new<R: Clock + AllocGlobal>(
        rt: &R,
        nodes: u8,
        is_quiet: bool,
    ) -> io::Result<Running> {
        let mut counts = Vec::with_capacity(rt.alloc(), usize::from(nodes))?;
        for _ in 0..nodes {
            counts.push(ErrorCounts::new())?;
        }
        Ok(Running {
            start: Instant::now(rt)?,
            begun: AtomicU64::new(0),
            failed: AtomicU64::new(NONE),
            counts,
            reach: Reach::new(rt.alloc(), nodes)?,
            is_quiet,
        })
    }

    /// The loop of a node has ended, or couldn't begin.
    pub(crate) fn fail(&self, node: u8) {
        self.failed.store(u64::from(node), Ordering::SeqCst);
    }

    /// An error if the loop of a node has ended.
    pub(crate) fn goes_on(&self) -> Result<(), CommandError> {
        match u8::try_from(self.failed.load(Ordering::SeqCst)) {
            Ok(node) => Err(CommandError::Ended { node }),
            Err(_) => Ok(()),
        }
    }
}

impl Gate for Running {
    fn may(&self, _node: u8, _worker: usize, turn: u64) -> bool {
        if turn == 1 {
            self.begun.fetch_add(1, Ordering::SeqCst);
        }
        true
    }

    fn now<R: Clock>(&self, rt: &R) -> u64 {
        match self.start.elapsed(rt) {
            Ok(passed) => passed.as_secs(),
            Err(_) => 0,
        }
    }
}

/// Waits until both workers of so many nodes have begun.
///
/// # Errors
///
/// `Ended` if the loop of a node has ended; `InputOutput` if they don't begin.
pub(crate) fn wait_for_workers<R: Clock>(
    rt: &R,
    running: &Running,
    nodes: usize,
) -> Result<(), CommandError> {
    let workers = WORKERS.saturating_mul(nodes as u64);
    for _ in 0..MOST_TURNS {
        running.goes_on()?;
        if running.begun.load(Ordering::SeqCst) >= workers {
            return Ok(());
        }
        thread::sleep(rt, Duration::from_millis(PAUSE));
    }
    Err(CommandError::InputOutput)
}

/// What hears standard input: it tells when there is something to read, and keeps what a line has so far.
#[derive(Drop)]
pub(crate) struct Ear {
    input: Readiness,
    line: InputLine,
}

impl Ear {
    /// An ear at standard input.
    pub(crate) fn open<R: Net + AllocGlobal>(rt: &R) -> io::Result<Ear> {
        Ok(Ear {
            input: Readiness::open(rt, STANDARD_INPUT, Interest::READABLE)?,
            line: InputLine::new(rt.alloc())?,
        })
    }

    /// Waits until this reader, which is standard input, ends. Its whole lines are heard, but for those that aren't
    /// UTF-8.
    ///
    /// # Errors
    ///
    /// `Ended` if the loop of a node has ended; `InputOutput` if the input can't be read, or has no end.
    pub(crate) fn hear_all<R: Read, L: Listener>(
        &mut self,
        reader: &mut R,
        running: &Running,
        listener: &mut L,
    ) -> Result<(), CommandError> {
        for _ in 0..MOST_TURNS {
            running.goes_on()?;
            let hears = self.input.is_ready(Duration::from_millis(PATIENCE))?;
            if hears && reads_to_end(reader, &mut self.line, listener)? {
                return Ok(());
            }
        }
        Err(CommandError::InputOutput)
    }
}

/// Reads on, and has the lines heard that end by that. Says whether the reader is at its end.
///
/// # Errors
///
/// `InputOutput` if the read fails; `Memory`.
pub(crate) fn reads_to_end<R: Read, L: Listener>(
    reader: &mut R,
    line: &mut InputLine,
    listener: &mut L,
) -> Result<bool, CommandError>
    ensures end { IfOk result (λ ended. ended ≡ true → IsAtEnd (R.remaining reader.new)) }
    ensures failed { IfErr result IsOutside }
{
    let mut room = [0u8; ROOM];
    match reader.read(&mut room) {
        Ok(count) => {
            line.add_all(room.get(..count).unwrap_or(&[]), listener);
            Ok(count == 0)
        }
        Err(error) if error.kind() == ErrorKind::Interrupted => Ok(false),
        Err(error) => Err(CommandError::from(error)),
    }
}

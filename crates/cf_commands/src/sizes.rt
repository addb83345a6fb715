//! What an operator says while nodes serve: the lines of standard input that set sizes.
ghost use Rattle.std.specs.Prelude.{◌≡◌, ◌≤◌};

use crate::report::Teller;
use cf_broker::{Broker, Passes};
use cf_protocol::Namespaces;
use cf_schedule::{Event, EventFault};
use cf_shard::Naming;
use cf_sizes::set_size_in_all;
use cf_stream::{Epochs, LARGEST_SIZE};
use std::alloc::{AllocError, Global};
use std::sync::Wait;
use std::{fmt, str};

/// So many bytes of a line are kept. A line that sets a size has 43 at most: a longer one is none, and neither are its
/// first 44 bytes.
const KEPT: usize = 44;

/// Who hears the lines of standard input.
pub(crate) trait Listener {
    /// A whole line, without its line feed; of a long one its first 44 bytes.
    fn hear_line(&mut self, line: &str);
}

/// A line of standard input, as far as it has come.
#[derive(Drop)]
pub(crate) struct InputLine {
    bytes: Vec<u8>,
}

impl InputLine {
    /// Nothing has come.
    pub(crate) fn new(alloc: Global) -> Result<InputLine, AllocError> {
        Ok(InputLine {
            bytes: Vec::with_capacity(alloc, KEPT)?,
        })
    }

    /// These bytes have come. The lines that they end are heard, but for those that aren't UTF-8.
    pub(crate) fn add_all<L: Listener>(&mut self, bytes: &[u8], listener: &mut L) {
        for byte in bytes {
            if *byte == b'\n' {
                if let Ok(line) = str::from_utf8(self.bytes.as_slice()) {
                    listener.hear_line(line);
                }
                self.bytes.clear();
            } else if self.bytes.len() < KEPT {
                // There is room for it.
                let _ = self.bytes.push(*byte);
            }
        }
    }
}

/// Sets the sizes of namespaces in the broker's shards, as lines say, and answers each such line on standard error.
/// Lines that don't begin with `size` are passed over, with no answer.
#[derive(Drop)]
pub(crate) struct Sizes<'a, R, N: Naming, E: Epochs + Drop> {
    pub(crate) rt: &'a R,
    pub(crate) broker: &'a Broker<N, E>,
    pub(crate) passes: Passes<N>,
    pub(crate) namespaces: &'a Namespaces,
    pub(crate) teller: Teller,
    ghost named: { namespaces.now ≡ N.namespaces },
}

// What became of a line that begins with `size`.
#[derive(Clone, Copy)]
enum SizeAnswer<'a> {
    Set { name: &'a str, size: usize },
    NotSetUp { name: &'a str, size: usize },
    Refused { name: &'a str, size: usize },
    NoSize,
    NoMemory,
}

impl<'a> fmt::Display for SizeAnswer<'a> {
    fn fmt<W: fmt::Write>(&self, f: &mut fmt::Formatter<W>) -> fmt::Result {
        match self {
            SizeAnswer::Set { name, size } => write!(f, "size {name}={size}: set"),
            SizeAnswer::NotSetUp { name, size } => {
                write!(
                    f,
                    "size {name}={size}: passed over, since --ns sets up no such namespace"
                )
            }
            SizeAnswer::Refused { name, size } => {
                write!(
                    f,
                    "size {name}={size}: refused by a shard, which keeps its size"
                )
            }
            SizeAnswer::NoSize => f.write_str(NO_SIZE),
            SizeAnswer::NoMemory => f.write_str(NO_MEMORY),
        }
    }
}

const NO_SIZE: &str =
    "a line of standard input was passed over: it begins with `size`, and is not `size NAME=K` with K of 1 to 10000";

const NO_MEMORY: &str = "a line of standard input was not read: out of memory";

impl<'a, R, N, E> Listener for Sizes<'a, R, N, E>
where
    R: Wait + Eprint + AllocGlobal,
    N: Naming,
    E: Epochs + Drop,
{
    fn hear_line(&mut self, line: &str) {
        if !line.starts_with("size") {
            return;
        }
        let read = Event::read(self.rt.alloc(), line, 1);
        let answer = match &read {
            Ok(Some(Event::SetSize { namespace, size })) => {
                self.set(namespace.as_str(), size.count())
            }
            Err(EventFault::Memory) => SizeAnswer::NoMemory,
            _ => SizeAnswer::NoSize,
        };
        self.teller.say(self.rt, &answer);
        drop(read);
    }
}

impl<'a, R: Wait, N: Naming, E: Epochs + Drop> Sizes<'a, R, N, E> {
    // Sets a size if a namespace of this name is set up, and says what became of it.
    fn set<'b>(&mut self, name: &'b str, size: usize) -> SizeAnswer<'b>
        requires { (1 ≤ size) × (size ≤ LARGEST_SIZE) }
    {
        if !self.namespaces.contains(name) {
            return SizeAnswer::NotSetUp { name, size };
        }
        if set_size_in_all(self.rt, self.broker, &mut self.passes, name, size) {
            SizeAnswer::Set { name, size }
        } else {
            SizeAnswer::Refused { name, size }
        }
    }
}

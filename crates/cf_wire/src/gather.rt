//! A stream that gathers small writes.
ghost use Rattle.std.specs.Prelude.{◌≡◌, ◌==◌, ◌≤◌, [], length, take, drop, OnOk};
ghost use Rattle.std.specs.Io.KnownBytes.{Keeps, Appends};
ghost use Rattle.cf_wire.specs.Gathered.{written};

use std::alloc::Global;
use std::io::{ErrorKind, Read, Write};
use std::marker::Model;
use std::{io, mem};

/// A stream whose writes wait until it is drained, so that a turn's messages go out by one write. A write while `limit` bytes
/// or more wait drains it first. A flush does nothing, and a read is one of the stream.
#[derive(Drop)]
pub struct Gather<S> {
    stream: S,
    waiting: Vec<u8>,
    limit: usize,
}

impl<S> Model for Gather<S> {
    ghost use Rattle.cf_wire.specs.Gathered.{Gathered, gathered_code};

    ghost Value = { Gathered S };

    ghost coded = { gathered_code S.code };

    ghost view = { λ g. record { stream = g.stream; waiting = g.waiting.items; limit = g.limit } };
}

impl<S> Gather<S> {
    /// Nothing waits. It takes no memory.
    pub fn new(alloc: Global, stream: S, limit: usize) -> Gather<S>
        ensures { result ≡ record { stream = stream; waiting = []; limit = limit } }
    {
        Gather {
            stream,
            waiting: Vec::new(alloc),
            limit,
        }
    }

    /// Whether nothing waits.
    pub fn is_drained(&self) -> bool
        ensures { result ≡ (length self.now.waiting == 0) }
    {
        self.waiting.is_empty()
    }

    /// The stream behind it.
    pub fn stream(&self) -> &S
        ensures { result.now ≡ self.now.stream }
    {
        &self.stream
    }

    /// Exchanges the buffer of what waits for one that others share, if both are empty, so that a quiet stream keeps none.
    pub fn lend(&mut self, buffer: &mut Vec<u8>)
        ensures same { self.new ≡ self.old }
        ensures buffer { buffer.new.items ≡ buffer.old.items }
    {
        if self.is_drained() && buffer.is_empty() {
            mem::swap(&mut self.waiting, buffer);
        }
    }

    /// The stream behind it, to be changed.
    pub fn stream_mut(&mut self) -> &mut S {
        &mut self.stream
    }
}

impl<S: Write> Gather<S> {
    /// Writes what waits, in order. If a write of the stream fails or would block, what it didn't take waits on.
    pub fn drain(&mut self) -> io::Result<()>
        ensures bytes { Keeps (written S.contents self.old) (written S.contents self.new) }
        ensures empty { OnOk result (self.new.waiting ≡ []) }
        ensures limit { self.new.limit ≡ self.old.limit }
    {
        let (count, result) = write_all_of(&mut self.stream, self.waiting.as_slice());
        remove_front(&mut self.waiting, count);
        result
    }
}

/// Writes until all is written or a write fails, and says how many bytes were.
pub(crate) fn write_all_of<S: Write>(stream: &mut S, bytes: &[u8]) -> (usize, io::Result<()>)
    ensures bound { result.0 ≤ length bytes.now }
    ensures all { OnOk result.1 (result.0 ≡ length bytes.now) }
    ensures bytes { Appends (S.contents stream.old) (S.contents stream.new)
        (take result.0 bytes.now) }
{
    let mut count = 0;
    while count < bytes.len() {
        match stream.write(&bytes[count..]) {
            Ok(0) => return (count, Err(io::Error::from(ErrorKind::WriteZero))),
            Ok(n) => count += n,
            Err(error) => return (count, Err(error)),
        }
    }
    (count, Ok(()))
}

/// The first bytes go.
fn remove_front(bytes: &mut Vec<u8>, count: usize)
    requires { count ≤ length bytes.old.items }
    ensures { bytes.new.items ≡ drop count bytes.old.items }
{
    let len = bytes.len();
    bytes.as_mut_slice().copy_within(count..len, 0);
    bytes.truncate(len - count);
}

impl<S: Read> Read for Gather<S> {
    ghost remaining = { λ g. S.remaining g.stream };

    fn read(&mut self, buf: &mut [u8]) -> io::Result<usize> {
        self.stream.read(buf)
    }
}

impl<S: Write> Write for Gather<S> {
    ghost contents = { written S.contents };

    fn write(&mut self, buf: &[u8]) -> io::Result<usize> {
        if self.waiting.len() >= self.limit {
            self.drain()?;
        }
        self.waiting.extend_from_slice(buf)?;
        Ok(buf.len())
    }

    fn flush(&mut self) -> io::Result<()> {
        Ok(())
    }
}

//! The opening handshake of a wire.
ghost use Rattle.std.specs.Prelude.{◌≡◌, [], Some, false, IfOk, IfErr, OnOk};
ghost use Rattle.std.specs.Io.KnownBytes.{Appends};
ghost use Rattle.tungstenite.specs.Socket.{IsFresh};
ghost use Rattle.cf_handshake.specs.Answers.{opening_text};
ghost use Rattle.cf_wire.specs.Answered.{AppendsSome, Opens, OpensBy, Refuses, RefusesBy, Tells};
ghost use Rattle.cf_wire.specs.Refused.{IsOutside, fault_by_kind};
ghost use Rattle.cf_wire.specs.declared.end.Stage.TheVariants as stage;

use crate::end::Stage;
use crate::gather::write_all_of;
use crate::head::read_head;
use crate::wire::Wire;
use cf_handshake::{HandshakeError, HeadAsk, Opening, asked_of};
use std::alloc::{AllocError, Global};
use std::io;
use std::io::{ErrorKind, Read, Write};
use thiserror::Error as ErrorType;
use tungstenite::{NoMask, Role, WebSocket, WebSocketConfig};

/// How many bytes one read of the stream asks for: more than a client mostly says at once. The socket keeps at most two such
/// buffers, also while its client says nothing.
const READ_BYTES: usize = 256;
/// The longest message that is read, in bytes: above the longest text of a session, which closes for it by itself.
const LONGEST_MESSAGE: usize = 131_072;
/// How many bytes of output wait at most: one text of a session's queue, and what is owed to pings.
const LONGEST_OUTPUT: usize = 2_097_152;

/// Why there is no wire.
#[derive(Clone, Copy, Debug, PartialEq, Eq, Drop, ErrorType)]
pub enum WireFault {
    /// What came is no request for a WebSocket, or its head is longer than 16,384 bytes.
    #[error("no WebSocket handshake")]
    Handshake,
    /// It is asked whether the node lives.
    #[error("no WebSocket, but the node's health is asked for")]
    Health,
    /// The stream failed, ended or would block before the handshake was done.
    #[error("the stream failed")]
    StreamFault,
    /// Memory was refused.
    #[error("out of memory")]
    Memory,
}

impl From<AllocError> for WireFault {
    ghost use Rattle.cf_wire.specs.declared.accept.WireFault.TheVariants.{Memory};

    ghost from_gives = { λ _ fault. fault ≡ Memory };

    fn from(_error: AllocError) -> WireFault {
        WireFault::Memory
    }
}

impl From<io::Error> for WireFault {
    ghost use Rattle.cf_wire.specs.Refused.{IsOutside, fault_by};

    ghost from_gives = { λ error fault. (fault ≡ fault_by error) × IsOutside fault };

    fn from(error: io::Error) -> WireFault {
        fault_of_kind(error.kind())
    }
}

/// Why there is no wire over a stream that failed so.
fn fault_of_kind(kind: ErrorKind) -> WireFault
    ensures kind { result ≡ fault_by_kind kind }
    ensures outside { IsOutside result }
{
    match kind {
        ErrorKind::OutOfMemory => WireFault::Memory,
        _ => WireFault::StreamFault,
    }
}

/// A stream over which there is no wire.
#[derive(Drop)]
pub struct RefusedStream<S> {
    /// Why there is none.
    pub fault: WireFault,
    /// The stream. Of what was sent on it, nothing behind the head is lost but what had been read with it.
    pub stream: S,
    /// Whether an answer that refuses the handshake stands on the stream, whole.
    pub answered: bool,
}

impl<S> RefusedStream<S> {
    // Nothing was answered.
    fn silently(fault: WireFault, stream: S) -> RefusedStream<S>
        ensures { result ≡ record { fault = fault; stream = stream; answered = false } }
    {
        RefusedStream {
            fault,
            stream,
            answered: false,
        }
    }
}

fn config() -> WebSocketConfig
    ensures { result.max_message_size ≡ Some LONGEST_MESSAGE }
{
    WebSocketConfig::default()
        .read_buffer_size(READ_BYTES)
        .max_write_buffer_size(LONGEST_OUTPUT)
        .max_message_size(Some(LONGEST_MESSAGE))
        .max_frame_size(Some(LONGEST_MESSAGE))
}

/// Writes an answer, and lets go of it.
fn tell<S: Write>(stream: &mut S, text: &[u8]) -> io::Result<()>
    ensures told { OnOk result (Appends (S.contents stream.old) (S.contents stream.new) text.now) }
    ensures begun { AppendsSome (S.contents stream.old) (S.contents stream.new) text.now }
{
    let (_, written) = write_all_of(stream, text);
    written?;
    stream.flush()
}

/// Answers that a WebSocket is opened, and gives what was read behind the head.
fn tell_opening<S: Write>(
    alloc: Global,
    stream: &mut S,
    opening: &Opening,
    rest: &[u8],
) -> Result<Vec<u8>, WireFault>
    ensures told { OnOk result (Appends (S.contents stream.old) (S.contents stream.new)
        (opening_text opening.now)) }
    ensures rest { IfOk result (λ input. input.items ≡ rest.now) }
    ensures outside { IfErr result IsOutside }
{
    let text = opening.answer(alloc)?;
    let input = rest.to_vec(alloc)?;
    tell(stream, text.as_slice())?;
    Ok(input)
}

/// Answers that a handshake is refused, and says so.
fn refuse<S: Write>(mut stream: S, refusal: HandshakeError) -> RefusedStream<S>
    ensures fault { result.fault ≡ WireFault.Handshake }
    ensures tells { Tells S.contents stream refusal result }
{
    let answered = tell(&mut stream, refusal.answer()).is_ok();
    RefusedStream {
        fault: WireFault::Handshake,
        stream,
        answered,
    }
}

impl<S: Read + Write + Drop> Wire<S> {
    /// Reads the head of a request, and answers it: a WebSocket is opened by 101, and what came behind the head is the wire's
    /// first input; what is no opening handshake is refused by 400 or 426. A head of more than 16,384 bytes, and who asks whether
    /// the node lives, is not answered here. The stream is given back if there is no wire.
    pub fn accept(alloc: Global, mut stream: S) -> Result<Wire<S>, RefusedStream<S>>
        ensures open { IfOk result (λ wire. wire.stage ≡ stage.Open) }
        ensures fresh { IfOk result (λ wire.
            IsFresh (record wire.socket { input = [] }) wire.socket.stream Role.Server) }
        ensures limit { IfOk result (λ wire.
            wire.socket.conn.config.max_message_size ≡ Some LONGEST_MESSAGE) }
        ensures opens { IfOk result (Opens S.contents S.remaining stream) }
        ensures refuses { IfErr result (Refuses S.contents S.remaining stream) }
    {
        let (bytes, end) = match read_head(alloc, &mut stream) {
            Ok(read) => read,
            Err(fault) => return Err(RefusedStream::silently(fault, stream)),
        };
        match end {
            Some(end) => Wire::answer(alloc, stream, &bytes[..end], &bytes[end..]),
            None => Err(RefusedStream::silently(WireFault::Handshake, stream)),
        }
    }

    /// Answers a head, behind which this was read.
    fn answer(
        alloc: Global,
        mut stream: S,
        head: &[u8],
        rest: &[u8],
    ) -> Result<Wire<S>, RefusedStream<S>>
        ensures open { IfOk result (λ wire. wire.stage ≡ stage.Open) }
        ensures fresh { IfOk result (λ wire.
            IsFresh (record wire.socket { input = [] }) wire.socket.stream Role.Server) }
        ensures limit { IfOk result (λ wire.
            wire.socket.conn.config.max_message_size ≡ Some LONGEST_MESSAGE) }
        ensures opens { IfOk result (OpensBy S.contents stream head.now rest.now) }
        ensures refuses { IfErr result (RefusesBy S.contents stream head.now) }
    {
        match asked_of(head) {
            HeadAsk::Socket(opening) => match tell_opening(alloc, &mut stream, &opening, rest) {
                Ok(input) => Ok(Wire {
                    socket: WebSocket::from_partially_read(
                        alloc,
                        stream,
                        NoMask,
                        input,
                        Role::Server,
                        Some(config()),
                    ),
                    stage: Stage::Open,
                }),
                Err(fault) => Err(RefusedStream::silently(fault, stream)),
            },
            HeadAsk::Health => Err(RefusedStream::silently(WireFault::Health, stream)),
            HeadAsk::Refused(refusal) => Err(refuse(stream, refusal)),
        }
    }
}

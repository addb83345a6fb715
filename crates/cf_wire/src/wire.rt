//! A WebSocket, turn by turn.
ghost use Rattle.std.specs.Prelude.{◌≡◌, ◌<◌, [], true, false, None, Some, Ok, OnOk, IfErr};
ghost use Rattle.tungstenite.specs.Content as content;
ghost use Rattle.tungstenite.specs.Content.{close};
ghost use Rattle.tungstenite.specs.Socket.{Flushed, Reads, Socket, close_of};
ghost use Rattle.cf_queue.specs.declared.queue.Out.TheVariants as out;
ghost use Rattle.cf_wire.specs.CloseFrame.{frame_of};
ghost use Rattle.cf_wire.specs.Stages.{is_unflushed, is_over, waits_by, end_by, stage_after, settled, told, code_of_cause, code_of_fault, Agrees, Halts, Stops};
ghost use Rattle.cf_wire.specs.Turn.{Part, Turns, PutsOrKeeps, Sends, Settles, Tells, TellsIf, FlushLeaves, place, read_in, reached_by, reached_emptied, code_in};

use crate::desk::Desk;
use crate::end::{Stage, TurnEnd, WireEnd};
use cf_protocol::{CloseCode, close_reason};
use cf_queue::Out;
use std::io::{ErrorKind, Read, Write};
use std::marker::Model;
use tungstenite::{
    CloseCode as FrameCode, CloseFrame, Error, Message, NoMask, Utf8Bytes, WebSocket,
};
use websocket::error::ProtocolError;

/// The most messages that a turn reads.
const MOST_READS: usize = 64;
/// How many bytes of text a turn hears before it reads no further message.
const MOST_BYTES: usize = 65_536;
/// The most that is sent before the next message is read.
const MOST_SENDS: usize = 1_024;
/// The code of a close frame that has none.
const NO_CODE: u16 = 1_005;
/// The close code of a peer that sent what is no frame, or one that may not come there.
const PROTOCOL_ERROR: u16 = 1_002;
/// The close code of a peer whose text is not UTF-8.
const NOT_UTF8: u16 = 1_007;

/// The WebSocket of one client, on any stream. At most one message waits for the stream, and then nothing is read and nothing
/// taken from the desk.
pub struct Wire<S> {
    pub(crate) socket: WebSocket<S, NoMask>,
    pub(crate) stage: Stage,
}

// By field, so that what owns a wire isn't proved to drop each part of its parts once more.
impl<S: Drop> Drop for Wire<S> {
    fn drop(self) {
        let Wire {
            socket: _,
            stage: _,
        } = self;
    }
}

impl<S> Model for Wire<S> {
    ghost use Rattle.cf_wire.specs.Stages.{WireState};

    ghost Value = { WireState S };

    ghost view = { λ w. record { socket = w.socket; stage = w.stage } };
}

/// The end of a wire whose socket failed.
fn end_of(error: &Error) -> WireEnd
    ensures { result ≡ end_by error.now }
{
    match error {
        Error::OutOfMemory => WireEnd::Memory,
        Error::Io(cause) => match cause.kind() {
            ErrorKind::OutOfMemory => WireEnd::Memory,
            _ => WireEnd::StreamFault,
        },
        _ => WireEnd::StreamFault,
    }
}

/// Whether the stream would block, so that the same is to be tried again.
fn would_block(error: &Error) -> bool
    ensures { result ≡ waits_by error.now }
{
    match error {
        Error::Io(cause) => match cause.kind() {
            ErrorKind::WouldBlock => true,
            _ => false,
        },
        _ => false,
    }
}

/// The code of the close that a peer is told which broke the protocol so. `None`: its stream ended.
fn code_of_cause(cause: &ProtocolError) -> Option<u16>
    ensures { result ≡ code_of_cause cause.now }
{
    match cause {
        ProtocolError::ResetWithoutClosingHandshake => None,
        _ => Some(PROTOCOL_ERROR),
    }
}

/// The code of the close that a peer is told after a read with this error, if it made the error.
fn code_of_fault(error: &Error) -> Option<u16>
    ensures { result ≡ code_of_fault error.now }
{
    match error {
        Error::Utf8 => Some(NOT_UTF8),
        Error::Protocol(cause) => code_of_cause(cause),
        _ => None,
    }
}

/// The close frame of a code.
fn frame_of(code: u16) -> CloseFrame
    ensures { close_of (Some result) ≡ frame_of code }
{
    CloseFrame {
        code: FrameCode::from(code),
        reason: Utf8Bytes::from_static(close_reason(code)),
    }
}

/// The code of the peer's close.
fn code_of(frame: &Option<CloseFrame>) -> u16
    ensures { code_in (close (close_of frame.now)) ≡ Some result }
{
    match frame {
        Some(frame) => u16::from(frame.code),
        None => NO_CODE,
    }
}

impl<S: Read + Write + Drop> Wire<S> {
    /// Reads what the peer sent, at most 64 messages and none once 65,536 bytes of text were heard, and sends what the desk
    /// gives: before the first, after each, and at the end. While the desk isn't ready nothing is read. A text is heard by the
    /// desk, a ping or pong is passed over, and a binary message, or one of more than 131,072 bytes, closes with 3501. If what
    /// came is no frame, or no UTF-8, the turn ends as `StreamFault`, and the peer is told 1002 or 1007. Of a spent wire each
    /// turn ends as the one did by which it was.
    pub fn turn<D: Desk>(&mut self, desk: &mut D) -> TurnEnd
        ensures turns { is_over self.old.stage ≡ false →
            Turns D.hears D.gives D.ready S.remaining S.contents result
            (place desk.old self.old) (place desk.new self.new) }
        ensures ends { Agrees result self.new.stage }
        ensures spent { is_over self.old.stage ≡ true
            → (self.new ≡ self.old) × (desk.new ≡ desk.old) }
    {
        match self.stage {
            Stage::Over(end) => end.told(),
            Stage::Unflushed(close) => match self.flush(close) {
                Ok(()) => self.exchange(desk),
                Err(end) => end,
            },
            Stage::Open => self.exchange(desk),
        }
    }

    /// Whether a message waits for the stream.
    pub fn is_unflushed(&self) -> bool
        ensures { result ≡ is_unflushed self.now.stage }
    {
        match self.stage {
            Stage::Unflushed(_) => true,
            _ => false,
        }
    }

    /// The stream.
    pub fn stream(&self) -> &S
        ensures { result.now ≡ self.now.socket.stream }
    {
        self.socket.get_ref()
    }

    /// The stream, to be changed: what is promised of a turn speaks of the stream that it finds.
    pub fn stream_mut(&mut self) -> &mut S {
        self.socket.get_mut()
    }

    /// Lets go of the wire, and gives its stream.
    pub fn into_stream(self) -> S
        ensures { result ≡ self.socket.stream }
    {
        let Wire { socket, stage: _ } = self;
        socket.into_inner()
    }

    fn exchange<D: Desk>(&mut self, desk: &mut D) -> TurnEnd
        requires { self.old.stage ≡ Stage.Open }
        ensures turns { Turns D.hears D.gives D.ready S.remaining S.contents result
            (place desk.old self.old) (place desk.new self.new) }
        ensures ends { Agrees result self.new.stage }
    {
        let mut left = MOST_BYTES;
        for index in 0..MOST_READS {
            if let Err(end) = self.give_all(desk) {
                return end;
            }
            if !desk.is_ready() {
                return TurnEnd::Idle;
            }
            if left == 0 {
                return TurnEnd::More;
            }
            if let Err(end) = self.hear(desk, &mut left) {
                return end;
            }
        }
        match self.give_all(desk) {
            Ok(()) => TurnEnd::More,
            Err(end) => end,
        }
    }

    /// Sends what the desk gives, until it gives nothing.
    fn give_all<D: Desk>(&mut self, desk: &mut D) -> Result<(), TurnEnd>
        requires { self.old.stage ≡ Stage.Open }
        ensures turns { Part D.hears D.gives D.ready S.remaining S.contents 0 0 0 0
            (reached_emptied result) (place desk.old self.old) (place desk.new self.new) }
        ensures open { OnOk result (self.new.stage ≡ Stage.Open) }
        ensures ends { IfErr result (λ end. Agrees end self.new.stage) }
    {
        for index in 0..MOST_SENDS {
            let Some(out) = desk.next() else {
                return Ok(());
            };
            if let Err(end) = self.put(out) {
                return Err(end);
            }
        }
        Err(TurnEnd::More)
    }

    /// Reads a message, and does what it asks for. The bytes of a text come off those that are left.
    fn hear<D: Desk>(&mut self, desk: &mut D, left: &mut usize) -> Result<(), TurnEnd>
        requires open { self.old.stage ≡ Stage.Open }
        requires ready { D.ready desk.old ≡ true }
        requires room { 0 < left.old }
        ensures turns { Part D.hears D.gives D.ready S.remaining S.contents (read_in result) 1
            left.old left.new (reached_by result) (place desk.old self.old)
            (place desk.new self.new) }
        ensures open { OnOk result (self.new.stage ≡ Stage.Open) }
        ensures ends { IfErr result (λ end. Halts end self.new.stage) }
    {
        match self.socket.read() {
            Ok(message) => {
                let acted = self.act_on(&message, desk, left);
                // By a call, since what drops an enum at the end of its block is proved here for each of its variants.
                drop(message);
                acted
            }
            Err(Error::Capacity(_)) => self.shut(CloseCode::BadRequest.code()),
            Err(error) => Err(self.fail(error)),
        }
    }

    /// Does what a message asks for that was read.
    fn act_on<D: Desk>(
        &mut self,
        message: &Message,
        desk: &mut D,
        left: &mut usize,
    ) -> Result<(), TurnEnd>
        requires open { self.old.stage ≡ Stage.Open }
        requires ready { D.ready desk.old ≡ true }
        requires room { 0 < left.old }
        ensures turns { (before : Socket S)
            → Reads S.remaining before self.old.socket (Ok message.now)
            → Part D.hears D.gives D.ready S.remaining S.contents (read_in result) 1
            left.old left.new (reached_by result)
            (place desk.old (record { socket = before; stage = Stage.Open }))
            (place desk.new self.new) }
        ensures open { OnOk result (self.new.stage ≡ Stage.Open) }
        ensures ends { IfErr result (λ end. Halts end self.new.stage) }
    {
        match message {
            Message::Text(text) => {
                let words = text.as_str();
                desk.heard(words);
                *left = left.saturating_sub(words.len());
                Ok(())
            }
            Message::Binary(_) => self.shut(CloseCode::BadRequest.code()),
            Message::Ping(_) => Ok(()),
            Message::Pong(_) => Ok(()),
            Message::Close(frame) => {
                let code = code_of(frame);
                self.stage = Stage::Unflushed(Some(code));
                self.flush(Some(code))
            }
        }
    }

    /// Sends what the desk gave. Nothing is asked of a connection that can't write.
    #[inline(always)]
    fn put(&mut self, out: Out) -> Result<(), TurnEnd>
        ensures put { Settles S.contents self.old.socket out self.new.socket self.new.stage }
        ensures kept { PutsOrKeeps S.contents self.old.socket out self.new.socket }
        ensures open { OnOk result (self.new.stage ≡ Stage.Open) }
        ensures ends { IfErr result (λ end. Stops end self.new.stage) }
    {
        if !self.socket.can_write() {
            return Err(self.stop(WireEnd::StreamFault));
        }
        match out {
            Out::Text(text) => self.send(text),
            Out::Close(code) => self.shut(code),
        }
    }

    /// Sends a text.
    #[inline(always)]
    fn send(&mut self, text: Utf8Bytes) -> Result<(), TurnEnd>
        ensures sent { Sends S.contents self.old.socket (content.text text) None self.new.socket
            self.new.stage }
        ensures open { OnOk result (self.new.stage ≡ Stage.Open) }
        ensures ends { IfErr result (λ end. Stops end self.new.stage) }
    {
        match self.socket.send(Message::Text(text)) {
            Ok(()) => {
                self.stage = Stage::Open;
                Ok(())
            }
            Err(error) => Err(self.pause(error, Stage::Unflushed(None))),
        }
    }

    /// Sends a close frame by the two calls that the socket's `send` is made of, so that `send` itself has one caller, and the
    /// compiler unfolds it where a text is sent.
    fn send_close(&mut self, frame: CloseFrame, code: u16) -> Result<(), TurnEnd>
        ensures sent { Sends S.contents self.old.socket (content.close (close_of (Some frame)))
            (Some code) self.new.socket self.new.stage }
        ensures open { OnOk result (self.new.stage ≡ Stage.Open) }
        ensures ends { IfErr result (λ end. Stops end self.new.stage) }
    {
        let stage = Stage::Unflushed(Some(code));
        match self.socket.write(Message::Close(Some(frame))) {
            Ok(()) => {
                self.stage = stage;
                self.flush(Some(code))
            }
            Err(error) => Err(self.pause(error, stage)),
        }
    }

    /// Asks the socket for a close: as it sends a message, which changes nothing if it finds the output full, as long as the
    /// connection can write. Once a read has failed only the socket's `close` still writes.
    #[cold]
    fn shut(&mut self, code: u16) -> Result<(), TurnEnd>
        ensures put { Settles S.contents self.old.socket (out.Close code) self.new.socket
            self.new.stage }
        ensures open { OnOk result (self.new.stage ≡ Stage.Open) }
        ensures ends { IfErr result (λ end. Stops end self.new.stage) }
    {
        let frame = frame_of(code);
        if !self.socket.can_write() {
            let answer = self.socket.close(Some(frame));
            return self.settle(answer, Some(code));
        }
        if !frame.code.is_allowed() {
            let barred = Error::Protocol(ProtocolError::InvalidCloseCode(code));
            return self.settle(Err(barred), Some(code));
        }
        self.send_close(frame, code)
    }

    /// A read failed. The peer is told if it made the error, as far as its socket takes it.
    fn fail(&mut self, error: Error) -> TurnEnd
        ensures told { TellsIf S.contents self.old.socket (code_of_fault error) self.new.socket }
        ensures left { self.new.stage ≡ stage_after error Stage.Open }
        ensures halts { Halts result self.new.stage }
    {
        self.tell_fault(&error);
        self.pause(error, Stage::Open)
    }

    /// Tells the peer of an error of a read that it made. What the socket answers changes nothing.
    fn tell_fault(&mut self, error: &Error)
        ensures told { TellsIf S.contents self.old.socket (code_of_fault error.now)
            self.new.socket }
    {
        match code_of_fault(error) {
            Some(code) => self.tell(code),
            None => {}
        }
    }

    /// Asks the socket for a close, whatever it answers. The stage is for the caller to settle.
    fn tell(&mut self, code: u16)
        ensures { Tells S.contents self.old.socket code self.new.socket }
    {
        let told = self.shut(code);
        drop(told);
    }

    /// What waits goes to the stream. Ok: the wire is open again.
    fn flush(&mut self, close: Option<u16>) -> Result<(), TurnEnd>
        requires { self.old.stage ≡ Stage.Unflushed close }
        ensures flushed { Flushed S.contents self.old.socket self.new.socket }
        ensures leaves { FlushLeaves close self.new.socket self.new.stage }
        ensures open { OnOk result (self.new.stage ≡ Stage.Open) }
        ensures ends { IfErr result (λ end. Stops end self.new.stage) }
    {
        let answer = self.socket.flush();
        self.settle(answer, close)
    }

    /// Settles what a `close` or a `flush` answered: behind Ok a wire whose close waits is over with its code.
    fn settle(&mut self, answer: Result<(), Error>, close: Option<u16>) -> Result<(), TurnEnd>
        ensures same { self.new.socket ≡ self.old.socket }
        ensures ok { OnOk answer (self.new.stage ≡ settled close) }
        ensures err { IfErr answer (λ e. self.new.stage ≡ stage_after e (Stage.Unflushed close)) }
        ensures open { OnOk result (self.new.stage ≡ Stage.Open) }
        ensures ends { IfErr result (λ end. Stops end self.new.stage) }
    {
        match answer {
            Err(error) => Err(self.pause(error, Stage::Unflushed(close))),
            Ok(()) => match close {
                Some(code) => Err(self.stop(WireEnd::Closed(code))),
                None => {
                    self.stage = Stage::Open;
                    Ok(())
                }
            },
        }
    }

    /// The socket failed: if the stream would block the wire is left at this stage, else it is spent.
    #[cold]
    fn pause(&mut self, error: Error, stage: Stage) -> TurnEnd
        requires { is_over stage ≡ false }
        ensures same { self.new.socket ≡ self.old.socket }
        ensures left { self.new.stage ≡ stage_after error stage }
        ensures halts { Halts result self.new.stage }
    {
        let waits = would_block(&error);
        let end = end_of(&error);
        // Once, and before the ways part.
        drop(error);
        if waits {
            self.stage = stage;
            return TurnEnd::Idle;
        }
        self.stop(end)
    }

    fn stop(&mut self, end: WireEnd) -> TurnEnd
        ensures same { self.new.socket ≡ self.old.socket }
        ensures over { self.new.stage ≡ Stage.Over end }
        ensures halts { Halts result self.new.stage }
    {
        self.stage = Stage::Over(end);
        end.told()
    }
}

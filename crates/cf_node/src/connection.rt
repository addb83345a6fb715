//! One connection: a socket whose head is collected, and then a wire and its session.
ghost use Rattle.std.specs.Prelude.{◌≡◌};

use crate::backend::Backend;
use crate::costs::LOOP_BUDGET;
use crate::desk::SessionDesk;
use crate::leaving::Leaving;
use crate::socket::Socket;
use cf_dispatch::{Group, is_head_over};
use cf_node_hub::NodeHub;
use cf_protocol::CloseCode;
use cf_session::{TurnEnd, Wire};
use cf_wire::Gather;
use std::io::ErrorKind;
use std::mem;

/// The most bytes that a head may have.
const LONGEST_HEAD: usize = 16_384;

/// What stands at one slot of the IO loop.
#[derive(Drop)]
pub(crate) enum Connection<'a, B: Backend> {
    Empty,
    /// The head has not come whole.
    Head(Head),
    Open(Box<Open<'a, B>>),
    /// The last was said to it.
    Leaving(Leaving),
}

/// A socket that keeps what came of its head, to read it once more.
#[derive(Drop)]
pub(crate) struct Head {
    pub(crate) socket: Socket,
    /// When it was accepted, in seconds.
    pub(crate) accepted: u64,
}

/// How far a head has come.
#[derive(Clone, Copy, Drop)]
pub(crate) enum HeadStage {
    Partial,
    Whole,
    /// It will not come whole: the connection is over, or the head too long.
    Lost,
}

/// A connection that speaks: its wire, and the desk at which its session sits. Nobody else has these, or one without the other:
/// what the desk gives goes to the wire beside it.
#[derive(Drop)]
pub(crate) struct Open<'a, B: Backend> {
    wire: Wire<Gather<Socket>>,
    desk: SessionDesk<'a, B>,
}

impl Head {
    /// Reads on, and says how far the head has come by that.
    pub(crate) fn read_on(&mut self) -> HeadStage {
        let mut chunk = [0u8; 1024];
        for _ in 0..LONGEST_HEAD {
            let stage = match self.socket.read_new(&mut chunk) {
                Ok(count) => self.keep(chunk.get(..count).unwrap_or(&[])),
                Err(error) if error.kind() == ErrorKind::WouldBlock => return HeadStage::Partial,
                Err(_) => HeadStage::Lost,
            };
            if !matches!(stage, HeadStage::Partial) {
                return stage;
            }
        }
        HeadStage::Partial
    }

    // Keeps what was read, and says how far the head has come by it. It is lost where nothing was.
    fn keep(&mut self, part: &[u8]) -> HeadStage {
        let early = &mut self.socket.early;
        let known = early.len().saturating_sub(3);
        if part.is_empty() || early.extend_from_slice(part).is_err() {
            HeadStage::Lost
        } else if has_blank_line(early.get(known..).unwrap_or(&[])) {
            HeadStage::Whole
        } else if early.len() >= LONGEST_HEAD {
            HeadStage::Lost
        } else {
            HeadStage::Partial
        }
    }
}

impl<'a, B: Backend> Connection<'a, B> {
    /// What a second brings: whether the connection still stands. One that has sent no connect command
    /// for `stale` seconds doesn't, where that isn't 0.
    pub(crate) fn refresh(&mut self, now: u64, stale: u64) -> bool {
        match self {
            Connection::Empty => true,
            Connection::Head(head) => !is_head_over(head.accepted, now),
            Connection::Open(open) => open.refresh(now, stale),
            Connection::Leaving(leaving) => !leaving.is_over(now),
        }
    }
}

/// How a connection stands after its turn.
#[derive(Clone, Copy, PartialEq, Eq, Drop)]
pub(crate) enum Turned {
    /// It waits for its socket, or for the hub.
    Idle,
    /// It has more to do at once.
    More,
    /// Its last is written: its client is to read it.
    Leaves,
    Over,
}

impl<'a, B: Backend> Open<'a, B> {
    ghost use Rattle.cf_dispatch.specs.Outlet.{Takes};

    /// One whose handshake was answered at this moment: its session sits at a desk of its own.
    pub(crate) fn new(wire: Wire<Gather<Socket>>, backend: &'a B, now: u64) -> Open<'a, B> {
        Open {
            wire,
            desk: SessionDesk::new(backend, now),
        }
    }

    // Whether it has no session, so many seconds after it was opened.
    fn is_stale(&self, now: u64, stale: u64) -> bool {
        let client = &self.desk.handler.client;
        stale != 0 && !client.has_session() && now.saturating_sub(client.refreshed) >= stale
    }

    /// What a second brings: whether it still stands. One that has sent no connect command for `stale` seconds doesn't, where
    /// that isn't 0.
    pub(crate) fn refresh(&mut self, now: u64, stale: u64) -> bool {
        !self.is_stale(now, stale) && self.desk.handler.refresh(now)
    }

    /// What a second brings before the hub's pings. Who waits for its turn may have answered, and so may who was just heard and
    /// had sent much: its answer may have had no room in the socket.
    pub(crate) fn looks_for_pong(&mut self, now: u64, waits: bool) {
        let is_unheard = self.desk.heard_much() || waits;
        self.desk.handler.looks_for_pong(now, is_unheard);
    }

    /// Its socket is ready. What is seen of it without reading counts at once: a client that sends nothing more is present
    /// nowhere.
    pub(crate) fn notice(&mut self, readable: bool, ended: bool) {
        self.wire.stream_mut().stream_mut().notice(readable, ended);
        if ended {
            self.desk.handler.keep_gone();
        }
    }

    /// Whether its client waits until nobody has to who is held.
    pub(crate) fn is_held(&self) -> bool {
        self.desk.is_held()
    }

    /// A turn in which its client is heard is to come from this moment on: in which group, and whether it is held, since it
    /// published while some node was behind, or has spent the bounds of its last turn on more than the loop sends in one, or what
    /// it sent was put off.
    pub(crate) fn is_owed(&mut self, now: u64) -> (Group, bool) {
        let puts_off = self.desk.puts_off();
        let handler = &mut self.desk.handler;
        handler.is_owed(now);
        let is_held = handler.is_held || handler.is_spent && handler.cost >= LOOP_BUDGET;
        (handler.group(is_held), is_held || puts_off)
    }

    /// A turn begins at this moment in which its client is heard, and what may publish is put off, or not. Who was put off has
    /// its turn now, as whole as any other's.
    pub(crate) fn begin_turn(&mut self, now: u64, bars: bool) {
        let bars = bars && !self.desk.puts_off();
        self.desk.handler.begin_turn(now, bars);
    }

    /// A turn is over: who brings on what was published in it is woken, and its session sits at this slot from now on. What the
    /// turn cost, and whether the bounds of one are spent.
    pub(crate) fn end_turn(&mut self, owners: &mut Vec<usize>, slot: usize) -> (u64, bool) {
        self.desk.handler.ring();
        self.desk.handler.client.sits_at(owners, slot);
        (self.desk.handler.cost, self.desk.handler.is_spent)
    }

    /// Takes a turn: sends what waits while the socket takes it, and where it is to hear, carries on
    /// what is on its way and reads what came, up to the bounds of one turn.
    pub(crate) fn turn(&mut self, buffer: &mut Vec<u8>, now: u64, hears: bool) -> Turned {
        if !drains(&mut self.wire) {
            return Turned::Over;
        }
        if !self.wire.stream().is_drained() {
            return Turned::Idle;
        }
        self.wire.stream_mut().lend(buffer);
        // What the connection kept for what waited is let go, since that is written.
        drop(mem::replace(buffer, Vec::new(self.desk.handler.backend.alloc())));
        self.desk.begin(now, hears);
        let end = self.wire.turn(&mut self.desk);
        let stands = drains(&mut self.wire);
        // The buffer comes back where all that was gathered is written.
        self.wire.stream_mut().lend(buffer);
        if !stands {
            return Turned::Over;
        }
        if hears {
            self.desk.handler.is_spent = self.desk.is_spent(end == TurnEnd::More);
        }
        match end {
            TurnEnd::Idle if self.has_more() => Turned::More,
            TurnEnd::Idle => Turned::Idle,
            TurnEnd::More => Turned::More,
            TurnEnd::Closed(_) | TurnEnd::StreamFault => self.leaves(),
            TurnEnd::Memory => Turned::Over,
        }
    }

    // The wire is spent. What was gathered for the client, its close too, may still wait for the socket. Once all is written, a
    // client whose end was read has nothing more to say, and isn't waited for.
    fn leaves(&mut self) -> Turned {
        if self.wire.stream().is_drained() {
            let is_at_end = self.wire.stream().stream().is_at_end();
            return if is_at_end {
                Turned::Over
            } else {
                Turned::Leaves
            };
        }
        self.desk.handler.stop();
        Turned::Idle
    }

    // Whether there is more to do at once.
    fn has_more(&self) -> bool {
        self.takes_more() && (self.desk.goes_on() || self.desk.owed)
    }

    // Whether its wire takes more at once.
    fn is_free(&self) -> bool {
        !self.wire.is_unflushed() && self.wire.stream().is_drained()
    }

    // Whether what is taken for its client can be sent at once.
    fn takes_more(&self) -> bool {
        self.desk.is_sent() && self.is_free()
    }

    /// The session of this number has its turn in the hub that is lent: if it is the client's own, and what is taken for it can
    /// be sent at once, what waits there is taken. Whether the wire takes more at once.
    pub(crate) fn take_waiting(&mut self, hub: &mut NodeHub<B::Of>, session: u32) -> bool
        ensures takes { Takes session hub.old.node hub.new.node self.old.desk.outbox.outs.items
            self.new.desk.outbox.outs.items }
        ensures wire { self.new.wire ≡ self.old.wire }
    {
        let is_free = self.takes_more();
        self.desk.take_waiting(hub, session, is_free);
        self.is_free()
    }

    /// Looks whether its client's session is over.
    pub(crate) fn looks_for_end(&mut self) {
        self.desk.handler.looks_for_end();
    }

    /// Its client's session is closed with this code, which is still to be told.
    pub(crate) fn close(&mut self, code: CloseCode) {
        self.desk.owed = true;
        let handler = &self.desk.handler;
        handler.backend.hub().close(&handler.client, code.code());
    }

    /// The last is written to it at this moment: its client's session goes, and the socket stays until its client has read that.
    pub(crate) fn see_off(self, now: u64) -> Leaving {
        let Open { wire, mut desk, .. } = self;
        let leaving = Leaving::new(wire.into_stream(), now);
        desk.handler.give_up();
        leaving
    }

    /// It is over: its socket is closed, and then its client's session goes.
    pub(crate) fn end(self) {
        let Open { wire, mut desk, .. } = self;
        drop(wire);
        desk.handler.give_up();
    }
}

// Writes what was gathered, as far as the socket takes it. `false` where the socket fails.
fn drains(wire: &mut Wire<Gather<Socket>>) -> bool {
    if wire.stream().is_drained() {
        return true;
    }
    match wire.stream_mut().drain() {
        Ok(()) => true,
        Err(error) => error.kind() == ErrorKind::WouldBlock,
    }
}

fn has_blank_line(bytes: &[u8]) -> bool {
    bytes.windows(4).any(|part| part == b"\r\n\r\n".as_slice())
}

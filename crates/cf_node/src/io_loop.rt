//! The worker that serves the sockets: it turns a connection that has something to read or
//! something to send, and no other, in the order of a queue that is fair by what turns cost. A turn of
//! the loop gives turns until they cost a certain sum, and not so many.
use crate::acceptor::{Acceptor, LISTENER, WAKER};
use crate::backend::Backend;
use crate::connection::{Connection, Head, HeadStage, Open, Turned};
use crate::costs::{CALL, LOOP_BUDGET};
use crate::error_counts::NodeError;
use crate::gate::{Gate, IO_LOOP};
use crate::leaving::Leaving;
use crate::socket::Socket;
use cf_dispatch::{GROUPS, Group, Outlets, Rota, SESSIONS_AT_ONCE, Ticks};
use cf_fair::FairQueue;
use cf_health::{HealthAsk, health_ask};
use cf_node_hub::NodeHub;
use cf_protocol::CloseCode;
use cf_session::Wire;
use cf_wire::Gather;
use mio::Events;
use mio::event::Event;
use mio::net::TcpStream;
use std::alloc::AllocError;
use std::io::ErrorKind;
use std::sync::Wait;
use std::sync::atomic::{AtomicU64, Ordering};
use std::time::{Clock, Duration};
use std::{io, mem, thread};

/// The most connections accepted at one turn.
const MOST_ACCEPTED: usize = 64;

/// So many connections a node has at most, those without a session among them.
const MOST_SLOTS: usize = 16_384;

/// A loop that took no turn for more seconds than these was held up, and so may the dispatcher have been: it has as long to turn.
const SECONDS_HELD_UP: u64 = 2;

/// So many bytes are gathered before they are written within a turn.
const GATHERED: usize = 65_536;

/// The most times that sessions are asked for in a row: then others are heard.
const MOST_BATCHES: usize = 4;

/// So many connections are heard before those are served that got something by it.
const HEARD_AT_ONCE: usize = 16;

/// So many times it is looked at most, while the node ends, whether who was told so has read it.
const MOST_LOOKS: usize = 200;

/// So many milliseconds lie between two looks at most.
const BETWEEN_LOOKS: u64 = 10;

/// So many sockets are told of at one wait.
const MOST_EVENTS: usize = 512;

/// How long the loop waits for readiness where nothing is left to do, in milliseconds, so that it
/// sees each new second.
const PATIENCE: u64 = 1000;

/// The same where some wait until no node is behind.
const SHORT_PATIENCE: u64 = 1;

/// What the listener was left with.
#[derive(Clone, Copy, PartialEq, Eq, Drop)]
enum Accepts {
    /// No connection waits to be accepted.
    All,
    /// Some may.
    More,
    /// One could not be: it is tried again with the next second.
    Failed,
}

/// A slot whose session the hub has named, and whether its socket takes more.
#[derive(Clone, Copy, Drop)]
struct Named {
    slot: usize,
    is_free: bool,
}

#[derive(Drop)]
struct IoLoop<'a, B: Backend> {
    backend: &'a B,
    acceptor: Acceptor,
    slots: Vec<Connection<'a, B>>,
    // The slots that stand empty.
    free: Vec<usize>,
    // At which slot each session of the hub is.
    owners: Vec<usize>,
    // The slots that have a turn to come, by group. Those are held that published while some node was
    // behind, or more than one turn of the loop sends. Each turn of the loop gives turns to some of each
    // group.
    cheap: FairQueue,
    dear: FairQueue,
    fresh: FairQueue,
    // To which group a turn of the loop comes first.
    rota: Rota,
    // What the turns cost that this turn of the loop has given so far.
    spent: u64,
    // The same of those whose publications may not be sent yet.
    debt: u64,
    // The hub may have something for sessions that it wasn't asked for.
    is_behind: bool,
    // Who is held waits on, as it was before the turn of a connection that is on its way.
    is_holding: bool,
    // The slots whose sessions the hub has just named.
    batch: Vec<Named>,
    // A buffer for what one turn sends, so that idle connections keep none.
    buffer: Vec<u8>,
    accepts: Accepts,
    ticks: Ticks,
    // The moment of this turn.
    now: u64,
    // When it went on after it was held up.
    resumed: u64,
    // After so many seconds without a connect command a connection is dropped; 0: never.
    stale: u64,
}

/// Serves until `stop` isn't 0, and then closes all sessions with 3001.
pub(crate) fn serve<R: Wait + Clock, B: Backend, G: Gate>(
    rt: &R,
    node: u8,
    backend: &B,
    acceptor: Acceptor,
    stale: u64,
    gate: &G,
    stop: &AtomicU64,
) -> io::Result<()> {
    let alloc = backend.alloc();
    let mut io_loop = IoLoop {
        backend,
        acceptor,
        slots: Vec::new(alloc),
        free: Vec::new(alloc),
        owners: Vec::new(alloc),
        cheap: FairQueue::new(alloc, LOOP_BUDGET),
        dear: FairQueue::new(alloc, LOOP_BUDGET),
        fresh: FairQueue::new(alloc, LOOP_BUDGET),
        rota: Rota::new(),
        spent: 0,
        debt: 0,
        is_behind: false,
        is_holding: false,
        batch: Vec::new(alloc),
        buffer: Vec::new(alloc),
        accepts: Accepts::All,
        ticks: Ticks::new(),
        now: 0,
        resumed: 0,
        stale,
    };
    let served = io_loop.run(rt, node, gate, stop);
    let IoLoop { slots, .. } = io_loop;
    let_go(slots);
    served
}

// The connections of a loop that has ended are over.
fn let_go<B: Backend>(mut slots: Vec<Connection<'_, B>>) {
    while let Some(connection) = slots.pop() {
        match connection {
            Connection::Empty => {}
            Connection::Head(_) | Connection::Open(_) | Connection::Leaving(_) => {}
        }
    }
    slots.destroy_empty();
}

// A connection whose head is whole: the handshake is answered, or the question whether the node
// lives. One that speaks gets a desk of its own. Empty where there is no answer, or memory is refused.
fn opened<'a, B: Backend>(
    backend: &'a B,
    connection: Connection<'a, B>,
    is_well: bool,
    now: u64,
) -> Connection<'a, B> {
    let head = match connection {
        Connection::Head(head) => head,
        _ => return Connection::Empty,
    };
    let asks = asks_for_health(head.socket.early.as_slice());
    let gather = Gather::new(backend.alloc(), head.socket, GATHERED);
    if let Some(ask) = asks {
        return leaves(Leaving::told(gather, ask.answer(is_well), now));
    }
    match Wire::accept(backend.alloc(), gather) {
        Ok(wire) => {
            match Box::new(backend.alloc(), Open::new(wire, backend, now)) {
                Ok(open) => Connection::Open(open),
                Err(_) => Connection::Empty,
            }
        }
        Err(refused) => leaves(Leaving::refused(refused, is_well, now)),
    }
}

// How a head asks for the node's health otherwise than by `GET`. Those who ask by `GET` are answered as who wants a WebSocket, so
// their head is read but once.
fn asks_for_health(head: &[u8]) -> Option<HealthAsk> {
    if head.starts_with(b"GET ") {
        return None;
    }
    health_ask(head)
}

// A connection that is let go, if there is somebody to read what it is told.
fn leaves<'a, B: Backend>(leaving: Option<Leaving>) -> Connection<'a, B> {
    match leaving {
        Some(leaving) => Connection::Leaving(leaving),
        None => Connection::Empty,
    }
}

// Who has the next turn of a queue, if one has.
fn next_of(queue: &mut FairQueue, holds: bool) -> Option<usize> {
    if holds {
        queue.next_light()
    } else {
        queue.next()
    }
}

impl<'a, B: Backend> IoLoop<'a, B> {
    // Takes turns until `stop` isn't 0, and then closes all sessions.
    fn run<R: Wait + Clock, G: Gate>(
        &mut self,
        rt: &R,
        node: u8,
        gate: &G,
        stop: &AtomicU64,
    ) -> io::Result<()> {
        let mut events = Events::with_capacity(self.backend.alloc(), MOST_EVENTS)?;
        let mut turn: u64 = 0;
        for _ in rt.forever() {
            if stop.load(Ordering::SeqCst) != 0 {
                break;
            }
            turn = turn.wrapping_add(1);
            if gate.may(node, IO_LOOP, turn) {
                // What the sockets have got by this moment is heard in this turn.
                let now = gate.now(rt);
                self.wait(&mut events)?;
                self.turn(&events, now);
            } else {
                thread::yield_now();
            }
        }
        self.shut_down(&mut events);
        Ok(())
    }

    // Waits for readiness, where nothing is left to do.
    fn wait(&mut self, events: &mut Events) -> io::Result<()> {
        let is_done = self.is_idle()
            && !self.is_behind
            && self.accepts != Accepts::More
            && !self.ticks.is_late();
        let patience = if !is_done {
            0
        } else if self.nobody_waits() {
            PATIENCE
        } else {
            SHORT_PATIENCE
        };
        self.acceptor.wait(events, Duration::from_millis(patience))
    }

    // Whether nobody has a turn to come but those who are held.
    fn is_idle(&self) -> bool {
        self.nobody_waits() || self.all_are_held() && self.holds()
    }

    // Whether nobody has a turn to come.
    fn nobody_waits(&self) -> bool {
        self.cheap.is_empty() && self.dear.is_empty() && self.fresh.is_empty()
    }

    // Whether all that have a turn to come are held.
    fn all_are_held(&self) -> bool {
        self.cheap.is_light_empty() && self.dear.is_light_empty() && self.fresh.is_light_empty()
    }

    // Whether who is held waits on: some node is behind with what was published, or this one with
    // what was published in a turn and is still to be sent.
    fn holds(&self) -> bool {
        self.is_behind && self.debt >= LOOP_BUDGET || self.backend.is_crowded()
    }

    // One turn: what is ready is kept, those for which the hub has something are served, who has a turn to come has it, and then
    // comes a new second.
    fn turn(&mut self, events: &Events, now: u64) {
        if now.saturating_sub(self.now) > SECONDS_HELD_UP {
            self.resumed = now;
        }
        self.now = now;
        self.backend.shared().look();
        let mut count: usize = 0;
        for event in events {
            count = count.saturating_add(1);
            self.notice(event);
        }
        if self.accepts == Accepts::More {
            self.accept_some();
        }
        self.serve_named();
        self.pay();
        self.serve_groups();
        if !self.is_behind {
            self.backend.shared().catch_up();
        }
        if self.ticks.turn_ends(now, count >= MOST_EVENTS) {
            self.on_tick();
        }
    }

    // What comes with each new second: pings, rounds, and at node 0 the broker's time.
    fn on_tick(&mut self) {
        self.look_for_pongs();
        self.backend.hub().tick(self.ticks.done());
        for slot in 0..self.slots.len() {
            if let Some(connection) = self.slots.get_mut(slot) {
                if !connection.refresh(self.ticks.done(), self.stale) {
                    self.end(slot);
                }
            }
        }
        self.backend.tick(self.ticks.done());
        if self.accepts == Accepts::Failed {
            self.accept_some();
        }
        self.serve_named();
    }

    // Looks who answers its pings. Who waits for its turn may have answered.
    fn look_for_pongs(&mut self) {
        for slot in 0..self.slots.len() {
            let waits = self.waits(slot);
            if let Some(Connection::Open(open)) = self.slots.get_mut(slot) {
                open.looks_for_pong(self.ticks.done(), waits);
            }
        }
    }

    // A socket is ready. What is seen of it without reading counts at once: a client that sends nothing
    // more is present nowhere, and where its connection failed while it was held, that is over.
    fn notice(&mut self, event: &Event) {
        let token = event.token();
        if token == LISTENER {
            self.accepts = Accepts::More;
        } else if token != WAKER {
            let readable = event.is_readable();
            let ended = event.is_read_closed() || event.is_error();
            match self.slots.get_mut(token.0) {
                Some(Connection::Head(head)) => head.socket.notice(readable, ended),
                Some(Connection::Open(open)) => {
                    open.notice(readable, ended);
                    if event.is_error() && open.is_held() {
                        return self.end(token.0);
                    }
                }
                Some(Connection::Leaving(leaving)) => {
                    leaving.stream.stream_mut().notice(readable, ended);
                }
                Some(Connection::Empty) | None => return,
            }
            self.owe(token.0);
        }
    }

    // A turn of the connection at a slot is to come.
    fn owe(&mut self, slot: usize) {
        if self.waits(slot) {
            return;
        }
        let (group, is_held) = match self.slots.get_mut(slot) {
            Some(Connection::Open(open)) => open.is_owed(self.ticks.done()),
            _ => (Group::Cheap, false),
        };
        if self.queue_of(group).add(slot, is_held).is_err() {
            self.end(slot);
        }
    }

    // Whether a slot waits for its turn.
    fn waits(&self, slot: usize) -> bool {
        self.cheap.waits(slot) || self.dear.waits(slot) || self.fresh.waits(slot)
    }

    // What a turn cost counts for its connection, and for this turn of the loop: no further turn is
    // given in it behind one that has spent its bounds.
    fn charge(&mut self, slot: usize, cost: u64, is_spent: bool) {
        let others = self.fresh.len() as u64;
        self.cheap.charge(slot, cost, others);
        self.dear.charge(slot, cost, others);
        let spent = if is_spent { LOOP_BUDGET } else { cost };
        self.spent = self.spent.saturating_add(spent);
        self.debt = self.debt.saturating_add(cost);
    }

    // Accepts some of what waits to be.
    fn accept_some(&mut self) {
        for _ in 0..MOST_ACCEPTED {
            self.accepts = match self.acceptor.accept() {
                Ok(stream) => {
                    if !self.put(stream) {
                        self.backend.count(NodeError::Refused);
                    }
                    Accepts::More
                }
                Err(error) => match error.kind() {
                    // It was gone before it was accepted.
                    ErrorKind::ConnectionAborted => Accepts::More,
                    ErrorKind::WouldBlock => Accepts::All,
                    _ => {
                        // One that waits, and is tried again, was counted.
                        if self.accepts != Accepts::Failed {
                            self.backend.count(NodeError::Refused);
                        }
                        Accepts::Failed
                    }
                },
            };
            if self.accepts != Accepts::More {
                return;
            }
        }
    }

    // Gives a new connection its slot. Where that fails, which is answered by `false`, the
    // connection is dropped.
    fn put(&mut self, mut stream: TcpStream) -> bool {
        if self.slots.len().saturating_sub(self.free.len()) >= MOST_SLOTS {
            return false;
        }
        let Ok(slot) = self.empty_slot() else {
            return false;
        };
        let is_registered = self.acceptor.registers(&mut stream, slot);
        match self.slots.get_mut(slot) {
            Some(connection) if is_registered => {
                let head = Connection::Head(Head {
                    socket: Socket::new(self.backend.alloc(), stream),
                    accepted: self.ticks.done(),
                });
                *connection = head;
            }
            _ => {
                let _ = self.free.push(slot);
                return false;
            }
        }
        // Its head may have come, and from then on what its turns cost is counted.
        self.owe(slot);
        true
    }

    // A slot that stands empty: a free one, or one more, with room for the owner of one session
    // more.
    fn empty_slot(&mut self) -> Result<usize, AllocError> {
        if let Some(slot) = self.free.pop() {
            return Ok(slot);
        }
        self.slots.reserve(1)?;
        self.owners.push(0)?;
        let slot = self.slots.len();
        self.slots.push_reserved(Connection::Empty);
        Ok(slot)
    }

    // What is sent is owed no more.
    fn pay(&mut self) {
        self.debt = if self.is_behind {
            self.debt.saturating_sub(LOOP_BUDGET)
        } else {
            0
        };
    }

    // Who has a turn to come has it, group by group. Those who are held have a chance as long as nothing
    // holds them as the turn comes to their group; who fills the links leaves none to those behind.
    fn serve_groups(&mut self) {
        if self.nobody_waits() {
            return;
        }
        self.is_holding = self.holds();
        let mut group = self.rota.first();
        let mut chances: usize = 0;
        for served in 0..GROUPS {
            if chances == served && !self.is_holding {
                chances = chances.saturating_add(1);
            }
            self.serve_group(group);
            group = group.behind();
        }
        self.rota.ends(chances);
    }

    // Who of a group has a turn to come has it, the one that is due first, until these turns cost what
    // one of the loop may; and who got something by it is served. So those whose turns are dear keep
    // nobody else waiting for more than one of theirs, however many they are; and no more do those of
    // whom it isn't known what they cost, who have their turns in the order in which they came.
    fn serve_group(&mut self, group: Group) {
        self.spent = 0;
        for heard in 0..self.queue_of(group).len() {
            let is_light = self.is_holding || self.hears_light(group);
            let Some(slot) = next_of(self.queue_of(group), is_light) else {
                return;
            };
            if self.hears_enough(slot, heard) {
                return;
            }
        }
    }

    // Of those of whom nothing is known, who waits with what may publish comes behind the others.
    fn hears_light(&self, group: Group) -> bool {
        match group {
            Group::Fresh => !self.fresh.is_light_empty(),
            Group::Cheap | Group::Dear => false,
        }
    }

    // Those of a group who have a turn to come.
    fn queue_of(&mut self, group: Group) -> &mut FairQueue {
        match group {
            Group::Cheap => &mut self.cheap,
            Group::Dear => &mut self.dear,
            Group::Fresh => &mut self.fresh,
        }
    }

    // The turn of the connection at a slot, behind so many others. Whether turns have cost what this
    // turn of the loop may.
    fn hears_enough(&mut self, slot: usize, heard: usize) -> bool {
        self.hear(slot);
        if heard % HEARD_AT_ONCE == 0 {
            self.serve_named();
        }
        self.is_holding = self.holds();
        self.spent >= LOOP_BUDGET
    }

    // The turn of the connection at a slot: its head is read on, or its client is heard.
    fn hear(&mut self, slot: usize) {
        if let Some(Connection::Head(head)) = self.slots.get_mut(slot) {
            match head.read_on() {
                HeadStage::Partial => self.charge(slot, CALL, false),
                HeadStage::Whole => self.open(slot),
                HeadStage::Lost => self.end(slot),
            }
        } else {
            self.serve(slot, true);
        }
    }

    // Answers a connection whose head is whole. Where there is no answer it is over.
    fn open(&mut self, slot: usize) {
        let Some(connection) = self.slots.get_mut(slot) else {
            return;
        };
        let head = mem::replace(connection, Connection::Empty);
        let is_well = self.backend.shared().is_well(self.now)
            || self.now.saturating_sub(self.resumed) <= SECONDS_HELD_UP;
        let answered = opened(self.backend, head, is_well, self.now);
        *connection = answered;
        if matches!(connection, Connection::Empty) {
            self.vacate(slot);
        } else {
            self.serve(slot, true);
        }
    }

    // Turns the connection at a slot, where its client is heard or only served, and wakes who brings
    // on what was published in the turn. The slot is its session's from then on. A turn in which it is
    // heard is charged before another is owed.
    fn serve(&mut self, slot: usize, hears: bool) {
        let bars = hears && (self.is_holding || !self.fresh.is_empty());
        let Some(connection) = self.slots.get_mut(slot) else {
            return;
        };
        let mut cost = CALL;
        let mut is_spent = false;
        let turned = match connection {
            Connection::Open(open) => {
                if hears {
                    open.begin_turn(self.ticks.done(), bars);
                }
                let turned = open.turn(&mut self.buffer, self.ticks.done(), hears);
                let told = open.end_turn(&mut self.owners, slot);
                cost = told.0;
                is_spent = told.1;
                turned
            }
            Connection::Leaving(leaving) => leaving.turn(),
            // One whose head has not come whole has nothing to do.
            Connection::Empty | Connection::Head(_) => Turned::Idle,
        };
        if hears {
            self.charge(slot, cost, is_spent);
        }
        match turned {
            Turned::Idle => {}
            Turned::More => self.owe(slot),
            Turned::Leaves => self.see_off(slot),
            Turned::Over => self.end(slot),
        }
    }

    // The last is written to the connection at a slot: its client's session goes, and the socket
    // stays until its client has read that.
    fn see_off(&mut self, slot: usize) {
        let Some(connection) = self.slots.get_mut(slot) else {
            return;
        };
        match mem::replace(connection, Connection::Empty) {
            Connection::Open(open) => {
                let leaving = Box::into_inner(open).see_off(self.now);
                *connection = Connection::Leaving(leaving);
            }
            other => *connection = other,
        }
        self.owe(slot);
    }

    // The connection at a slot is over: its socket is closed, and then its client's session goes.
    fn end(&mut self, slot: usize) {
        let Some(connection) = self.slots.get_mut(slot) else {
            return;
        };
        match mem::replace(connection, Connection::Empty) {
            Connection::Empty => return,
            Connection::Open(open) => Box::into_inner(open).end(),
            Connection::Head(_) | Connection::Leaving(_) => {}
        }
        self.vacate(slot);
    }

    // A slot stands empty again.
    fn vacate(&mut self, slot: usize) {
        self.cheap.remove(slot);
        self.dear.remove(slot);
        self.fresh.remove(slot);
        let _ = self.free.push(slot);
    }

    // Turns those for which the hub has something, some of them, and keeps whether there may be more.
    // What waits for some sessions is taken under one lock of the hub; what a socket has no room for
    // stays there.
    fn serve_named(&mut self) {
        self.is_behind = false;
        if self.batch.reserve(SESSIONS_AT_ONCE).is_err() {
            return;
        }
        for _ in 0..MOST_BATCHES {
            self.backend.hub().give_turns(self);
            if self.batch.is_empty() {
                return;
            }
            self.serve_batch();
        }
        self.is_behind = true;
    }

    // Turns those for which something was taken, and looks whether the session of one whose socket
    // takes nothing was closed.
    fn serve_batch(&mut self) {
        for index in 0..self.batch.len() {
            match self.batch.get(index).copied() {
                Some(named) if named.is_free => self.serve(named.slot, false),
                Some(named) => {
                    if let Some(Connection::Open(open)) = self.slots.get_mut(named.slot) {
                        open.looks_for_end();
                    }
                }
                None => {}
            }
        }
        self.batch.clear();
    }

    // All sessions are closed with 3001, and told so as far as their sockets take it. Who was told has
    // two seconds at most to read that.
    fn shut_down(&mut self, events: &mut Events) {
        self.close_all();
        for _ in 0..MOST_LOOKS {
            let waits = self
                .acceptor
                .wait(events, Duration::from_millis(BETWEEN_LOOKS));
            if waits.is_err() || !self.sees_off_all(events) {
                break;
            }
        }
        for slot in 0..self.slots.len() {
            self.end(slot);
        }
    }

    // Each connection that is let go has a turn, where its socket is ready. Whether some still is.
    fn sees_off_all(&mut self, events: &Events) -> bool {
        for event in events {
            self.notice(event);
        }
        let mut is_some = false;
        for slot in 0..self.slots.len() {
            if let Some(Connection::Leaving(_)) = self.slots.get(slot) {
                self.serve(slot, false);
                is_some = true;
            }
        }
        is_some
    }

    // All sessions are closed with 3001.
    fn close_all(&mut self) {
        for slot in 0..self.slots.len() {
            if let Some(Connection::Open(open)) = self.slots.get_mut(slot) {
                open.close(CloseCode::Shutdown);
            }
            self.serve(slot, false);
        }
    }
}

// At which slot a session's connection is, if it has one.
fn slot_of(owners: &[usize], session: u32) -> usize {
    owners.get(session as usize).copied().unwrap_or(0)
}

impl<'a, B: Backend> Outlets for IoLoop<'a, B> {
    type Of = B::Of;

    // To which slot that is is checked by reading.
    ghost gets = { λ _ _ _ _ _. Unit {0} };

    fn take(&mut self, hub: &mut NodeHub<B::Of>, session: u32) {
        let slot = slot_of(&self.owners, session);
        let Some(Connection::Open(open)) = self.slots.get_mut(slot) else {
            return;
        };
        let is_free = open.take_waiting(hub, session);
        // There is room for it.
        let _ = self.batch.push(Named { slot, is_free });
    }
}

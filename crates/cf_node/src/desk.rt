//! What stands between a wire and its session: texts are heard, and what the hub has for the client
//! is handed out.
ghost use Rattle.std.specs.Prelude.{◌≡◌, ◌≢◌, ◌==◌, Some, [], true, false};
ghost use Rattle.std.specs.VecDeque.{deque_len};
ghost use Rattle.cf_session.specs.SessionMachine.{HearsText};
ghost use Rattle.cf_session.specs.Standing.{is_idle, met_refused_memory, progress_of, tables_of};
ghost use Rattle.cf_session.specs.Played.{AskStreams};
ghost use Rattle.cf_node.specs.Desk.{Grows};
ghost use Rattle.cf_node.specs.Ready.{AskStreams-prop, is_out};

use crate::attached_client::AttachedClient;
use crate::backend::Backend;
use crate::command_handler::CommandHandler;
use cf_dispatch::{Outbox, take_for};
use cf_node_hub::NodeHub;
use cf_queue::Out;
use cf_session::laws::idle_can_go_on;
use cf_session::{Budget, CommandExecutor, Desk, Session, carry_on, hear_text};
use std::marker::PhantomData;
use std::mem;

/// What a turn may carry out of a client's texts, in the units of `cf_session::Budget`.
const UNITS: usize = 96;

/// The same where some node is behind with what was published: one call and its reply.
const FEW_UNITS: usize = 5;

/// The units of one part of that: a call of the node, or a few texts that are only said.
const PART: usize = 4;

/// What a part takes of a turn's units that spends its own: a call, and the text before it.
const PART_COST: usize = 5;

/// So many parts a turn has at most.
const MOST_PARTS: usize = 96;

/// Once so many bytes came up for the client in a turn, no further part is carried out in it.
const MOST_SAID: usize = 65_536;

/// A socket of which so many bytes were heard within a second may have been full, so that what its client sent behind them came
/// to it later.
const FULL_SOCKET: u32 = 16_384;

/// So many times at most what waits in the hub is taken for a part: each takes 65,536 bytes, or all.
const MOST_TAKES: usize = 32;

/// A client's session between two turns.
#[derive(Drop)]
struct Talk<'a, B: Backend> {
    session: Session<'a>,
    of: PhantomData<B>,
    ghost tables: { (tables_of session).namespaces ≡ B.Of.Naming.namespaces },
    ghost between: { is_out (progress_of session) ≡ false },
    ghost asks: { AskStreams (tables_of session).namespaces (progress_of session) } by { AskStreams-prop (tables_of session).namespaces (progress_of session) },
}

impl<'a, B: Backend> Talk<'a, B> {
    ghost use Rattle.cf_node.specs.Desk.{CarriesOn, Hears};

    fn new(backend: &'a B) -> Talk<'a, B> {
        idle_can_go_on();
        Talk {
            session: backend.session(),
            of: PhantomData,
        }
    }

    // Hears a text: what it asks for is on its way then.
    fn hear(&mut self, text: &str)
        requires { is_idle self.old.session ≡ true }
        ensures { met_refused_memory self.new.session ≡ false →
            HearsText (tables_of self.old.session) (progress_of self.old.session) text.now
            (progress_of self.new.session) }
    {
        hear_text(&mut self.session, text);
    }

    // Carries on what is on its way, by one part. What that takes of a turn's units.
    fn go_on(&mut self, handler: &mut CommandHandler<'a, B>) -> usize
        ensures goes { CarriesOn B.Of.Naming.namespaces (λ h. h.client.standing.is_over)
            self.old.session handler.old self.new.session handler.new }
        ensures short { met_refused_memory self.old.session ≡ true →
            met_refused_memory self.new.session ≡ true }
    {
        let mut budget = Budget::new(PART);
        carry_on(&mut self.session, handler, &mut budget);
        if budget.is_spent() { PART_COST } else { 1 }
    }
}

/// The desk of one connection.
#[derive(Drop)]
pub(crate) struct SessionDesk<'a, B: Backend> {
    pub(crate) handler: CommandHandler<'a, B>,
    talk: Talk<'a, B>,
    // What was taken from the hub for the client and isn't sent yet.
    outbox: Outbox,
    // How many units of work are left in this turn.
    left: usize,
    // How many bytes of text were heard since it was last asked.
    heard_bytes: u32,
    /// Something may wait in the hub that was not taken.
    pub(crate) owed: bool,
    // Texts are heard in this turn.
    hears: bool,
    // Something was heard in it, or carried on.
    has_heard: bool,
    // What was heard last was put off.
    has_put_off: bool,
}

impl<'a, B: Backend> Desk for SessionDesk<'a, B> {
    ghost use Rattle.cf_node.specs.Desk.{Grows, Hears, HandsOut, is_ready};

    ghost ready = { λ d.
        is_ready d.hears d.left d.handler.client.standing.is_over d.talk.session };

    ghost hears = { λ old text new.
        Hears B.Of.Naming.namespaces (λ h. h.client.standing.is_over) old.talk.session old.handler
        text new.talk.session new.handler
        × Grows old.outbox.outs.items new.outbox.outs.items };

    ghost gives = { λ old out new.
        HandsOut old.outbox.outs.items old.handler.client.refused out new.outbox.outs.items };

    fn is_ready(&self) -> bool {
        self.hears && self.left != 0 && !self.handler.is_closed() && self.talk.session.is_idle()
    }

    fn heard(&mut self, text: &str) {
        self.has_put_off = self.handler.puts_off(text);
        self.left = self.units_left();
        self.talk.hear(text);
        self.go_on();
        self.owed = true;
        self.has_heard = true;
        let bytes = u32::try_from(text.len()).unwrap_or(u32::MAX);
        self.heard_bytes = self.heard_bytes.saturating_add(bytes);
    }

    fn next(&mut self) -> Option<Out> {
        let out = self.take();
        if let Some(Out::Close(code)) = &out {
            self.handler.sees_close(*code);
        }
        out
    }
}

impl<'a, B: Backend> SessionDesk<'a, B> {
    ghost use Rattle.cf_dispatch.specs.Outlet.{Takes, waits_at};
    ghost use Rattle.cf_node.specs.Desk.{CarriesOn, Grows, HandsOut};

    pub(crate) fn new(backend: &'a B, now: u64) -> SessionDesk<'a, B> {
        let alloc = backend.alloc();
        SessionDesk {
            handler: CommandHandler {
                backend,
                client: AttachedClient::new(alloc, now),
                now,
                heard: now,
                cost: 0,
                expected: 0,
                turns: 0,
                has_published: false,
                is_held: false,
                is_barred: false,
                is_spent: false,
            },
            talk: Talk::new(backend),
            outbox: Outbox::new(alloc),
            left: 0,
            heard_bytes: 0,
            owed: false,
            hears: false,
            has_heard: false,
            has_put_off: false,
        }
    }

    /// A turn begins at this moment, in which texts are heard, or things only sent: in the former
    /// what is on its way goes on.
    pub(crate) fn begin(&mut self, now: u64, hears: bool)
        ensures { Grows self.old.outbox.outs.items self.new.outbox.outs.items }
    {
        self.handler.now = now;
        self.hears = hears;
        self.has_heard = false;
        if !hears {
            return;
        }
        let is_crowded = self.handler.backend.is_crowded();
        self.left = if is_crowded { FEW_UNITS } else { UNITS };
        self.handler.is_held = false;
        // What was taken for the client goes out before.
        if self.talk.session.is_idle() || !self.outbox.is_empty() {
            return;
        }
        self.owed = true;
        self.go_on();
        self.has_heard = true;
    }

    /// Whether nothing that was taken for the client waits to be sent.
    pub(crate) fn is_sent(&self) -> bool
        ensures { result ≡ (deque_len self.now.outbox.outs == 0) }
    {
        self.outbox.is_empty()
    }

    // How many units are left in the turn for what is heard: none for what is put off.
    fn units_left(&self) -> usize {
        if self.has_put_off { 0 } else { self.left }
    }

    /// Whether the client waits until nobody has to who is held: it published while some node was behind, or what it sent was put
    /// off and isn't done.
    pub(crate) fn is_held(&self) -> bool {
        self.handler.is_held || self.puts_off()
    }

    /// Whether what was put off isn't done.
    pub(crate) fn puts_off(&self) -> bool {
        self.has_put_off && !self.talk.session.is_idle()
    }

    /// Whether a turn in which texts were heard left something to do at once.
    pub(crate) fn goes_on(&self) -> bool {
        self.hears && !self.handler.is_closed() && (self.left == 0 || !self.talk.session.is_idle())
    }

    /// Whether a turn in which texts were heard spent the bounds of one, where it left off before all
    /// was heard. One that put a text off didn't.
    pub(crate) fn is_spent(&self, left_off: bool) -> bool {
        let is_put_off = self.handler.is_barred && self.puts_off();
        !is_put_off && (self.goes_on() || left_off && self.has_heard)
    }

    /// Whether so much was heard since this was last asked that something which was sent by now may have had no room in the
    /// socket.
    pub(crate) fn heard_much(&mut self) -> bool {
        mem::replace(&mut self.heard_bytes, 0) >= FULL_SOCKET
    }

    // Carries on what is on its way, part by part, until the turn's units are spent, or much came up
    // for the client. What waits for it is taken over before each part, so that a reply finds its
    // session's queue empty.
    fn go_on(&mut self)
        ensures goes { CarriesOn B.Of.Naming.namespaces (λ h. h.client.standing.is_over)
            self.old.talk.session self.old.handler self.new.talk.session self.new.handler }
        ensures short { met_refused_memory self.old.talk.session ≡ true
            → met_refused_memory self.new.talk.session ≡ true }
        ensures grows { Grows self.old.outbox.outs.items self.new.outbox.outs.items }
    {
        let mut said: usize = 0;
        for part in 0..MOST_PARTS {
            if self.left == 0 || self.handler.is_closed() || self.talk.session.is_idle() {
                return;
            }
            // Right behind what was sent last nothing is known to wait.
            let may_wait = part > 0 || self.owed;
            let came = take_over(&self.handler, &mut self.outbox, may_wait);
            // What waited before the first part isn't what this text brings.
            said = if part == 0 {
                0
            } else {
                said.saturating_add(came)
            };
            if said >= MOST_SAID {
                self.left = 0;
                return;
            }
            let cost = self.talk.go_on(&mut self.handler);
            self.left = self.left.saturating_sub(cost);
        }
    }

    /// The session of this number has its turn in the hub that is lent: if it is the client's own, and its wire is free, what
    /// waits there is taken behind what was taken before. Else nothing is.
    pub(crate) fn take_waiting(&mut self, hub: &mut NodeHub<B::Of>, session: u32, is_free: bool)
        ensures takes { Takes session hub.old.node hub.new.node self.old.outbox.outs.items
            self.new.outbox.outs.items }
        ensures other { self.old.handler.client.standing.number ≢ Some session →
            (hub.new ≡ hub.old) × (self.new.outbox ≡ self.old.outbox) }
        ensures all { self.new.owed ≡ false → waits_at hub.new.node session ≡ [] }
    {
        if !self.handler.client.is_of(session) {
            self.owed = true;
            return;
        }
        let taken = take_for(hub, session, is_free, &mut self.outbox);
        self.owed = taken.leaves_more();
    }

    // What goes out next.
    fn take(&mut self) -> Option<Out>
        ensures hands { HandsOut self.old.outbox.outs.items self.old.handler.client.refused result
            self.new.outbox.outs.items }
    {
        if let Some(out) = self.outbox.next() {
            return Some(out);
        }
        if let Some(code) = self.handler.client.refused.take() {
            return Some(Out::Close(code));
        }
        if self.owed {
            self.owed = self.handler.take(&mut self.outbox);
        }
        if self.outbox.is_empty() {
            // An idle connection keeps room for what comes one by one, so that this takes no memory.
            self.outbox.shrink_to(2);
        }
        self.outbox.next()
    }
}

// Takes what waits in the hub for a client, if something may. How many bytes of text that is.
fn take_over<B: Backend>(
    handler: &CommandHandler<'_, B>,
    outbox: &mut Outbox,
    may_wait: bool,
) -> usize
    ensures { Grows outbox.old.outs.items outbox.new.outs.items }
{
    if !may_wait {
        return 0;
    }
    let known = outbox.items().len();
    for _ in 0..MOST_TAKES {
        if !handler.take(outbox) {
            return bytes_behind(outbox, known);
        }
    }
    bytes_behind(outbox, known)
}

// The bytes of the texts behind the first so many.
fn bytes_behind(outbox: &Outbox, known: usize) -> usize {
    let mut bytes: usize = 0;
    for out in outbox.items().iter().skip(known) {
        if let Out::Text(text) = out {
            bytes = bytes.saturating_add(text.len());
        }
    }
    bytes
}

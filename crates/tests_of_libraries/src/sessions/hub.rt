//! A hub's sessions, and what is said to their clients, as rows of steps and of what comes of them.
//!
//! `attach` gives the number of a session; `begin N C` begins with a channel, `read N C` and `finish N C` go on, and `leave N C`
//! ends it; `on N C` asks whether it is finished. `deliver O` brings publication O of `news`; `check N C O` looks whether a
//! stream that stands at O is followed. `say N TEXT COUNT` says a text so often; `take N` is what the client gets next; `turn` is
//! whose turn it is. `tick T` and `pong N` are done at their moment, and so are `close N` and `detach N`, which answers how many
//! channels went.
use crate::publications::place;
use crate::rows::{Subject, Table, Told, call_of};
use cf_hub::Hub;
use cf_protocol::{Epoch, Publication};
use cf_queue::Out;
use cf_stream::Recovery;
use std::alloc::{AllocError, Global};
use std::process::Abort;

/// A step, `WORD NUMBER NAME SIZE`, of which what isn't needed is left out at the end.
#[derive(Clone, Copy)]
struct Step<'a> {
    word: &'a str,
    number: u32,
    name: &'a str,
    size: u32,
}

/// The number that a word spells, if there is a word.
fn number_in(told: &mut Told, word: &str) -> u32 {
    if word.is_empty() {
        return 0;
    }
    told.number(word)
}

fn step_of<'a>(told: &mut Told, text: &'a str) -> Step<'a> {
    let (word, rest) = call_of(text);
    let (number, rest) = call_of(rest);
    let (name, size) = call_of(rest);
    Step {
        word,
        number: number_in(told, number),
        name,
        size: number_in(told, size),
    }
}

/// What the read of a stream gives that holds nothing.
fn nothing_read(alloc: Global) -> Recovery {
    Recovery {
        position: place(0),
        recovered: false,
        publications: Vec::new(alloc),
    }
}

/// The short name of a text for a client.
fn name_of(text: &str) -> &'static str {
    match text {
        r#"{"id":2,"subscribe":{"epoch":"aaaa","positioned":true,"recoverable":true}}"# => "reply",
        r#"{"push":{"channel":"news","pub":{"data":1,"offset":1}}}"# => "push",
        r#"{"push":{"channel":"news","unsubscribe":{"code":2500,"reason":"insufficient state"}}}"# =>
            { "end" }
        "{}" => "ping",
        _ => "text",
    }
}

/// Tells what a client gets next, and whether its session is closed.
fn tell_taken(told: &mut Told, hub: &mut Hub, session: u32) {
    let is_closed = hub.is_closed(session);
    match hub.take(session) {
        Some(Out::Text(text)) => told.tell(name_of(text.as_str())),
        Some(Out::Close(code)) => told.tell(code),
        None => told.tell("nothing"),
    }
    if is_closed {
        told.tell(" closed");
    }
}

/// A client of ann comes.
fn attach(told: &mut Told, hub: &mut Hub, alloc: Global) {
    match String::from_str(alloc, "ann") {
        Ok(user) => told.answer(hub.attach(user, 0)),
        Err(_) => told.lack(),
    }
}

/// A publication of nobody comes to `news`.
fn deliver(told: &mut Told, hub: &mut Hub, alloc: Global, offset: u64) {
    let Ok(body) = String::from_str(alloc, "1") else {
        return told.lack();
    };
    let publication = Publication {
        offset,
        body,
        info: None,
    };
    let came = hub.deliver("news", &Epoch::from_text("aaaa"), &publication);
    told.tell(format_args!("{came:?}"));
}

/// A session is said its step's name so often.
fn say(told: &mut Told, hub: &mut Hub, alloc: Global, step: Step<'_>) {
    match step.name.repeat(alloc, step.size as usize) {
        Ok(text) => told.tell(format_args!("{:?}", hub.say(step.number, text))),
        Err(_) => told.lack(),
    }
}

/// Tells what a step on a session's channel answers.
fn tell_called(told: &mut Told, hub: &mut Hub, alloc: Global, step: Step<'_>) {
    match step.word {
        "begin" => match hub.begin(step.number, step.name, 2, None) {
            Ok(()) => told.tell("begun"),
            Err(refusal) => told.tell(refusal),
        },
        "read" => told.is_so(hub.read_done(step.number, step.name, nothing_read(alloc))),
        "finish" => told.is_so(hub.finish(step.number, step.name)),
        "leave" => told.is_so(hub.leave(step.number, step.name)),
        "on" => told.is_so(hub.is_subscribed(step.number, step.name)),
        "check" => {
            let top = Some(place(u64::from(step.size)));
            told.tell(format_args!("{:?}", hub.check(step.number, step.name, top)));
        }
        _ => told.tell("no step"),
    }
}

/// Does a step that answers nothing.
fn tell_done(told: &mut Told, hub: &mut Hub, step: Step<'_>) {
    match step.word {
        "close" => hub.close(step.number, 3001),
        "pong" => hub.pong(step.number),
        _ => hub.tick(u64::from(step.number)),
    }
    told.tell("done");
}

/// Tells what comes of a step.
fn tell_outcome(told: &mut Told, hub: &mut Hub, alloc: Global, step: Step<'_>) {
    match step.word {
        "attach" => attach(told, hub, alloc),
        "deliver" => deliver(told, hub, alloc, u64::from(step.number)),
        "say" => say(told, hub, alloc, step),
        "take" => tell_taken(told, hub, step.number),
        "detach" => told.tell(hub.detach(step.number)),
        "turn" => told.tell(format_args!("{:?}", hub.next_with_output())),
        "close" | "pong" | "tick" => tell_done(told, hub, step),
        _ => tell_called(told, hub, alloc, step),
    }
}

/// What comes of steps that are separated by `; `, with `short` behind the first that memory is refused to.
fn outcomes(hub: &mut Hub, alloc: Global, steps: &str) -> Told {
    let mut told = Told::new(alloc);
    for text in steps.split("; ") {
        told.part("; ");
        let was_short = hub.short();
        let step = step_of(&mut told, text);
        tell_outcome(&mut told, hub, alloc, step);
        if hub.short() && !was_short {
            told.tell(" short");
        }
    }
    told
}

impl Subject for Hub {
    fn play(&mut self, alloc: Global, done: &str, told: &mut Told) {
        *told = outcomes(self, alloc, done);
    }
}

/// A hub with nobody on it. It lies in a box, since a function that lends a hub of its own is costly to prove.
fn empty_hub(alloc: Global) -> Result<Box<Hub>, AllocError> {
    Ok(Box::new(alloc, Hub::new(alloc, 0, 1))?)
}

/// The rows of a part are played on a hub with nobody on it.
fn play(rt: &impl Abort, alloc: Global, table: &mut Table<'_>, part: &str) {
    let mut hub = empty_hub(alloc).expect(rt, "memory");
    table.play(&mut *hub, part);
    table.part_ends();
}

/// Each part by a hub of its own.
const PARTS: &str = "\
# hub_refusals, the third where session 0 has begun with 128 channels
begin 0 news => there is no such session
attach => 0
read 0 news; finish 0 news; leave 0 news => no; no; no
*127*begin 0 c#; *begin 0 c5 => *127*begun; *begun
begin 0 c5 => the session follows the channel already
begin 0 news => the node or the session has as many as it may have
leave 0 c1007; begin 0 news => yes; begun
close 0; begin 0 chat => done; there is no such session
take 0 => 3001 closed

# hub_pings: session 0 answers its ping at 30, and session 1 doesn't
attach; attach => 0; 1
tick 24; take 0; take 1 => done; nothing; nothing
tick 25; take 0; take 1 => done; ping; ping
tick 30; pong 0; take 0; take 1 => done; done; nothing; nothing
tick 32; take 0; take 1 => done; nothing; nothing
tick 33; take 0; take 1 => done; nothing; 3012 closed
tick 49; take 0; take 1 => done; nothing; nothing closed
tick 50; take 0; take 1 => done; ping; nothing closed

# reply_before_push, in whatever order a publication, the read and the finish come, also where the publication comes twice
attach; begin 0 news; deliver 1; read 0 news; finish 0 news => 0; begun; Delivered { passed: 0, kept: 1, dropped: 0, ended: 0, closed: 0 }; yes; yes
on 0 news; take 0; take 0; take 0; detach 0 => yes; reply; push; nothing; 1
attach; begin 0 news; read 0 news; deliver 1; finish 0 news => 0; begun; yes; Delivered { passed: 0, kept: 1, dropped: 0, ended: 0, closed: 0 }; yes
on 0 news; take 0; take 0; take 0; detach 0 => yes; reply; push; nothing; 1
attach; begin 0 news; read 0 news; finish 0 news; deliver 1 => 0; begun; yes; yes; Delivered { passed: 1, kept: 0, dropped: 0, ended: 0, closed: 0 }
on 0 news; take 0; take 0; take 0; detach 0 => yes; reply; push; nothing; 1
attach; begin 0 news; deliver 1; deliver 1 => 0; begun; Delivered { passed: 0, kept: 1, dropped: 0, ended: 0, closed: 0 }; Delivered { passed: 0, kept: 1, dropped: 0, ended: 0, closed: 0 }
read 0 news; finish 0 news => yes; yes
on 0 news; take 0; take 0; take 0; detach 0 => yes; reply; push; nothing; 1
attach; begin 0 news; read 0 news; finish 0 news => 0; begun; yes; yes
deliver 1; deliver 1 => Delivered { passed: 1, kept: 0, dropped: 0, ended: 0, closed: 0 }; Delivered { passed: 0, kept: 0, dropped: 1, ended: 0, closed: 0 }
on 0 news; take 0; take 0; take 0; detach 0 => yes; reply; push; nothing; 1

# gaps_and_checks: a check that finds a subscription behind twice ends it, and so does a delivery that comes behind a gap
attach; begin 0 news; read 0 news; finish 0 news; take 0 => 0; begun; yes; yes; reply
attach; begin 1 news; read 1 news; finish 1 news; take 1 => 1; begun; yes; yes; reply
check 1 chat 1 => Nothing
check 1 news 1; check 1 news 0; check 1 news 1; check 1 news 1; take 1 => Behind; Fine; Behind; Ended; end
deliver 2; take 0 => Delivered { passed: 0, kept: 0, dropped: 0, ended: 1, closed: 0 }; end
deliver 3 => Delivered { passed: 0, kept: 0, dropped: 0, ended: 0, closed: 0 }

# as much waits for session 0 as may
attach; begin 0 news; read 0 news; finish 0 news; take 0 => 0; begun; yes; yes; reply
attach; begin 1 news; read 1 news; finish 1 news; take 1 => 1; begun; yes; yes; reply
say 0 x 1048576; deliver 1 => Kept; Delivered { passed: 1, kept: 0, dropped: 0, ended: 0, closed: 1 }
say 0 x 1; take 0; take 0 => Closed; text closed; 3008 closed
take 1; say 9 x 1 => push; Gone

# a number is given again, and each session that a delivery met gets its turn, in order of their subscribing
attach; begin 0 news; read 0 news; finish 0 news; take 0 => 0; begun; yes; yes; reply
attach; begin 1 news; read 1 news; finish 1 news; take 1 => 1; begun; yes; yes; reply
attach; begin 2 news; read 2 news; finish 2 news; take 2 => 2; begun; yes; yes; reply
detach 1; take 1 => 1; nothing closed
attach; begin 1 news; read 1 news; finish 1 news; take 1 => 1; begun; yes; yes; reply
turn => None
deliver 1; turn; turn; turn; turn => Delivered { passed: 3, kept: 0, dropped: 0, ended: 0, closed: 0 }; Some(0); Some(2); Some(1); None";

#[test]
fn steps(rt: HostRuntime) {
    let mut table = Table::new(rt.alloc(), "sessions/hub");
    for part in PARTS.split("\n\n") {
        play(&rt, rt.alloc(), &mut table, part);
    }
    table.ends(&rt);
}

/// After the steps of the first row, which come to what it says if there is memory for each, one of the others comes of the
/// steps behind them. If the test itself is refused memory, nothing is looked at.
fn comes_one_of(
    alloc: Global,
    table: &mut Table<'_>,
    first: (&str, &str),
    steps: &str,
    allowed: &str,
) {
    let (before, wanted) = first;
    if !table.has_row(before) {
        return;
    }
    let Ok(mut hub) = empty_hub(alloc) else {
        return;
    };
    let first = outcomes(&mut hub, alloc, before);
    let Some(told) = first.text() else {
        return;
    };
    if hub.short() {
        return;
    }
    if told != wanted {
        table.differs(wanted, told);
    }
    let second = outcomes(&mut hub, alloc, steps);
    let Some(told) = second.text() else {
        return;
    };
    if table.has_row(steps) && !allowed.split('\n').any(|line| line == told) {
        table.differs(allowed, told);
    }
}

const THREE_FOLLOW: (&str, &str) = (
    "attach; begin 0 news; read 0 news; finish 0 news; take 0; \
attach; begin 1 news; read 1 news; finish 1 news; take 1; \
attach; begin 2 news; read 2 news; finish 2 news; take 2",
    "0; begun; yes; yes; reply; 1; begun; yes; yes; reply; 2; begun; yes; yes; reply",
);

/// If memory is refused, one of them is closed; or none, if it was for the one text of all, which each then writes for itself.
const ALL_BUT_ONE: &str = "\
Delivered { passed: 3, kept: 0, dropped: 0, ended: 0, closed: 0 }; push; push; push
Delivered { passed: 3, kept: 0, dropped: 0, ended: 0, closed: 0 } short; push; push; push
Delivered { passed: 2, kept: 0, dropped: 0, ended: 0, closed: 1 } short; 3004 closed; push; push
Delivered { passed: 2, kept: 0, dropped: 0, ended: 0, closed: 1 } short; push; 3004 closed; push
Delivered { passed: 2, kept: 0, dropped: 0, ended: 0, closed: 1 } short; push; push; 3004 closed";

// By `.ci/hub-refused` also with each request for memory refused in turn.
#[test]
fn deliver_refused(rt: HostRuntime) {
    let steps = "deliver 1; take 0; take 1; take 2";
    let mut table = Table::new(rt.alloc(), "sessions/hub deliver_refused");
    comes_one_of(rt.alloc(), &mut table, THREE_FOLLOW, steps, ALL_BUT_ONE);
    table.ends(&rt);
}

const ONE_ASKS: (&str, &str) = (
    "attach; begin 0 news; read 0 news; finish 0 news; take 0; attach; begin 1 news",
    "0; begun; yes; yes; reply; 1; begun",
);

/// What was kept comes behind the reply; or an end, if memory was refused for it. If it is refused for the reply or for what
/// comes behind it, what was said before goes out, and the close.
const KEPT_OR_ENDED: &str = "\
Delivered { passed: 1, kept: 1, dropped: 0, ended: 0, closed: 0 }; yes; yes; reply; push; nothing
Delivered { passed: 1, kept: 1, dropped: 0, ended: 0, closed: 0 } short; yes; yes; reply; push; nothing
Delivered { passed: 1, kept: 1, dropped: 0, ended: 0, closed: 0 } short; yes; yes; reply; end; nothing
Delivered { passed: 0, kept: 1, dropped: 0, ended: 0, closed: 1 } short; yes; yes; reply; push; nothing
Delivered { passed: 1, kept: 1, dropped: 0, ended: 0, closed: 0 }; yes; yes short; 3004 closed; nothing closed; nothing closed
Delivered { passed: 1, kept: 1, dropped: 0, ended: 0, closed: 0 }; yes; yes short; reply closed; 3004 closed; nothing closed";

// By `.ci/hub-refused` also with each request for memory refused in turn.
#[test]
fn overflow_refused(rt: HostRuntime) {
    let steps = "deliver 1; read 1 news; finish 1 news; take 1; take 1; take 1";
    let mut table = Table::new(rt.alloc(), "sessions/hub overflow_refused");
    comes_one_of(rt.alloc(), &mut table, ONE_ASKS, steps, KEPT_OR_ENDED);
    table.ends(&rt);
}

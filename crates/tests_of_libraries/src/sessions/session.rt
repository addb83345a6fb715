//! What sessions say and ask for, against a node that refuses nothing but a publish to `full`, whose stream is at its last
//! offset, and the read of `spent`, for which there is no epoch.
ghost use Rattle.std.specs.Prelude.{◌≡◌, IfSome};
ghost use Rattle.cf_session.specs.Shown.{answer_kind};

use crate::rows::{Subject, Table, Told};
use cf_protocol::{ErrorCode, Namespaces, Tokens, close_reason, read_namespaces, read_tokens};
use cf_session::{Action, Answer, CommandKind, Publish, Session, stream_error};
use cf_stream::StreamRefusal;
use std::alloc::Global;
use std::process::Abort;

/// What the streams answer to a call on this channel.
fn or_refused(channel: &str) -> Result<(), ErrorCode> {
    match channel {
        "full" => Err(stream_error(&StreamRefusal::AtLastOffset)),
        "spent" => Err(stream_error(&StreamRefusal::NoEpoch)),
        _ => Ok(()),
    }
}

/// What a call of this kind, on this channel, is answered; of who is there nothing is asked.
fn answer_to(alloc: Global, kind: CommandKind, channel: &str) -> Option<Answer>
    ensures { IfSome result (λ a. answer_kind a ≡ kind) }
{
    Some(match kind {
        CommandKind::Attach => Answer::Attach(Ok(String::from_str(alloc, "0-1-1").ok()?)),
        CommandKind::Begin => Answer::Begin(Ok(())),
        CommandKind::Read => Answer::Read(or_refused(channel)),
        CommandKind::Finish => Answer::Finish,
        CommandKind::Leave => Answer::Leave,
        CommandKind::Publish => Answer::Publish(or_refused(channel)),
        CommandKind::History => Answer::History(or_refused(channel)),
        _ => return None,
    })
}

/// The channel of a call to the streams.
fn channel_of(action: &Action) -> &str {
    match action {
        Action::Read { channel, .. } => channel.as_str(),
        Action::Publish(publish) => publish.channel.as_str(),
        Action::History { channel, .. } => channel.as_str(),
        _ => "",
    }
}

/// Answers the call that is out, which is on this channel, if there is memory for the answer.
fn answer(told: &mut Told, alloc: Global, session: &mut Session<'_>, channel: &str) {
    if let Some(kind) = session.awaited() {
        match answer_to(alloc, kind, channel) {
            Some(answer) => session.answered(answer),
            None => told.lack(),
        }
    }
}

/// Tells an action in words.
fn tell(told: &mut Told, action: &Action) {
    match action {
        Action::Attach { user } => told.tell(format_args!("attach {user}")),
        Action::Begin { id, .. } => told.tell(format_args!("begin {id}")),
        Action::Read {
            since: Some(since),
            ..
        } => told.tell(format_args!("read {} {}", since.epoch, since.offset)),
        Action::Read { .. } => told.tell("read"),
        Action::Finish { .. } => told.tell("finish"),
        Action::Leave { .. } => told.tell("leave"),
        Action::Publish(
            Publish {
                key,
                body,
                info,
                ..
            },
        ) if key.is_empty() => told.tell(format_args!("publish {body} {}", info.client)),
        Action::Publish(
            Publish {
                key,
                body,
                info,
                ..
            },
        ) => told.tell(format_args!("publish {key}: {body} {}", info.client)),
        Action::History { id, limit, .. } => told.tell(format_args!("history {id} {limit}")),
        Action::Say(text) => told.tell(text),
        Action::Pong => told.tell("pong"),
        Action::Close(code) => {
            let number = code.code();
            told.tell(format_args!("close {number} {}", close_reason(number)));
        }
        _ => told.tell("presence"),
    }
}

/// Tells what the session does next, behind ` / `, and answers it. Whether it does anything.
fn step(told: &mut Told, alloc: Global, session: &mut Session<'_>) -> bool {
    let Some(action) = session.next_action() else {
        return false;
    };
    told.part(" / ");
    tell(told, &action);
    answer(told, alloc, session, channel_of(&action));
    true
}

/// Serves a text, and tells what the session does, up to 100,000 times.
fn serve(alloc: Global, session: &mut Session<'_>, text: &str) -> Told {
    let mut told = Told::new(alloc);
    if session.is_idle() {
        session.on_text(text);
    }
    for _ in 0..100_000 {
        if !step(&mut told, alloc, session) {
            break;
        }
    }
    told
}

/// Serves a text; the session is idle then, and has met no refused request for memory.
impl Subject for Session<'_> {
    fn play(&mut self, alloc: Global, done: &str, told: &mut Told) {
        *told = serve(alloc, self, done);
        if !self.is_idle() {
            told.tell(" and isn't idle");
        }
        if self.short() {
            told.tell(" and is short of memory");
        }
    }
}

/// What a session says to a text behind a call of its.
pub(super) fn said_to(alloc: Global, session: &mut Session<'_>, text: &str) -> Option<String> {
    let told = serve(alloc, session, text);
    let (_, said) = told.text()?.split_once(" / ")?;
    String::from_str(alloc, said).ok()
}

pub(super) fn tables(alloc: Global, tokens: &str) -> Option<(Namespaces, Tokens)> {
    let namespaces = read_namespaces(alloc, "=100,300,phs;bare=1,1,").ok()?;
    let tokens = read_tokens(alloc, tokens).ok()?;
    Some((namespaces, tokens))
}

/// The rows of a part are played on a session with the tokens of its title.
fn talk_of(rt: &impl Abort, alloc: Global, table: &mut Table<'_>, part: &str) {
    let (title, _) = part.split_once('\n').unwrap_or((part, ""));
    let (_, tokens) = title.split_once(": ").unwrap_or((title, ""));
    let (namespaces, tokens) = tables(alloc, tokens).expect(rt, "tables");
    let mut session = Session::new(alloc, &namespaces, &tokens);
    table.play(&mut session, part);
    table.part_ends();
}

/// Each part is played by a session of its own, whose tokens stand behind the colon of its title.
const TALKS: &str = r#"# each_command
{"id":1,"connect":{}} => attach  / {"connect":{"client":"0-1-1","ping":25,"pong":true,"version":"1.0.0"},"id":1}
{"id":2,"subscribe":{"channel":"news"}} => begin 2 / read / finish
{"id":2,"subscribe":{"channel":"a","recover":true,"epoch":"zz","offset":7}} => begin 2 / read zz 7 / finish
{"id":3,"publish":{"channel":"news","data":{ "t" : 1.50 }}} => publish {"t":1.50} 0-1-1 / {"id":3,"publish":{}}
{"id":4,"history":{"channel":"news","limit":-1}} => history 4 -1
{"id":5,"history":{"channel":"spent","limit":-1}} => history 5 -1 / {"error":{"code":100,"message":"internal server error","temporary":true},"id":5}

# keys_of_publishes, which are looked at with the data, behind the channel's name and before the namespace
{"id":1,"connect":{}} => attach  / {"connect":{"client":"0-1-1","ping":25,"pong":true,"version":"1.0.0"},"id":1}
{"id":3,"publish":{"channel":"news","data":1,"key":"k"}} => publish k: 1 0-1-1 / {"id":3,"publish":{}}
{"id":3,"publish":{"channel":"news","data":1,"key":null}} => publish 1 0-1-1 / {"id":3,"publish":{}}
{"id":3,"publish":{"channel":"news","data":1,"key":""}} => publish 1 0-1-1 / {"id":3,"publish":{}}
{"id":3,"publish":{"key":"k","channel":"news","data":1,"key":"l"}} => publish l: 1 0-1-1 / {"id":3,"publish":{}}
{"id":3,"publish":{"channel":"a","data":1,"key":"*64*k*"}} => publish *64*k*: 1 0-1-1 / {"id":3,"publish":{}}
{"id":3,"publish":{"channel":"chat:x","data":1,"key":"*64*k*"}} => {"error":{"code":102,"message":"unknown channel"},"id":3}
{"id":3,"publish":{"channel":"bare:a","data":1,"key":"*64*k*"}} => {"error":{"code":103,"message":"permission denied"},"id":3}
{"id":3,"publish":{"channel":"a","data":1,"key":"*65*k*"}} => {"error":{"code":107,"message":"bad request"},"id":3}
{"id":3,"publish":{"channel":"a","data":1,"key":"*33*é*"}} => {"error":{"code":107,"message":"bad request"},"id":3}
{"id":3,"publish":{"channel":"","data":1,"key":"*65*k*"}} => {"error":{"code":107,"message":"bad request"},"id":3}
{"id":3,"publish":{"channel":"a","key":"*65*k*"}} => {"error":{"code":107,"message":"bad request"},"id":3}
{"id":3,"publish":{"channel":"chat:x","data":1,"key":"*65*k*"}} => {"error":{"code":107,"message":"bad request"},"id":3}
{"id":3,"publish":{"channel":"bare:a","data":1,"key":"*65*k*"}} => {"error":{"code":107,"message":"bad request"},"id":3}
{"id":3,"publish":{"channel":"a","data":1,"key":1}} => close 3501 bad request

# what isn't answered, and a second connect
{"id":1,"connect":{}} => attach  / {"connect":{"client":"0-1-1","ping":25,"pong":true,"version":"1.0.0"},"id":1}
{} => pong
{"send":{"data":1}} => nothing
{"id":8,"ping":{}} {} => {"id":8,"ping":{}} / pong
{"id":9,"unsubscribe":{"channel":"news"}} => leave / {"id":9,"unsubscribe":{}}
{"id":8,"unsubscribe":{"channel":"chat:x"}} => leave / {"id":8,"unsubscribe":{}}
{"id":1,"connect":{}} => close 3501 bad request
{"id":2,"ping":{}} => nothing

# what the session refuses
{"id":1,"connect":{}} => attach  / {"connect":{"client":"0-1-1","ping":25,"pong":true,"version":"1.0.0"},"id":1}
{"id":2,"publish":{"channel":"","data":1}} => {"error":{"code":107,"message":"bad request"},"id":2}
{"id":2,"publish":{"channel":"bare:a"}} => {"error":{"code":107,"message":"bad request"},"id":2}
{"id":3,"subscribe":{"channel":"chat:x"}} => {"error":{"code":102,"message":"unknown channel"},"id":3}
{"id":3,"publish":{"channel":"bare:a","data":null}} => {"error":{"code":103,"message":"permission denied"},"id":3}
{"id":3,"history":{"channel":"bare:a","reverse":true}} => {"error":{"code":103,"message":"permission denied"},"id":3}
{"id":3,"history":{"channel":"a","reverse":true}} => {"error":{"code":108,"message":"not available"},"id":3}
{"id":3,"presence":{"channel":"bare:a"}} => {"error":{"code":108,"message":"not available"},"id":3}
{"id":4,"rpc":{}} => {"error":{"code":108,"message":"not available"},"id":4}

# data_depth, which is of so many brackets, one in another
{"id":1,"connect":{}} => attach  / {"connect":{"client":"0-1-1","ping":25,"pong":true,"version":"1.0.0"},"id":1}
{"id":2,"publish":{"channel":"a","data":*60*[**60*]*}} => publish *60*[**60*]* 0-1-1 / {"id":2,"publish":{}}
{"id":2,"publish":{"channel":"a","data":*61*[**61*]*}} => {"error":{"code":107,"message":"bad request"},"id":2}
{"id":2,"publish":{"channel":"a","data":*62*[**62*]*}} => {"error":{"code":107,"message":"bad request"},"id":2}
{"id":2,"publish":{"channel":"a","data":*63*[**63*]*}} => close 3501 bad request

# names of 255 and 256 bytes, and a frame of 65,536 bytes, and one byte more, which closes
{"id":1,"connect":{}} => attach  / {"connect":{"client":"0-1-1","ping":25,"pong":true,"version":"1.0.0"},"id":1}
{"id":2,"publish":{"channel":"*255*x*","data":1}} => publish 1 0-1-1 / {"id":2,"publish":{}}
{"id":2,"publish":{"channel":"*256*x*","data":1}} => {"error":{"code":107,"message":"bad request"},"id":2}
*32768*{}* => *32767*pong / *pong
*32768*{}*  => close 3501 bad request

# a token that is not known
{"id":1,"connect":{"token":"t9"}} => close 3500 invalid token

# a subscribe that comes first
{"id":1,"subscribe":{"channel":"a"}} => close 3501 bad request

# an id of 0
{"id":0,"connect":{}} => close 3501 bad request

# half a command
{"id":1, => close 3501 bad request

# an empty text
 => close 3501 bad request

# a pong that comes first
{} => close 3501 bad request

# a token that is known: t9=ann
{"id":1,"connect":{"token":"t9"}} => attach ann / {"connect":{"client":"0-1-1","ping":25,"pong":true,"version":"1.0.0"},"id":1}

# last_offset_answered, of a stream that is at its last offset; and one that can't be opened
{"id":1,"connect":{}} => attach  / {"connect":{"client":"0-1-1","ping":25,"pong":true,"version":"1.0.0"},"id":1}
{"id":2,"publish":{"channel":"full","data":1}} => publish 1 0-1-1 / {"error":{"code":106,"message":"limit exceeded"},"id":2}
{"id":8,"subscribe":{"channel":"spent"}} => begin 8 / read / leave / {"error":{"code":100,"message":"internal server error","temporary":true},"id":8}

# several commands of usual clients in a frame, with members that are passed over
{"id":1,"connect":{"name":"js","version":"5","data":{}}}␊{"id":2,"subscribe":{"channel":""}}␊{"id":4,"ping":7}{}{"send":[]}␊{"id":6,"connect":{}}␊{"id":7,"ping":{}} => attach  / {"connect":{"client":"0-1-1","ping":25,"pong":true,"version":"1.0.0"},"id":1} / {"error":{"code":107,"message":"bad request"},"id":2} / {"id":4,"ping":{}} / pong / close 3501 bad request"#;

#[test]
fn talk(rt: HostRuntime) {
    let mut table = Table::new(rt.alloc(), "sessions/session");
    for part in TALKS.split("\n\n") {
        talk_of(&rt, rt.alloc(), &mut table, part);
    }
    table.ends(&rt);
}

/// Behind what a text does otherwise stands what it may do when memory is refused: a connect closes, the other commands are
/// answered 100, at once or after the call, and each text may close as it is read. A subscribe asks for nothing then, and the
/// reply to a history is its node's.
const OR_GIVEN_UP: &str =
    r#"{"id":1,"connect":{}} => attach  / {"connect":{"client":"0-1-1","ping":25,"pong":true,"version":"1.0.0"},"id":1} | close 3004 internal server error | attach  / close 3004 internal server error
{"id":2,"subscribe":{"channel":"news"}} => begin 2 / read / finish | close 3004 internal server error | {"error":{"code":100,"message":"internal server error","temporary":true},"id":2}
{"id":2,"publish":{"channel":"news","data":1,"key":"k"}} => publish k: 1 0-1-1 / {"id":2,"publish":{}} | close 3004 internal server error | {"error":{"code":100,"message":"internal server error","temporary":true},"id":2} | publish k: 1 0-1-1 / {"error":{"code":100,"message":"internal server error","temporary":true},"id":2}
{"id":2,"history":{"channel":"news","limit":-1}} => history 2 -1 | close 3004 internal server error"#;

/// Whether this is the first of these, or any of the others if memory was refused.
fn is_one_of(done: &str, allowed: &str, was_refused: bool) -> bool {
    match allowed.split_once(" | ") {
        Some((_, others)) if was_refused => others.split(" | ").any(|other| other == done),
        Some((first, _)) => done == first,
        None => false,
    }
}

/// A session does what the row says, or gives its command up if memory is refused to it, and then is idle. Whether it goes on:
/// not if it is closed, or there was no memory to answer its call or to tell what it did.
fn goes_on(alloc: Global, session: &mut Session<'_>, table: &mut Table<'_>, row: &str) -> bool {
    let (text, allowed) = row.split_once(" => ").unwrap_or((row, "no arrow"));
    let was_short = session.short();
    let told = serve(alloc, session, text);
    let Some(done) = told.text() else {
        return false;
    };
    if !session.is_idle() {
        table.differs("an idle session", done);
    }
    if !is_one_of(done, allowed, session.short() && !was_short) {
        table.differs(allowed, done);
    }
    !done.contains("close")
}

/// A session goes on with the rows as long as it can.
fn go_on(alloc: Global, session: &mut Session<'_>, table: &mut Table<'_>, rows: &str) {
    for row in rows.split('\n') {
        if table.has_row(row) && !goes_on(alloc, session, table, row) {
            return;
        }
    }
}

// By `.ci/hub-refused` also with each request for memory refused in turn.
#[test]
fn session_refused(rt: HostRuntime) {
    if let Some((namespaces, tokens)) = tables(rt.alloc(), "") {
        let mut session = Session::new(rt.alloc(), &namespaces, &tokens);
        let mut table = Table::new(rt.alloc(), "sessions/session refused");
        go_on(rt.alloc(), &mut session, &mut table, OR_GIVEN_UP);
        table.ends(&rt);
    }
}

//! A call of the broker in words, and what comes of it.
ghost use Rattle.std.specs.Prelude.{◌≡◌, IsSome};
ghost use Rattle.cf_protocol.specs.Settings.{settings_of};
ghost use Rattle.cf_broker.specs.Shards.{number_of};

use super::stage::{Caller, Stage};
use crate::publications::{ann, place};
use crate::rows::{Told, call_of};
use cf_broker::shard_of;
use cf_order::Pass;
use cf_presence::Stats;
use cf_protocol::{Info, Position, Publication, namespace_of};
use cf_shard::{Delivery, Naming, ReadAnswer, Refused};
use cf_stream::{History, Published};
use std::collections::BTreeMap;
use std::process::Abort;
use std::sync::Wait;

/// Tells the position of a publication, behind `again` if it is repeated.
fn tell_published(told: &mut Told, answer: Result<Published, Refused>) {
    let Ok(Published { position, repeated }) = answer else {
        return told.tell("refused");
    };
    let again = if repeated { "again " } else { "" };
    let Position { epoch, offset } = position;
    told.tell(format_args!("{again}{epoch} {offset}"));
}

/// Tells how many publications there are, and the last one.
fn tell_publications(told: &mut Told, publications: &[Publication]) {
    told.tell(publications.len());
    if let Some(last) = publications.last() {
        let (offset, body) = (last.offset, last.body.as_str());
        told.tell(format_args!(", the last {offset} {body}"));
    }
}

/// Tells what is recovered, behind how long the shard's log is.
fn tell_recovered(told: &mut Told, answer: Result<ReadAnswer, Refused>) {
    match answer {
        Ok(ReadAnswer { recovery, mark }) if recovery.recovered => {
            told.tell(format_args!("log {mark}, recovered "));
            tell_publications(told, recovery.publications.as_slice());
        }
        Ok(_) => told.tell("not recovered"),
        Err(_) => told.tell("refused"),
    }
}

/// Tells the publications of a history.
fn tell_listed(told: &mut Told, answer: Result<History, Refused>) {
    match answer {
        Ok(history) => tell_publications(told, history.publications.as_slice()),
        Err(_) => told.tell("refused"),
    }
}

/// Tells where a stream stands, and how long its shard's log is.
fn tell_standing(told: &mut Told, (at, mark): (Option<Position>, u64)) {
    match at {
        Some(Position { offset, .. }) => told.tell(format_args!("{offset}, {mark}")),
        None => told.tell("none"),
    }
}

/// `publish C BODY KEY` by no client, and `put C BODY KEY` by one of ann, with or without a key.
fn publish<N: Naming, R: Wait + Abort>(
    rt: &R,
    stage: &Stage<'_, '_, N>,
    pass: &mut Pass,
    name: &str,
    channel: &str,
    with: &str,
    now: u64,
) -> Result<Published, Refused>
    requires pass { pass.old.word ≡ N.words (number_of channel.now) }
    requires set_up { IsSome (settings_of N.namespaces channel.now) }
    ensures { pass.new.word ≡ pass.old.word }
{
    let (body, key) = call_of(with);
    let body = String::from_str(stage.alloc, body).expect(rt, "memory");
    let key = String::from_str(stage.alloc, key).expect(rt, "memory");
    let info = if name == "put" {
        ann(stage.alloc)
    } else {
        None
    };
    stage
        .broker
        .publish(rt, pass, channel, body, key, info, now)
}

/// `read C OFFSET`, or from the newest on; `position C`; or `history C`.
fn look<N: Naming, R: Wait>(
    rt: &R,
    stage: &Stage<'_, '_, N>,
    pass: &mut Pass,
    name: &str,
    channel: &str,
    with: &str,
    told: &mut Told,
    now: u64,
)
    requires pass { pass.old.word ≡ N.words (number_of channel.now) }
    requires set_up { IsSome (settings_of N.namespaces channel.now) }
    ensures { pass.new.word ≡ pass.old.word }
{
    let broker = stage.broker;
    match (name, with.parse::<u64>()) {
        ("position", _) => tell_standing(told, broker.position(rt, pass, channel)),
        ("history", _) => tell_listed(told, broker.history(rt, pass, channel, None, -1, now)),
        (_, Ok(offset)) => {
            let since = Some(place(offset));
            tell_recovered(told, broker.read(rt, pass, channel, since, now));
        }
        _ => tell_recovered(told, broker.read(rt, pass, channel, None, now)),
    }
}

/// What is answered without waiting, so that nothing here could: `look C` is how long the shard's log is found to be, and
/// `quiet C MARK` whether it is as long as that still.
fn no_wait<N: Naming>(
    stage: &Stage<'_, '_, N>,
    pass: &mut Pass,
    name: &str,
    channel: &str,
    with: &str,
    told: &mut Told,
)
    requires pass { pass.old.word ≡ N.words (number_of channel.now) }
    ensures { pass.new.word ≡ pass.old.word }
{
    if name == "look" {
        return told.tell(stage.broker.word(shard_of(channel)).look(pass));
    }
    let mark = told.long_number(with);
    told.is_so(stage.broker.quiet_since(pass, channel, mark));
}

/// A call on a channel's stream, or on its shard, under a pass of that. `tick C` is one of its shard, and `size C` sets what its
/// namespace holds there to three. `share C` is how many entries the pass added.
fn call<N: Naming, R: Wait + Abort>(
    rt: &R,
    stage: &Stage<'_, '_, N>,
    pass: &mut Pass,
    name: &str,
    channel: &str,
    with: &str,
    told: &mut Told,
    now: u64,
)
    requires pass { pass.old.word ≡ N.words (number_of channel.now) }
    requires set_up { IsSome (settings_of N.namespaces channel.now) }
    ensures { pass.new.word ≡ pass.old.word }
{
    let (broker, shard) = (stage.broker, shard_of(channel));
    match name {
        "publish" | "put" => {
            tell_published(told, publish(rt, stage, pass, name, channel, with, now));
        }
        "tick" => told.is_so(broker.tick(rt, pass, shard, now).is_ok()),
        "size" => told.is_so(
            broker
                .set_size(rt, pass, shard, namespace_of(channel), 3)
                .is_ok(),
        ),
        "share" => told.tell(pass.share()),
        "look" | "quiet" => no_wait(stage, pass, name, channel, with, told),
        _ => look(rt, stage, pass, name, channel, with, told, now),
    }
}

/// The same with the pass that the caller has.
fn call_with_pass<N: Naming, R: Wait + Abort>(
    rt: &R,
    stage: &Stage<'_, '_, N>,
    caller: &mut Caller<N>,
    name: &str,
    channel: &str,
    with: &str,
    told: &mut Told,
) {
    if stage.namespaces.find(channel).is_none() {
        return told.tell("no such namespace");
    }
    let shard = shard_of(channel);
    let mut pass = caller.passes.take(stage.broker, shard);
    call(rt, stage, &mut pass, name, channel, with, told, caller.now);
    caller.passes.put(shard, pass);
}

/// `often C COUNT`: so many publishes, of which the last is told.
fn publish_often<N: Naming, R: Wait + Abort>(
    rt: &R,
    stage: &Stage<'_, '_, N>,
    caller: &mut Caller<N>,
    channel: &str,
    count: &str,
    told: &mut Told,
) {
    for number in 0..told.number(count) {
        let mut one = Told::new(stage.alloc);
        call_with_pass(rt, stage, caller, "publish", channel, "1", &mut one);
        if one.text() == Some("refused") {
            return told.tell(format_args!("refused at {number}"));
        }
    }
}

/// Tells who is there, each with its user.
fn tell_users(told: &mut Told, answer: Result<BTreeMap<String, String>, Refused>) {
    let Ok(users) = answer else {
        return told.tell("refused");
    };
    for (client, user) in users.iter() {
        told.part(", ");
        told.tell(format_args!("{client} {user}"));
    }
}

/// `enter C CLIENT USER`, `leave C CLIENT`, `list C`: who is there, each with its user; or `stats C`: how many clients are there,
/// and how many users.
fn call_on_presence<N: Naming, R: Wait>(
    rt: &R,
    stage: &Stage<'_, '_, N>,
    name: &str,
    channel: &str,
    with: &str,
    told: &mut Told,
    now: u64,
) {
    let (broker, (client, user)) = (stage.broker, call_of(with));
    match name {
        "enter" => told.is_so(broker.enter(rt, channel, client, user, now).is_ok()),
        "leave" => broker.leave(rt, channel, client),
        "list" => tell_users(told, broker.list(rt, channel)),
        _ => {
            let Stats { clients, users } = broker.stats(rt, channel);
            told.tell(format_args!("{clients}, {users}"));
        }
    }
}

/// Does what a row does, whose channel is the second of its words, and tells what comes of it.
pub(super) fn tell_call<N: Naming, R: Wait + Abort>(
    rt: &R,
    stage: &Stage<'_, '_, N>,
    caller: &mut Caller<N>,
    done: &str,
    told: &mut Told,
) {
    let (name, passed) = call_of(done);
    let (channel, with) = call_of(passed);
    match name {
        "at" => caller.now = told.long_number(passed),
        "enter" | "leave" | "list" | "stats" => {
            call_on_presence(rt, stage, name, channel, with, told, caller.now);
        }
        "often" => publish_often(rt, stage, caller, channel, with, told),
        _ => call_with_pass(rt, stage, caller, name, channel, with, told),
    }
}

/// Tells a delivery, with whose its publication is.
pub(super) fn tell_brought<N: Naming>(told: &mut Told, delivery: Option<Delivery<N>>) {
    let Some(delivery) = delivery else {
        return;
    };
    let (channel, epoch, publication) = (
        delivery.channel(),
        delivery.epoch(),
        delivery.publication(),
    );
    let (offset, body) = (publication.offset, publication.body.as_str());
    told.tell(format_args!("{channel} {epoch} {offset} {body}"));
    if let Some(Info { user, client }) = &publication.info {
        told.tell(format_args!(" of {user} {client}"));
    }
}

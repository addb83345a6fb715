//! What a session asks for, carried out at its node's hub and at the broker.
ghost use Rattle.std.specs.Prelude.{◌≡◌, IfOk, OnOk, option_map, string_bytes};
ghost use Rattle.cf_session.specs.Played.{asked_kind};
ghost use Rattle.cf_session.specs.Shown.{answer_kind, shown_action, shown_answer};
ghost use Rattle.cf_world.specs.Acting.{BeginsAs, ListsAs, Performs, PublishesAs, ReadsAs};
ghost use Rattle.cf_world.specs.HubCalls.{Finished, Told};

use crate::broker::{PublishOutcome, WorldBroker};
use crate::out_of_memory::Short;
use cf_hub::{Hub, HubRefusal};
use cf_presence::Stats;
use cf_protocol::{ErrorCode, Info, Outcome, Position};
use cf_session::{Action, Answer, hub_error, reply_text};

/// Carries out an action of the session of this number. The answer, if it is a call.
pub(crate) fn carry_out_action(
    broker: &mut WorldBroker,
    hub: &mut Hub,
    number: u32,
    action: Action,
) -> Result<Option<Answer>, Short>
    ensures kind { IfOk result
        (λ a. option_map answer_kind a ≡ asked_kind (shown_action action)) }
    ensures does { IfOk result (λ a. Performs number (shown_action action)
        (option_map shown_answer a) broker.old broker.new hub.old hub.new) }
{
    match action {
        Action::Begin { channel, id, since } => {
            let begun = begin(hub, number, channel.as_str(), id, since)?;
            Ok(Some(Answer::Begin(begun)))
        }
        Action::Read { channel, since } => {
            let read = read(broker, hub, number, channel.as_str(), since)?;
            Ok(Some(Answer::Read(read)))
        }
        Action::Finish { channel } => {
            finish(hub, number, channel.as_str())?;
            Ok(Some(Answer::Finish))
        }
        Action::Leave { channel } => {
            let _had = hub.leave(number, channel.as_str());
            Ok(Some(Answer::Leave))
        }
        Action::Publish(asked) => {
            let channel = asked.channel.as_str();
            let published = publish(
                broker,
                channel,
                asked.key.as_str(),
                asked.body.as_str(),
                &asked.info,
            )?;
            Ok(Some(Answer::Publish(published)))
        }
        Action::History {
            channel,
            id,
            limit,
            ..
        } => {
            let listed = history(broker, hub, number, channel.as_str(), id, limit)?;
            Ok(Some(Answer::History(listed)))
        }
        Action::Say(text) => {
            say(hub, number, text)?;
            Ok(None)
        }
        Action::Close(code) => {
            hub.close(number, code.code());
            Ok(None)
        }
        Action::Pong => {
            hub.pong(number);
            Ok(None)
        }
        // A client here is attached as it comes, and asks for none of these.
        Action::Attach { .. } => Ok(Some(Answer::Attach(Err(ErrorCode::Internal)))),
        Action::Presence { .. } => Ok(Some(Answer::Presence(Err(ErrorCode::NotAvailable)))),
        Action::Stats { .. } => Ok(Some(Answer::Stats(Stats {
            clients: 0,
            users: 0,
        }))),
    }
}

// A subscription is begun.
fn begin(
    hub: &mut Hub,
    number: u32,
    channel: &str,
    id: u32,
    since: Option<Position>,
) -> Result<Result<(), ErrorCode>, Short>
    ensures { IfOk result (λ r. BeginsAs number channel.now id since
        (shown_answer (Answer.Begin r)) hub.old hub.new) }
{
    hub.invariant();
    match hub.begin(number, channel, id, since) {
        Ok(()) => Ok(Ok(())),
        Err(HubRefusal::Memory) => Err(Short),
        Err(refusal) => Ok(Err(hub_error(&refusal))),
    }
}

// The stream of a channel is read for a subscription that was begun.
fn read(
    broker: &mut WorldBroker,
    hub: &mut Hub,
    number: u32,
    channel: &str,
    since: Option<Position>,
) -> Result<Result<(), ErrorCode>, Short>
    ensures { IfOk result (λ r. ReadsAs number channel.now since (shown_answer (Answer.Read r))
        broker.old broker.new hub.old hub.new) }
{
    let Some(recovery) = broker.read(channel, since)? else {
        return Ok(Err(ErrorCode::Internal));
    };
    let _taken = hub.read_done(number, channel, recovery);
    Ok(Ok(()))
}

// A subscription that was read is finished.
fn finish(hub: &mut Hub, number: u32, channel: &str) -> Result<(), Short>
    ensures { OnOk result (Finished number channel.now hub.old hub.new) }
{
    let _found = hub.finish(number, channel);
    if hub.short() {
        return Err(Short);
    }
    Ok(())
}

// A client's datum is published under a key.
fn publish(
    broker: &mut WorldBroker,
    channel: &str,
    key: &str,
    body: &str,
    info: &Info,
) -> Result<Result<(), ErrorCode>, Short>
    ensures { IfOk result (λ r. PublishesAs channel.now key.now body.now info.now
        (shown_answer (Answer.Publish r)) broker.old broker.new) }
{
    match broker.publish(channel, key, body, Some(info.client.as_str()))? {
        PublishOutcome::Accepted => Ok(Ok(())),
        PublishOutcome::Repeated => Ok(Ok(())),
        PublishOutcome::AtLastOffset => Ok(Err(ErrorCode::LimitExceeded)),
        PublishOutcome::NoEpoch => Ok(Err(ErrorCode::Internal)),
        PublishOutcome::NotSetUp => Ok(Err(ErrorCode::Internal)),
    }
}

// The history of a channel is listed in the reply to the command `id`.
fn history(
    broker: &mut WorldBroker,
    hub: &mut Hub,
    number: u32,
    channel: &str,
    id: u32,
    limit: i32,
) -> Result<Result<(), ErrorCode>, Short>
    ensures { IfOk result (λ r. ListsAs number channel.now id limit
        (shown_answer (Answer.History r)) broker.old broker.new hub.old hub.new) }
{
    let Some(history) = broker.history(channel, limit)? else {
        return Ok(Err(ErrorCode::Internal));
    };
    let outcome = Outcome::Past {
        position: history.position,
        publications: history.publications,
    };
    let text = reply_text(broker.alloc, id, outcome)?;
    say(hub, number, text)?;
    Ok(Ok(()))
}

// A text is queued for a session's client.
fn say(hub: &mut Hub, number: u32, text: String) -> Result<(), Short>
    ensures { OnOk result (Told number (string_bytes text) hub.old hub.new) }
{
    let _said = hub.say(number, text);
    if hub.short() {
        return Err(Short);
    }
    Ok(())
}

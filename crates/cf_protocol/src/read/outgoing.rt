//! Replies and pushes.
ghost use Rattle.std.specs.Prelude.{[], ◌∷◌};
ghost use Rattle.cf_protocol.specs.Fields.{object_or_none};
ghost use Rattle.cf_protocol.specs.Reading.{Answers, AreMembers, HasValue, OfFields, OfValue};
ghost use Rattle.cf_protocol.specs.Reply.{answer_from, code_in, push_from, pushes_of, outgoing_from, outgoing_in};
ghost use Rattle.cf_protocol.specs.Shown.{shown_outgoing, told, told_pushed};

use crate::fault::ReadFault;
use crate::outgoing::{Outgoing, Pushed};
use crate::read::keys::only_key;
use crate::read::members::Members;
use crate::read::outcome::{RESULT_KEYS, read_result};
use crate::read::publication::read_published;
use cf_json::Span;
use std::alloc::Global;

/// The reply or push that a value is; none for a push of a kind that isn't known, which is passed over.
pub fn read_outgoing(alloc: Global, text: &str, span: Span) -> Result<Option<Outgoing>, ReadFault>
    requires { HasValue text.now span }
    ensures { OfValue text.now span (λ t. Answers told result (outgoing_in t)) }
{
    let members = Members::of(alloc, text, span)?;
    read_from(alloc, &members)
}

/// The reply or push that has these members. An object without members is the ping.
fn read_from(alloc: Global, members: &Members<'_>) -> Result<Option<Outgoing>, ReadFault>
    requires { AreMembers members.now }
    ensures { OfFields members.now (λ fs. Answers told result (outgoing_from fs)) }
{
    if members.found.is_empty() {
        return Ok(Some(Outgoing::Ping));
    }
    let Some(span) = members.present("push") else {
        return read_answer(alloc, members).map(Some);
    };
    let push = Members::of(alloc, members.text, span)?;
    read_push(alloc, &push)
}

/// The code of a push that ends a subscription.
fn read_end(alloc: Global, members: &Members<'_>) -> Result<Option<u32>, ReadFault>
    requires { AreMembers members.now }
    ensures { OfFields members.now (λ fs.
        Answers (λ c. c) result (object_or_none code_in fs "unsubscribe")) }
{
    let Some(span) = members.present("unsubscribe") else {
        return Ok(None);
    };
    let found = Members::of(alloc, members.text, span)?;
    found.positive("code").map(Some)
}

/// What is pushed; none if it is of a kind that isn't known.
fn read_pushed(alloc: Global, members: &Members<'_>) -> Result<Option<Pushed>, ReadFault>
    requires { AreMembers members.now }
    ensures { OfFields members.now (λ fs. Answers told_pushed result (pushes_of fs)) }
{
    let code = read_end(alloc, members)?;
    match (members.present("pub"), code) {
        (None, None) => Ok(None),
        (Some(span), None) => {
            let publication = read_published(alloc, members.text, span)?;
            Ok(Some(Pushed::Publication(publication)))
        }
        (None, Some(code)) => Ok(Some(Pushed::Unsubscribe { code })),
        (Some(_), Some(_)) => Err(ReadFault::Bad),
    }
}

/// The push that has these members; none if it is of a kind that isn't known.
fn read_push(alloc: Global, members: &Members<'_>) -> Result<Option<Outgoing>, ReadFault>
    requires { AreMembers members.now }
    ensures { OfFields members.now (λ fs. Answers told result (push_from fs)) }
{
    let channel = members.text(alloc, "channel")?;
    let Some(push) = read_pushed(alloc, members)? else {
        return Ok(None);
    };
    Ok(Some(Outgoing::Push { channel, push }))
}

/// The reply that has these members.
fn read_answer(alloc: Global, members: &Members<'_>) -> Result<Outgoing, ReadFault>
    requires { AreMembers members.now }
    ensures { OfFields members.now (λ fs.
        Answers (λ o. shown_outgoing o ∷ []) result (answer_from fs)) }
{
    let id = members.positive("id")?;
    let (key, value) = only_key(members, &RESULT_KEYS)?;
    let outcome = read_result(alloc, members.text, key, value)?;
    Ok(Outgoing::Answer { id, outcome })
}

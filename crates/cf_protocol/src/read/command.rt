//! Commands.
ghost use Rattle.std.specs.Prelude.{Some, codes};
ghost use Rattle.cf_protocol.specs.Fields.{look_up};
ghost use Rattle.cf_protocol.specs.Command.{command_of, named_command, subscribe, publish, history, data_of};
ghost use Rattle.cf_protocol.specs.Methods.{request_as, served};
ghost use Rattle.cf_protocol.specs.Reading.{Answers, AreMembers, HasValue, OfFields, OfValue};
ghost use Rattle.cf_protocol.specs.Shown.{shown_command, shown_request, shown_data};

use crate::command::{Command, Data, Request};
use crate::fault::ReadFault;
use crate::read::keys::only_key;
use crate::read::members::Members;
use crate::read::method::{METHODS, Method};
use cf_json::{Span, compact, depth};
use std::alloc::Global;

/// The deepest that the data of a publish may nest.
const MAX_DATA_DEPTH: usize = 60;

/// The command that a value is. An object without members is the pong.
pub fn read_command(alloc: Global, text: &str, span: Span) -> Result<Command, ReadFault>
    requires { HasValue text.now span }
    ensures { OfValue text.now span (λ t. Answers shown_command result (command_of t)) }
{
    let members = Members::of(alloc, text, span)?;
    if members.found.is_empty() {
        return Ok(Command {
            id: 0,
            request: Request::Pong,
        });
    }
    read_named(alloc, &members)
}

/// The command that has these members, of which there are some.
fn read_named(alloc: Global, members: &Members<'_>) -> Result<Command, ReadFault>
    requires { AreMembers members.now }
    ensures { OfFields members.now (λ fs. Answers shown_command result (named_command fs)) }
{
    let id = members.whole("id", u64::from(u32::MAX))? as u32;
    let (method, value) = only_key(members, &METHODS)?;
    if id == 0 && !matches!(method, Method::Send) {
        return Err(ReadFault::Bad);
    }
    let request = read_request(alloc, members.text, method, value)?;
    Ok(Command { id, request })
}

/// The request of a method. The value is an object, but for those of which nothing is read: there it may be any.
fn read_request(
    alloc: Global,
    text: &str,
    method: Method,
    value: Span,
) -> Result<Request, ReadFault>
    requires { HasValue text.now value }
    ensures { OfValue text.now value (λ t. Answers shown_request result (request_as method t)) }
{
    match method {
        Method::Ping => Ok(Request::Ping),
        Method::Send => Ok(Request::Send),
        Method::Other => Ok(Request::Other),
        _ => {
            let members = Members::of(alloc, text, value)?;
            read_served(alloc, method, &members)
        }
    }
}

/// The request of a method that has these members.
fn read_served(alloc: Global, method: Method, members: &Members<'_>) -> Result<Request, ReadFault>
    requires { AreMembers members.now }
    ensures { OfFields members.now (λ fs. Answers shown_request result (served method fs)) }
{
    match method {
        Method::Connect => {
            let token = members.text(alloc, "token")?;
            Ok(Request::Connect { token })
        }
        Method::Subscribe => read_subscribe(alloc, members),
        Method::Publish => read_publish(alloc, members),
        Method::History => read_history(alloc, members),
        Method::Unsubscribe | Method::Presence | Method::PresenceStats => {
            let channel = members.text(alloc, "channel")?;
            match method {
                Method::Unsubscribe => Ok(Request::Unsubscribe { channel }),
                Method::Presence => Ok(Request::Presence { channel }),
                _ => Ok(Request::PresenceStats { channel }),
            }
        }
        Method::Ping => Ok(Request::Ping),
        Method::Send => Ok(Request::Send),
        Method::Other => Ok(Request::Other),
    }
}

fn read_subscribe(alloc: Global, members: &Members<'_>) -> Result<Request, ReadFault>
    requires { AreMembers members.now }
    ensures { OfFields members.now (λ fs. Answers shown_request result (subscribe fs)) }
{
    let recover = members.flag("recover")?;
    let from = members.position(alloc)?;
    let channel = members.text(alloc, "channel")?;
    let since = if recover { Some(from) } else { None };
    Ok(Request::Subscribe { channel, since })
}

fn read_publish(alloc: Global, members: &Members<'_>) -> Result<Request, ReadFault>
    requires { AreMembers members.now }
    ensures { OfFields members.now (λ fs. Answers shown_request result (publish fs)) }
{
    let channel = members.text(alloc, "channel")?;
    let key = members.text(alloc, "key")?;
    let body = read_data(alloc, members)?;
    Ok(Request::Publish { channel, key, body })
}

fn read_history(alloc: Global, members: &Members<'_>) -> Result<Request, ReadFault>
    requires { AreMembers members.now }
    ensures { OfFields members.now (λ fs. Answers shown_request result (history fs)) }
{
    let limit = members.limit("limit")?;
    let since = members.since(alloc)?;
    let reverse = members.flag("reverse")?;
    let channel = members.text(alloc, "channel")?;
    Ok(Request::History {
        channel,
        limit,
        since,
        reverse,
    })
}

/// The data of a publish, which may be `null`.
fn read_data(alloc: Global, members: &Members<'_>) -> Result<Data, ReadFault>
    requires { AreMembers members.now }
    ensures { OfFields members.now (λ fs.
        Answers shown_data result (Some (data_of (look_up (codes "data") fs)))) }
{
    let Some(span) = members.get("data") else {
        return Ok(Data::Absent);
    };
    if depth(members.text, span) > MAX_DATA_DEPTH {
        return Ok(Data::TooDeep);
    }
    let body = compact(alloc, members.text, span)?;
    Ok(Data::Body(body))
}

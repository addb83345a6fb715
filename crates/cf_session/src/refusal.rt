//! Why a command is refused before anything is asked for it.
ghost use Rattle.std.specs.Prelude.{◌≡◌, None, [], pos};
ghost use Rattle.cf_protocol.specs.Request as request;
ghost use Rattle.cf_protocol.specs.Shown.{shown_request, shown_data};
ghost use Rattle.cf_protocol.specs.Checks.{checks, first_failed, is_bad_channel, is_bad_data};

use cf_protocol::{Data, ErrorCode, LONGEST_CHANNEL, LONGEST_KEY, Namespaces, Request};

fn is_bad_channel(channel: &str) -> bool
    ensures { result ≡ is_bad_channel channel.now }
{
    channel.len() == 0 || channel.len() > LONGEST_CHANNEL
}

fn is_bad_data(body: &Data) -> bool
    ensures { result ≡ is_bad_data (shown_data body.now) }
{
    match body {
        Data::Absent => true,
        Data::TooDeep => true,
        Data::Body(_) => false,
    }
}

fn subscribe_refusal(namespaces: &Namespaces, channel: &str) -> Option<ErrorCode>
    ensures { result ≡ first_failed (checks namespaces.now (request.Subscribe channel.now None)) }
{
    if is_bad_channel(channel) {
        return Some(ErrorCode::BadRequest);
    }
    match namespaces.find(channel) {
        None => Some(ErrorCode::UnknownChannel),
        Some(_) => None,
    }
}

fn unsubscribe_refusal(channel: &str) -> Option<ErrorCode>
    ensures { result ≡ first_failed (checks [] (request.Unsubscribe channel.now)) }
{
    if is_bad_channel(channel) {
        return Some(ErrorCode::BadRequest);
    }
    None
}

fn publish_refusal(
    namespaces: &Namespaces,
    channel: &str,
    key: &str,
    body: &Data,
) -> Option<ErrorCode>
    ensures { result
        ≡ first_failed (checks namespaces.now
        (request.Publish channel.now key.now (shown_data body.now))) }
{
    if is_bad_channel(channel) {
        return Some(ErrorCode::BadRequest);
    }
    if key.len() > LONGEST_KEY || is_bad_data(body) {
        return Some(ErrorCode::BadRequest);
    }
    let Some(settings) = namespaces.find(channel) else {
        return Some(ErrorCode::UnknownChannel);
    };
    if !settings.publish {
        return Some(ErrorCode::PermissionDenied);
    }
    None
}

fn presence_refusal(namespaces: &Namespaces, channel: &str) -> Option<ErrorCode>
    ensures { result ≡ first_failed (checks namespaces.now (request.Presence channel.now)) }
{
    if is_bad_channel(channel) {
        return Some(ErrorCode::BadRequest);
    }
    let Some(settings) = namespaces.find(channel) else {
        return Some(ErrorCode::UnknownChannel);
    };
    if !settings.presence {
        return Some(ErrorCode::NotAvailable);
    }
    None
}

fn history_refusal(namespaces: &Namespaces, channel: &str, reverse: bool) -> Option<ErrorCode>
    ensures { result
        ≡ first_failed (checks namespaces.now (request.History channel.now (pos 0) None reverse)) }
{
    if is_bad_channel(channel) {
        return Some(ErrorCode::BadRequest);
    }
    let Some(settings) = namespaces.find(channel) else {
        return Some(ErrorCode::UnknownChannel);
    };
    if !settings.history {
        return Some(ErrorCode::PermissionDenied);
    }
    if reverse {
        return Some(ErrorCode::NotAvailable);
    }
    None
}

/// The error of the first check that a command fails, if it fails one. It takes no memory.
pub fn refusal_of(namespaces: &Namespaces, request: &Request) -> Option<ErrorCode>
    ensures { result ≡ first_failed (checks namespaces.now (shown_request request.now)) }
{
    match request {
        Request::Subscribe { channel, .. } => subscribe_refusal(namespaces, channel.as_str()),
        Request::Unsubscribe { channel } => unsubscribe_refusal(channel.as_str()),
        Request::Publish { channel, key, body } => {
            publish_refusal(namespaces, channel.as_str(), key.as_str(), body)
        }
        Request::Presence { channel } => presence_refusal(namespaces, channel.as_str()),
        Request::PresenceStats { channel } => presence_refusal(namespaces, channel.as_str()),
        Request::History {
            channel,
            reverse,
            ..
        } => history_refusal(namespaces, channel.as_str(), *reverse),
        Request::Other => Some(ErrorCode::NotAvailable),
        Request::Ping => None,
        Request::Send => None,
        Request::Pong => None,
        Request::Connect { .. } => None,
    }
}

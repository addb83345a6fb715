//! The texts that a client gets. None stands for refused memory.
ghost use Rattle.std.specs.Prelude.{◌≡◌, IfSome, IsOkAnd, string_bytes};
ghost use Rattle.cf_hub.specs.Subscriptions.{reading_of};
ghost use Rattle.cf_hub.specs.Wordings.{end_text, ping_text, push_text, reply_text};

use bytes::ByteStr;
use cf_protocol::{
    INSUFFICIENT, Outcome, Outgoing, Publication, write_publication, write_reply, write_unsubscribe,
};
use cf_stream::Recovery;
use std::alloc::{AllocError, Global};

/// A text that was written, for several clients to hold. Its bytes aren't copied.
pub(crate) fn shared(text: Result<String, AllocError>) -> Option<ByteStr>
    ensures { IfSome result (λ t. IsOkAnd text (λ s. t ≡ string_bytes s)) }
{
    match text {
        Ok(text) => ByteStr::from_string(text).ok(),
        Err(_) => None,
    }
}

/// The push of a publication.
pub(crate) fn push_text(alloc: Global, channel: &str, publication: &Publication) -> Option<ByteStr>
    ensures { IfSome result (λ t. t ≡ push_text channel.now publication.now) }
{
    shared(write_publication(alloc, channel, publication))
}

/// The unsubscribe push of a client that is to ask again.
pub(crate) fn end_text(alloc: Global, channel: &str) -> Option<ByteStr>
    ensures { IfSome result (λ t. t ≡ end_text channel.now) }
{
    shared(write_unsubscribe(alloc, channel, INSUFFICIENT))
}

/// The ping.
pub(crate) fn ping_text(alloc: Global) -> Option<ByteStr>
    ensures { IfSome result (λ t. t ≡ ping_text) }
{
    shared(write_reply(alloc, &Outgoing::Ping))
}

/// The reply to a subscribe.
pub(crate) fn reply_text(
    alloc: Global,
    id: u32,
    was_recovering: bool,
    recovery: Recovery,
) -> Option<ByteStr>
    ensures { IfSome result (λ t. t
        ≡ reply_text id was_recovering (reading_of recovery) recovery.publications.items) }
{
    let reply = Outgoing::Answer {
        id,
        outcome: Outcome::Subscribed {
            position: recovery.position,
            publications: recovery.publications,
            recovered: recovery.recovered,
            was_recovering,
        },
    };
    let text = shared(write_reply(alloc, &reply));
    drop(reply);
    text
}

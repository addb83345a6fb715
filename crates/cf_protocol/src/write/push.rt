//! The texts of pushes, written from parts that are lent.
ghost use Rattle.std.specs.Prelude.{◌≡◌, ◌∷◌, [], IfOk, string_bytes};
ghost use Rattle.cf_protocol.specs.Written as written;
ghost use Rattle.cf_protocol.specs.Written.{◌⇒◌, inner, publication_text, unsubscribe_text, unsubscribed};
ghost use Rattle.cf_protocol.specs.Writing.{Adds};

use crate::codes::unsubscribe_reason;
use crate::publication::Publication;
use crate::write::publication::write_placed;
use crate::write::writer::Writer;
use std::alloc::{AllocError, Global};

/// The bytes of a publication's push beside its channel, its data and its info: 49, and an offset of up to 20 digits.
const PUBLICATION_ROOM: usize = 69;
/// The bytes of an info beside the two texts in it.
const INFO_ROOM: usize = 31;
/// The bytes of an unsubscribe push beside its channel, for the codes that have a reason.
const UNSUBSCRIBE_ROOM: usize = 83;

/// The text of the push of a publication on a channel: the one that [`write_reply`](crate::write_reply) gives of it.
/// The parts are lent, and nothing is copied but into the text, whose room is reserved at once if no byte of the names has
/// to be escaped.
///
/// # Errors
///
/// If there is no memory.
pub fn write_publication(
    alloc: Global,
    channel: &str,
    publication: &Publication,
) -> Result<String, AllocError>
    ensures { IfOk result (λ s. string_bytes s ≡ publication_text channel.now publication.now) }
{
    let mut writer = Writer::new(alloc, publication_room(channel, publication));
    writer.open("push", "{");
    writer.text_member("channel", channel);
    writer.key("pub");
    write_placed(&mut writer, publication);
    writer.value("}");
    writer.into_text()
}

/// The text of the push that ends a subscription to a channel with this code: the one that [`write_reply`](crate::write_reply)
/// gives of it.
///
/// # Errors
///
/// If there is no memory.
pub fn write_unsubscribe(alloc: Global, channel: &str, code: u32) -> Result<String, AllocError>
    ensures { IfOk result (λ s. string_bytes s ≡ unsubscribe_text channel.now code) }
{
    if code == 0 && channel.is_empty() {
        return String::from_str(alloc, "{}");
    }
    let mut writer = Writer::new(alloc, channel.len().saturating_add(UNSUBSCRIBE_ROOM));
    writer.open("push", "{");
    writer.text_member("channel", channel);
    write_end(&mut writer, code);
    writer.value("}");
    writer.into_text()
}

/// How many bytes the push of a publication has at most, if no byte of its names has to be escaped.
fn publication_room(channel: &str, publication: &Publication) -> usize {
    let room = channel
        .len()
        .saturating_add(publication.body.len())
        .saturating_add(PUBLICATION_ROOM);
    match &publication.info {
        None => room,
        Some(info) => room
            .saturating_add(info.client.len())
            .saturating_add(info.user.len())
            .saturating_add(INFO_ROOM),
    }
}

/// The end of a subscription, left out if it has no code.
fn write_end(writer: &mut Writer, code: u32)
    ensures { Adds writer.old writer.new (("unsubscribe" ⇒ inner (unsubscribed code)) ∷ []) }
{
    if code == 0 {
        return;
    }
    writer.open("unsubscribe", "{");
    writer.whole_member("code", u64::from(code));
    writer.text_member("reason", unsubscribe_reason(code));
    writer.value("}");
}

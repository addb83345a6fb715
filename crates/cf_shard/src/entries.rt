//! The entries that a call adds to its shard's log, and whether the log has room for them.
ghost use Rattle.std.specs.Prelude.{◌≡◌, ◌≢◌, ◌↔◌, ◌+◌, ◌^◌, ◌<◌, ◌≤◌, ◌++◌, ◌∷◌, ◌⊎◌, [], length, OnOk, IfErr, IsErrOf, IsSome, IsTrue, IsFalse, None, Some};
ghost use Rattle.std.specs.Option.{option_map, option_and_then};
ghost use Rattle.cf_protocol.specs.Datum.{Placed};
ghost use Rattle.cf_protocol.specs.LogEntry.Entry.{Publish};
ghost use Rattle.cf_order.specs.Passes.{entry_of, publishes};
ghost use Rattle.cf_stream.specs.LogState.{opening, if_stands, due_entries};
ghost use Rattle.cf_stream.specs.Stream.{newest_of};
ghost use Rattle.cf_stream.specs.Streams.{stream_of};
ghost use Rattle.cf_shard.specs.ShardLog.{HasWhole, KeepsShare, to_open, HasRoom, HasRoomForTwo, HasRoomOn};

use crate::refusal::Refused;
use cf_order::{Entry, MOST_ENTRIES, Owner, Pass, ShardWord};
use cf_protocol::Position;
use cf_stream::{Due, DueWalk, LAST_OFFSET, Streams};

/// The top of a stream that stands there.
pub(crate) fn top_of(position: Option<Position>) -> Option<u64>
    ensures { result ≡ option_map (λ p. p.offset) position }
{
    match position {
        None => None,
        Some(position) => Some(position.offset),
    }
}

/// Whether a publish to a stream with this top may be accepted: it isn't at its last offset, and the log has room.
pub(crate) fn room_to_publish(stood: Option<u64>, count: u64) -> Result<(), Refused>
    ensures ok { OnOk result (HasRoomForTwo stood count × (stood ≢ Some LAST_OFFSET)) }
    ensures last { IsErrOf result Refused.AtLastOffset ↔ (stood ≡ Some LAST_OFFSET) }
    ensures count { IsErrOf result Refused.AtLastCount → 2 ^ 62 < count + to_open stood + 1 }
    ensures refusals { IfErr result (λ e. (e ≡ Refused.AtLastOffset) ⊎ (e ≡ Refused.AtLastCount)) }
{
    match stood {
        None => {
            if count > MOST_ENTRIES - 2 {
                return Err(Refused::AtLastCount);
            }
            Ok(())
        }
        Some(top) => {
            if top == LAST_OFFSET {
                return Err(Refused::AtLastOffset);
            }
            if count > MOST_ENTRIES - 1 {
                return Err(Refused::AtLastCount);
            }
            Ok(())
        }
    }
}

/// Whether the log has room for the entry of a stream that opens, if none stands.
pub(crate) fn has_room(stood: Option<u64>, count: u64) -> bool
    ensures yes { IsTrue result → HasRoom stood count }
    ensures no { IsFalse result → (stood ≡ None) × (2 ^ 62 ≤ count) }
{
    match stood {
        None => count < MOST_ENTRIES,
        Some(_) => true,
    }
}

/// Whether the log has room for the entry of a call on a stream, if one stands.
pub(crate) fn has_room_on(stood: Option<u64>, count: u64) -> bool
    ensures yes { IsTrue result → HasRoomOn stood count }
    ensures no { IsFalse result → IsSome stood × (2 ^ 62 ≤ count) }
{
    match stood {
        None => true,
        Some(_) => count < MOST_ENTRIES,
    }
}

/// The entry of a call on a stream, if one stood. It is no publish.
pub(crate) fn log_on(
    word: &ShardWord,
    owner: &mut Owner,
    pass: &mut Pass,
    stood: Option<u64>,
    entry: &Entry<'_>,
)
    requires word { (owner.old.word ≡ word.now) × (pass.old.word ≡ word.now) }
    requires room { HasRoomOn stood (length owner.old.log) }
    requires whole { HasWhole pass.old owner.old.log }
    requires other { publishes (entry_of entry.now) ≡ 0 }
    ensures owner { owner.new ≡
        record owner.old { log = owner.old.log ++ if_stands stood (entry_of entry.now) } }
    ensures whole { HasWhole pass.new owner.new.log }
    ensures share { KeepsShare pass.old pass.new 0 }
{
    match stood {
        None => {}
        Some(_) => word.append(owner, pass, entry),
    }
}

/// The entry of a stream that opened, if none stood.
pub(crate) fn log_opening(
    word: &ShardWord,
    owner: &mut Owner,
    pass: &mut Pass,
    stood: Option<u64>,
    channel: &str,
    position: &Position,
)
    requires word { (owner.old.word ≡ word.now) × (pass.old.word ≡ word.now) }
    requires room { HasRoom stood (length owner.old.log) }
    requires whole { HasWhole pass.old owner.old.log }
    ensures owner { owner.new
        ≡ record owner.old
        { log = owner.old.log ++ opening stood channel.now position.now.epoch [] } }
    ensures whole { HasWhole pass.new owner.new.log }
    ensures share { KeepsShare pass.old pass.new 0 }
{
    match stood {
        None => word.append(owner, pass, &Entry::Opened(channel, position.epoch)),
        Some(_) => {}
    }
}

/// The entries of an accepted publish: the stream's opening if none stood, and the newest publication that the channel holds.
pub(crate) fn log_publish(
    streams: &Streams,
    word: &ShardWord,
    owner: &mut Owner,
    pass: &mut Pass,
    stood: Option<u64>,
    channel: &str,
    key: &str,
    position: &Position,
)
    requires word { (owner.old.word ≡ word.now) × (pass.old.word ≡ word.now) }
    requires room { HasRoomForTwo stood (length owner.old.log) }
    requires whole { HasWhole pass.old owner.old.log }
    requires newest { IsSome (option_and_then newest_of (stream_of streams.now channel.now)) }
    ensures owner { (d : Placed)
        → option_and_then newest_of (stream_of streams.now channel.now) ≡ Some d
        → owner.new
        ≡ record owner.old {
          log = owner.old.log
              ++ opening stood channel.now position.now.epoch
              (Publish channel.now key.now d.datum ∷ []);
        } }
    ensures whole { HasWhole pass.new owner.new.log }
    ensures share { KeepsShare pass.old pass.new 1 }
{
    log_opening(word, owner, pass, stood, channel, position);
    let Some(newest) = streams.last(channel) else {
        unreachable!()
    };
    let by = match &newest.info {
        None => None,
        Some(info) => Some((info.user.as_str(), info.client.as_str())),
    };
    let entry = Entry::Published(channel, key, newest.body.as_str(), by);
    word.append(owner, pass, &entry);
}

/// Whether so much room is enough for the entries of all that is due.
pub(crate) fn fits(walk: DueWalk<'_>, room: u64) -> bool
    ensures yes { IsTrue result → length walk.entry ≤ room }
    ensures no { IsFalse result → room < length walk.entry }
{
    let mut rest = walk;
    let mut left = room;
    'due: while let Some(_) = rest.next() {
        if left == 0 {
            return false;
        }
        left -= 1;
    }
    true
}

/// The entries of all that is due.
pub(crate) fn log_due(word: &ShardWord, owner: &mut Owner, pass: &mut Pass, walk: DueWalk<'_>)
    requires word { (owner.old.word ≡ word.now) × (pass.old.word ≡ word.now) }
    requires room { length owner.old.log + length walk ≤ 2 ^ 62 }
    requires whole { HasWhole pass.old owner.old.log }
    ensures owner { owner.new ≡ record owner.old { log = owner.old.log ++ due_entries walk.entry } }
    ensures whole { HasWhole pass.new owner.new.log }
    ensures share { KeepsShare pass.old pass.new 0 }
{
    let mut rest = walk;
    'due: while let Some((channel, due)) = rest.next() {
        match due {
            Due::Forget => word.append(owner, pass, &Entry::Forgotten(channel)),
            Due::Empty => word.append(owner, pass, &Entry::Trimmed(channel, 0)),
        }
    }
}

//! How a channel's stream opens. All room is made before its epoch is drawn, so that a refused call draws none.
ghost use Rattle.std.specs.Prelude.{◌≡◌, ◌≢◌, ◌≤◌, IfOk, IfErr, OnErr, OnOk, false, Option, Some, None, Err, List, ℕ};
ghost use Rattle.std.specs.Option.{option_map};
ghost use Rattle.std.specs.BTreeMap.{get_by_text};
ghost use Rattle.std.specs.String.{string_bytes};
ghost use Rattle.cf_stream.specs.Stream.{datum_of, started, first_pushed, used_at, in_epoch, newest_of};
ghost use Rattle.cf_stream.specs.Streams.{SetsAt};
ghost use Rattle.cf_stream.specs.FreshEpochs.{DrawsNone, DrawsEpoch};

use crate::answer::Published;
use crate::refusal::StreamRefusal;
use crate::stream::{LARGEST_SIZE, Stream};
use cf_protocol::{Epoch, Info, Position};
use std::alloc::{AllocError, AllocFailed, Global};
use std::collections::BTreeMap;

/// Where new streams get their epochs from.
pub trait Epochs {
    ghost use Rattle.std.specs.Prelude.{Option, List, ℕ};

    /// A draw may give this answer at the first state, and leave the second.
    ghost draws: { Self → Option (List ℕ) → Self → Type 0 };

    /// The next epoch, if there is one. An empty epoch counts as none.
    fn draw(&mut self) -> Option<Epoch>
        ensures { draws self.old result self.new };
}

/// Opens a stream that is used at a moment.
pub(crate) fn open_idle<E: Epochs>(
    map: &mut BTreeMap<String, Stream>,
    epochs: &mut E,
    alloc: Global,
    size: usize,
    channel: &str,
    now: u64,
) -> Result<Position, StreamRefusal>
    requires absent { get_by_text map.old channel.now ≡ None }
    requires sized { (1 ≤ size) × (size ≤ LARGEST_SIZE) }
    ensures ok { IfOk result (λ p. SetsAt map.old map.new channel.now
        (Some (used_at (started p.epoch size 0) now))) }
    ensures position { IfOk result (λ p. p.offset ≡ 0) }
    ensures drawn { IfOk result (λ p. DrawsEpoch E.draws p.epoch epochs.old epochs.new) }
    ensures no_epoch { result ≡ Err StreamRefusal.NoEpoch
        → DrawsNone E.draws epochs.old epochs.new }
    ensures memory { IfErr result (λ e. e ≢ StreamRefusal.NoEpoch
        → (e ≡ StreamRefusal.Memory) × (epochs.new ≡ epochs.old)) }
    ensures err { OnErr result ((q : List ℕ) → get_by_text map.new q ≡ get_by_text map.old q) }
{
    let stream = Stream::unnamed(alloc, size, now)?;
    open(map, epochs, alloc, channel, stream)
}

/// Opens a stream and publishes to it.
pub(crate) fn publish_new<E: Epochs>(
    map: &mut BTreeMap<String, Stream>,
    epochs: &mut E,
    alloc: Global,
    size: usize,
    channel: &str,
    body: String,
    key: String,
    info: Option<Info>,
    now: u64,
) -> Result<Published, StreamRefusal>
    requires absent { get_by_text map.old channel.now ≡ None }
    requires sized { (1 ≤ size) × (size ≤ LARGEST_SIZE) }
    ensures ok { IfOk result (λ p. SetsAt map.old map.new channel.now
        (Some (first_pushed p.position.epoch size (string_bytes key) (datum_of body info) now))) }
    ensures answer { IfOk result (λ p.
        (p.position.offset ≡ 1) × (p.repeated ≡ false)) }
    ensures newest { IfOk result (λ p.
        newest_of (first_pushed p.position.epoch size (string_bytes key) (datum_of body info) now)
        ≡ Some (record { offset = 1; datum = datum_of body info })) }
    ensures drawn { IfOk result (λ p.
        DrawsEpoch E.draws p.position.epoch epochs.old epochs.new) }
    ensures no_epoch { result ≡ Err StreamRefusal.NoEpoch
        → DrawsNone E.draws epochs.old epochs.new }
    ensures memory { IfErr result (λ e. e ≢ StreamRefusal.NoEpoch
        → (e ≡ StreamRefusal.Memory) × (epochs.new ≡ epochs.old)) }
    ensures err { OnErr result ((q : List ℕ) → get_by_text map.new q ≡ get_by_text map.old q) }
{
    let mut stream = Stream::unnamed(alloc, size, now)?;
    stream.publish(body, key, info, now)?;
    let position = open(map, epochs, alloc, channel, stream)?;
    Ok(Published {
        position,
        repeated: false,
    })
}

/// Puts a stream at a channel that has none, and answers where it stands. All room is made before its epoch is drawn.
fn open<E: Epochs>(
    map: &mut BTreeMap<String, Stream>,
    epochs: &mut E,
    alloc: Global,
    channel: &str,
    stream: Stream,
) -> Result<Position, StreamRefusal>
    requires { get_by_text map.old channel.now ≡ None }
    ensures drawn { IfOk result (λ p. DrawsEpoch E.draws p.epoch epochs.old epochs.new) }
    ensures ok { IfOk result (λ p.
        SetsAt map.old map.new channel.now (Some (in_epoch p.epoch stream))) }
    ensures position { IfOk result (λ p. p.offset ≡ stream.top) }
    ensures no_epoch { result ≡ Err StreamRefusal.NoEpoch
        → DrawsNone E.draws epochs.old epochs.new }
    ensures memory { IfErr result (λ e. e ≢ StreamRefusal.NoEpoch
        → (e ≡ StreamRefusal.Memory) × (epochs.new ≡ epochs.old)) }
    ensures err { OnErr result ((q : List ℕ) → get_by_text map.new q ≡ get_by_text map.old q) }
{
    let offset = stream.position().offset;
    put(map, alloc, channel, stream)?;
    match epochs.draw() {
        Some(epoch) if !epoch.is_empty() => {
            name(map, channel, epoch);
            Ok(Position { epoch, offset })
        }
        _ => {
            map.remove(channel);
            Err(StreamRefusal::NoEpoch)
        }
    }
}

/// Puts a stream at a channel.
fn put(
    map: &mut BTreeMap<String, Stream>,
    alloc: Global,
    channel: &str,
    stream: Stream,
) -> Result<(), AllocError>
    ensures ok { OnOk result (SetsAt map.old map.new channel.now (Some stream)) }
    ensures err { OnErr result ((q : List ℕ) → get_by_text map.new q ≡ get_by_text map.old q) }
{
    let key = String::from_str(alloc, channel)?;
    match map.insert(key, stream) {
        Ok(_) => Ok(()),
        Err(
            AllocFailed {
                value: (_key, _stream),
            },
        ) => Err(AllocError),
    }
}

/// Gives a channel's stream its epoch.
fn name(map: &mut BTreeMap<String, Stream>, channel: &str, epoch: Epoch)
    ensures { SetsAt map.old map.new channel.now
        (option_map (in_epoch epoch) (get_by_text map.old channel.now)) }
{
    if let Some(stream) = map.get_mut(channel) {
        stream.set_epoch(epoch);
    }
}

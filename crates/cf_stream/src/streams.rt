//! The streams of all channels.
ghost use Rattle.std.specs.Prelude.{◌≡◌, ◌≢◌, ◌+◌, ◌≤◌, ◌↔◌, IfOk, IfErr, OnErr, IsErrOf, IsSomeAnd, IsTrue, option_copied, Some, None, Ok, true, false, if◌then◌else◌, List, [], ◌∷◌, ℕ, map, filter, IsSome, is_some};
ghost use Rattle.std.specs.Option.{option_map};
ghost use Rattle.std.specs.BTreeMap.{get_by_text, IsOrdered};
ghost use Rattle.std.specs.FinMap as fin;
ghost use Rattle.std.specs.String.{string_bytes, string_cmp};
ghost use Rattle.cf_protocol.specs.Settings.{settings_of, entry_at, namespace_of, with_size};
ghost use Rattle.cf_stream.specs.Stream.{datum_of, after_publish, answer_to, resized, used_at, trimmed, position_of, IsAtLast, IsRecovery, IsHistory, stays, ticked, newest_of};
ghost use Rattle.cf_stream.specs.Streams.{stream_of, held_at, newest_at, put_at, stood_or, stood_or_opened, with_given, repeat_at, resized_in, with_used, ticked_at, IsOfAnother, SetsAt, due_in, due_to, all_due, IsSetUp, size_at, seconds_at};
ghost use Rattle.cf_model.specs.Streams.{in_namespace};
ghost use Rattle.cf_stream.specs.PublicationList.{kept_newest};
ghost use Rattle.cf_stream.specs.Quiet.{AreQuiet};
ghost use Rattle.cf_stream.specs.ChannelLists.{AreShown, ChangesAt, ChangesSize, RepeatsAt, PublishesAt, ReadsAt, ListsAt, StandsAt, life_read, life_with};
ghost use Rattle.cf_stream.specs.LogState.{IsState, Adds, opening, publishing, if_stands, ending, due_entries};
ghost use Rattle.cf_protocol.specs.LogEntry.Entry.{Trim, Forget, Size};
ghost use Rattle.cf_stream.specs.FreshEpochs.{LacksEpoch, Draws};
ghost use Rattle.cf_stream.specs.Calls.{DrawsToOpen, ListsOfHistory, ListsOfPublish, ListsOfRead, RefusalsOfHistory, RefusalsOfPublish};

use crate::answer::{History, Published, Recovery};
use crate::due::DueWalk;
use crate::opening::{Epochs, open_idle, publish_new};
use crate::refusal::StreamRefusal;
use crate::stream::{LARGEST_SIZE, Stream, UNUSED_SECONDS};
use cf_protocol::{Epoch, Info, Namespaces, Position, Publication, namespace_of};
use std::alloc::{AllocError, Global};
use std::collections::BTreeMap;
use std::marker::Model;

/// The streams of the channels that have one. A channel's namespace sets how many publications it holds, and for how long.
///
/// The clauses of `publish`, `read` and `history` have the same names: what a call `makes` of the streams, its `answer` off them,
/// what becomes of the `epochs`, its `refusals`, what a refused one leaves (`err`), its entries in a `log`, and its answer and
/// its change in the endless `lists`.
pub struct Streams {
    namespaces: Namespaces,
    map: BTreeMap<String, Stream>,
    // Before this moment, in seconds, a tick would do nothing.
    quiet_until: u64,
    alloc: Global,
}

// By field, so that what owns streams isn't proved to drop each part of its parts once more.
impl Drop for Streams {
    fn drop(self) {
        let Streams {
            namespaces: _,
            map: _,
            quiet_until: _,
            alloc: _,
        } = self;
    }
}

impl Model for Streams {
    ghost use Rattle.std.specs.BTreeMap.{get_by_text};
    ghost use Rattle.cf_stream.specs.Streams.{StreamMap, coded_kept, by_channel};
    ghost use Rattle.cf_stream.specs.Quiet.{AreQuiet};

    ghost Value = { StreamMap };

    ghost coded = { coded_kept };

    ghost view = { λ s. record { namespaces = s.namespaces; streams = by_channel s.map } };

    ghost invariant = { λ s. AreQuiet s.quiet_until s.namespaces (get_by_text s.map) };
}

impl Streams {
    /// No streams, over these namespaces.
    pub fn new(alloc: Global, namespaces: &Namespaces) -> Result<Streams, AllocError>
        ensures empty { IfOk result (λ s.
            s ≡ record { namespaces = namespaces.now; streams = fin.empty }) }
        ensures log { IfOk result (λ s. IsState namespaces.now s []) }
        ensures lists { IfOk result (λ s. AreShown s (λ _. None)) }
    {
        Ok(Streams {
            namespaces: namespaces.copied()?,
            map: BTreeMap::new(alloc),
            quiet_until: u64::MAX,
            alloc,
        })
    }

    /// Whether a channel's namespace is set up. Without it the channel has no stream.
    pub fn is_set_up(&self, channel: &str) -> bool
        ensures { IsTrue result ↔ IsSetUp self.now channel.now }
    {
        self.namespaces.find(channel).is_some()
    }

    /// Whether a namespace of this name is set up.
    pub fn has_namespace(&self, name: &str) -> bool
        ensures { result ≡ is_some (entry_at self.now.namespaces name.now) }
    {
        self.namespaces.contains(name)
    }

    /// Where the publication stands that a publish to a channel with this key repeats, if it repeats one. It takes no memory,
    /// opens nothing and is no use.
    pub fn repeat_of(&self, channel: &str, key: &str) -> Option<Position>
        ensures repeat { result ≡ repeat_at (stream_of self.now channel.now) key.now }
        ensures list_answer { RepeatsAt self.now channel.now key.now result }
    {
        if key.is_empty() {
            return None;
        }
        match self.map.get(channel) {
            None => None,
            Some(stream) => stream.repeat_of(key),
        }
    }

    /// Publishes to a channel at a moment in seconds, and answers the position. The channel's stream opens if there is none.
    /// A publish whose key is among the last hundred of the stream is a repeat: it adds nothing, and is answered with the
    /// position of the publication that it repeats. The empty key is none.
    pub fn publish<E: Epochs>(
        &mut self,
        epochs: &mut E,
        channel: &str,
        body: String,
        key: String,
        info: Option<Info>,
        now: u64,
    ) -> Result<Published, StreamRefusal>
        requires { IsSetUp self.old channel.now }
        ensures makes { IfOk result (λ p. self.new
            ≡ with_given self.old channel.now p.position.epoch
            (string_bytes key) (datum_of body info) now) }
        ensures answer { IfOk result (λ p. p
            ≡ answer_to (stood_or_opened self.old channel.now p.position.epoch)
            (string_bytes key)) }
        ensures newest { IfOk result (λ p. p.repeated ≡ false → newest_at self.new channel.now
            ≡ Some (record { offset = p.position.offset; datum = datum_of body info })) }
        ensures epochs { DrawsToOpen E.draws (stream_of self.old channel.now)
            epochs.old epochs.new result (λ p. p.position.epoch) }
        ensures refusals { RefusalsOfPublish
            (stream_of self.old channel.now) (string_bytes key) result }
        ensures err { OnErr result (self.new ≡ self.old) }
        ensures log { IfOk result (λ p. Adds self.old self.new (publishing p.repeated
            (stream_of self.old channel.now) channel.now p.position.epoch (string_bytes key)
            (datum_of body info))) }
        ensures lists { IfOk result (ListsOfPublish channel.now (string_bytes key)
            (datum_of body info) self.old self.new) }
    {
        let size = size_for(&self.namespaces, channel);
        let seconds = seconds_for(&self.namespaces, channel);
        self.quiet_until = quiet_after_use(self.quiet_until, now, seconds);
        match self.map.get_mut(channel) {
            Some(stream) => stream.publish(body, key, info, now),
            None => publish_new(
                &mut self.map,
                epochs,
                self.alloc,
                size,
                channel,
                body,
                key,
                info,
                now,
            ),
        }
    }

    /// Sets how many publications the streams of a namespace may hold. Of those that hold more the newest stay. It takes no
    /// memory.
    pub fn set_size(&mut self, name: &str, size: usize)
        requires set_up { IsSome (entry_at self.old.namespaces name.now) }
        requires sized { (1 ≤ size) × (size ≤ LARGEST_SIZE) }
        ensures namespaces { self.new.namespaces ≡ with_size name.now size self.old.namespaces }
        ensures streams { (q : List ℕ) → stream_of self.new q
            ≡ resized_in name.now size q (stream_of self.old q) }
        ensures log { Adds self.old self.new (Size name.now size ∷ []) }
        ensures lists { ChangesSize self.old self.new name.now size }
    {
        self.namespaces.set_size(name, size);
        resize_in(&mut self.map, name, size);
    }

    /// The publications of a channel after a position, if all are held. Its stream opens if there is none.
    pub fn read<E: Epochs>(
        &mut self,
        epochs: &mut E,
        channel: &str,
        since: Option<Position>,
        now: u64,
    ) -> Result<Recovery, StreamRefusal>
        requires { IsSetUp self.old channel.now }
        ensures makes { IfOk result (λ r.
            self.new ≡ with_used self.old channel.now r.position.epoch now) }
        ensures answer { IfOk result (λ r.
            IsRecovery (stood_or_opened self.old channel.now r.position.epoch)
            since r.position r.recovered r.publications.items) }
        ensures epochs { DrawsToOpen E.draws (stream_of self.old channel.now)
            epochs.old epochs.new result (λ r. r.position.epoch) }
        ensures refusals { IfErr result (λ e.
            e ≢ StreamRefusal.NoEpoch → e ≡ StreamRefusal.Memory) }
        ensures err { OnErr result (self.new ≡ self.old) }
        ensures log { IfOk result (λ r. Adds self.old self.new
            (opening (stream_of self.old channel.now) channel.now r.position.epoch [])) }
        ensures lists { IfOk result (ListsOfRead channel.now since self.old self.new) }
    {
        let size = size_for(&self.namespaces, channel);
        self.quiet_until = quiet_after_use(self.quiet_until, now, UNUSED_SECONDS);
        read_in(&mut self.map, epochs, self.alloc, size, channel, since, now)
    }

    /// The first publications of a channel that are held after a position. Without a position its stream opens if there is none.
    pub fn history<E: Epochs>(
        &mut self,
        epochs: &mut E,
        channel: &str,
        since: Option<Position>,
        limit: i32,
        now: u64,
    ) -> Result<History, StreamRefusal>
        requires { IsSetUp self.old channel.now }
        ensures makes { IfOk result (λ h.
            self.new ≡ with_used self.old channel.now h.position.epoch now) }
        ensures answer { IfOk result (λ h.
            IsHistory (stood_or_opened self.old channel.now h.position.epoch)
            since limit h.position h.publications.items) }
        ensures epochs { DrawsToOpen E.draws (stream_of self.old channel.now)
            epochs.old epochs.new result (λ h. h.position.epoch) }
        ensures refusals { RefusalsOfHistory (stream_of self.old channel.now) since result }
        ensures err { OnErr result (self.new ≡ self.old) }
        ensures log { IfOk result (λ h. Adds self.old self.new
            (opening (stream_of self.old channel.now) channel.now h.position.epoch [])) }
        ensures lists { IfOk result (ListsOfHistory channel.now since limit self.old self.new) }
    {
        let size = size_for(&self.namespaces, channel);
        self.quiet_until = quiet_after_use(self.quiet_until, now, UNUSED_SECONDS);
        history_in(
            &mut self.map,
            epochs,
            self.alloc,
            size,
            channel,
            since,
            limit,
            now,
        )
    }

    /// Keeps at most the newest publications of a channel. It takes no memory.
    pub fn trim(&mut self, channel: &str, count: usize)
        ensures trimmed { self.new ≡ put_at self.old channel.now
            (option_map (trimmed count) (stream_of self.old channel.now)) }
        ensures log { Adds self.old self.new
            (if_stands (stream_of self.old channel.now) (Trim channel.now count)) }
        ensures lists { ChangesAt self.old self.new channel.now (option_map (kept_newest count)) }
    {
        trim_at(&mut self.map, channel, count);
    }

    /// Ends a channel's stream. It takes no memory.
    pub fn forget(&mut self, channel: &str)
        ensures forgotten { self.new ≡ put_at self.old channel.now None }
        ensures log { Adds self.old self.new
            (if_stands (stream_of self.old channel.now) (Forget channel.now)) }
        ensures lists { ChangesAt self.old self.new channel.now (λ _. None) }
    {
        self.map.remove(channel);
    }

    /// Ends all streams. It takes no memory.
    pub fn forget_all(&mut self)
        ensures forgotten { self.new ≡ record self.old { streams = fin.empty } }
        ensures log { Adds self.old self.new (ending (fin.entries self.old.streams)) }
        ensures fresh { IsState self.old.namespaces self.new [] }
        ensures lists { AreShown self.new (λ _. None) }
    {
        self.map.clear();
    }

    /// Empties the histories whose time is over, and ends the streams that were not used for long. It takes no memory.
    pub fn tick(&mut self, now: u64)
        ensures namespaces { self.new.namespaces ≡ self.old.namespaces }
        ensures streams { (q : List ℕ) → stream_of self.new q ≡ ticked_at now self.old q }
        ensures log { Adds self.old self.new (due_entries (all_due now self.old)) }
        ensures due { (q : List ℕ) → (due_in now self.old q ≡ None)
            ↔ (stream_of self.new q ≡ stream_of self.old q) }
    {
        if now < self.quiet_until {
            return;
        }
        tick_in(&mut self.map, &self.namespaces, now);
        self.quiet_until = first_due(&self.map, &self.namespaces);
    }

    /// The channels to which `tick` would do something, in the order of their bytes. It takes no memory.
    pub fn due(&self, now: u64) -> DueWalk<'_>
        ensures walk { result ≡ all_due now self.now }
        ensures exact { (q : List ℕ) → due_to result q ≡ due_in now self.now q }
    {
        DueWalk {
            rest: self.map.iter(),
            namespaces: &self.namespaces,
            now,
            is_quiet: now < self.quiet_until,
        }
    }

    /// The position of a channel's stream, if it has one. It takes no memory and opens nothing.
    pub fn position(&self, channel: &str) -> Option<Position>
        ensures position { result ≡ option_map position_of (stream_of self.now channel.now) }
        ensures list_answer { StandsAt self.now channel.now result }
    {
        match self.map.get(channel) {
            None => None,
            Some(stream) => Some(stream.position()),
        }
    }

    /// The newest publication that a channel holds. It takes no memory and opens nothing.
    pub fn last(&self, channel: &str) -> Option<&Publication>
        ensures { option_copied result ≡ newest_at self.now channel.now }
    {
        match self.map.get(channel) {
            None => None,
            Some(stream) => stream.last(),
        }
    }

    /// How many publications a channel holds, 0 if it has no stream. It takes no memory and opens nothing.
    pub fn held(&self, channel: &str) -> usize
        ensures { result ≡ held_at self.now channel.now }
    {
        match self.map.get(channel) {
            None => 0,
            Some(stream) => stream.held(),
        }
    }
}

/// How many publications a channel may hold.
fn size_for(namespaces: &Namespaces, channel: &str) -> usize
    requires { IsSome (settings_of namespaces.now channel.now) }
    ensures size { result ≡ size_at namespaces.now channel.now }
    ensures within { (1 ≤ result) × (result ≤ LARGEST_SIZE) }
{
    match namespaces.find(channel) {
        None => unreachable!(),
        Some(settings) => settings.size,
    }
}

/// How many seconds a channel holds its publications, 0 if its namespace isn't set up.
pub(crate) fn seconds_for(namespaces: &Namespaces, channel: &str) -> u64
    ensures { result ≡ seconds_at namespaces.now channel.now }
{
    match namespaces.find(channel) {
        None => 0,
        Some(settings) => settings.seconds,
    }
}

/// Reads the channel's stream, or a new one.
fn read_in<E: Epochs>(
    map: &mut BTreeMap<String, Stream>,
    epochs: &mut E,
    alloc: Global,
    size: usize,
    channel: &str,
    since: Option<Position>,
    now: u64,
) -> Result<Recovery, StreamRefusal>
    requires { (1 ≤ size) × (size ≤ LARGEST_SIZE) }
    ensures ok { IfOk result (λ r. SetsAt map.old map.new channel.now
        (Some (used_at (stood_or (get_by_text map.old channel.now) r.position.epoch size) now))) }
    ensures answer { IfOk result (λ r.
        IsRecovery (stood_or (get_by_text map.old channel.now) r.position.epoch size)
        since r.position r.recovered r.publications.items) }
    ensures drawn { IfOk result (λ r.
        Draws E.draws (get_by_text map.old channel.now) r.position.epoch epochs.old epochs.new) }
    ensures no_epoch { IsErrOf result StreamRefusal.NoEpoch
        → LacksEpoch E.draws (get_by_text map.old channel.now) epochs.old epochs.new }
    ensures refusals { IfErr result (λ e. e ≢ StreamRefusal.NoEpoch
        → (e ≡ StreamRefusal.Memory) × (epochs.new ≡ epochs.old)) }
    ensures err { OnErr result ((q : List ℕ) → get_by_text map.new q ≡ get_by_text map.old q) }
{
    match map.get_mut(channel) {
        Some(stream) => stream.recover(since, now),
        None => {
            let position = open_idle(map, epochs, alloc, size, channel, now)?;
            Ok(Recovery {
                position,
                recovered: is_start(since, position.epoch),
                publications: Vec::new(alloc),
            })
        }
    }
}

/// Whether a position is the start of this epoch.
fn is_start(since: Option<Position>, epoch: Epoch) -> bool
    ensures { IsTrue result ↔ IsSomeAnd since (λ p. (p.epoch ≡ epoch) × (p.offset ≡ 0)) }
{
    match since {
        None => false,
        Some(since) => since.offset == 0 && since.epoch == epoch,
    }
}

/// The history of the channel's stream, or of a new one.
fn history_in<E: Epochs>(
    map: &mut BTreeMap<String, Stream>,
    epochs: &mut E,
    alloc: Global,
    size: usize,
    channel: &str,
    since: Option<Position>,
    limit: i32,
    now: u64,
) -> Result<History, StreamRefusal>
    requires { (1 ≤ size) × (size ≤ LARGEST_SIZE) }
    ensures ok { IfOk result (λ h. SetsAt map.old map.new channel.now
        (Some (used_at (stood_or (get_by_text map.old channel.now) h.position.epoch size) now))) }
    ensures answer { IfOk result (λ h.
        IsHistory (stood_or (get_by_text map.old channel.now) h.position.epoch size)
        since limit h.position h.publications.items) }
    ensures drawn { IfOk result (λ h.
        Draws E.draws (get_by_text map.old channel.now) h.position.epoch epochs.old epochs.new) }
    ensures wrong_epoch { IsErrOf result StreamRefusal.WrongEpoch
        ↔ IsOfAnother (get_by_text map.old channel.now) since }
    ensures no_epoch { IsErrOf result StreamRefusal.NoEpoch
        → LacksEpoch E.draws (get_by_text map.old channel.now) epochs.old epochs.new }
    ensures refusals { IfErr result (λ e. e ≢ StreamRefusal.AtLastOffset
        × (e ≢ StreamRefusal.NoEpoch → epochs.new ≡ epochs.old)) }
    ensures err { OnErr result ((q : List ℕ) → get_by_text map.new q ≡ get_by_text map.old q) }
{
    match map.get_mut(channel) {
        Some(stream) => stream.history(since, limit, now),
        None => {
            if since.is_some() {
                return Err(StreamRefusal::WrongEpoch);
            }
            let position = open_idle(map, epochs, alloc, size, channel, now)?;
            Ok(History {
                position,
                publications: Vec::new(alloc),
            })
        }
    }
}

fn trim_at(map: &mut BTreeMap<String, Stream>, channel: &str, count: usize)
    ensures { SetsAt map.old map.new channel.now
        (option_map (trimmed count) (get_by_text map.old channel.now)) }
{
    if let Some(stream) = map.get_mut(channel) {
        stream.trim(count);
    }
}

/// A moment before which nothing is due, once a stream was used now that holds what it holds for so many seconds, if nothing was
/// due before `quiet_until`.
fn quiet_after_use(quiet_until: u64, now: u64, seconds: u64) -> u64
    ensures before { result ≤ quiet_until }
    ensures used { result ≤ now + UNUSED_SECONDS }
    ensures held { result ≤ now + seconds }
{
    let seconds = seconds.min(UNUSED_SECONDS);
    quiet_until.min(now.saturating_add(seconds))
}

/// The first moment at which one of the streams may be due.
fn first_due(map: &BTreeMap<String, Stream>, namespaces: &Namespaces) -> u64
    ensures { AreQuiet result namespaces.now (get_by_text map.now) }
{
    let mut until = u64::MAX;
    for (channel, stream) in map.iter() {
        until = until.min(stream.due_from(seconds_for(namespaces, channel)));
    }
    until
}

/// Sets the size of each stream of a namespace.
fn resize_in(streams: &mut BTreeMap<String, Stream>, name: &str, size: usize)
    requires { (1 ≤ size) × (size ≤ LARGEST_SIZE) }
    ensures ordered { IsOrdered string_cmp streams.old }
    ensures entries { streams.new.entries
        ≡ map (λ e. (
          e.0,
          if in_namespace name.now (string_bytes e.0) then resized size e.1 else e.1,
        ))
        streams.old.entries }
{
    streams.retain(|channel, stream| {
        if namespace_of(channel) == name {
            stream.resize(size);
        }
        true
    });
}

fn tick_in(streams: &mut BTreeMap<String, Stream>, namespaces: &Namespaces, now: u64)
    ensures ordered { IsOrdered string_cmp streams.old }
    ensures entries { streams.new.entries
        ≡ map (λ e. (e.0, ticked now (seconds_at namespaces.now (string_bytes e.0)) e.1))
        (filter (λ e. stays now e.1) streams.old.entries) }
{
    streams.retain(|channel, stream| { stream.outlasts(now, seconds_for(namespaces, channel)) });
}

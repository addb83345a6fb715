//! One stream.
ghost use Rattle.std.specs.Prelude.{◌≡◌, ◌≢◌, ◌+◌, ◌-◌, ◌<◌, ◌≤◌, ℕ, Some, Ok, false, ◌↔◌, [], ◌∷◌, ◌++◌, ◌==◌, length, take, IfOk, IfErr, OnOk, OnErr, IsErrOf, IsOkUnless, SomeIff, IsSomeAnd, IfSome, IsNone, option_copied, if◌then◌else◌, List};
ghost use Rattle.std.specs.String.{string_bytes};
ghost use Rattle.cf_stream.specs.Stream.{datum_of, started, after_publish, pushed, answer_to, repeated_by, IsStuck, used_at, trimmed, resized, ticked, position_of, missed_from, RecoversFrom, IsWithin, start_of, stream_after, in_epoch, IsRecovery, IsHistory, IsInEpoch, newest_of, stays, is_over};
ghost use Rattle.cf_stream.specs.PublicationList.{unkeyed, Shows, GoesOn, AnswersPublish, AnswersRead, AnswersHistory, opened, offered, kept_newest, same};
ghost use Rattle.cf_protocol.specs.Datum.{Datum};
ghost use Rattle.cf_stream.specs.Calls.{RefusalsOfOne};
ghost use Rattle.cf_model.specs.Streams.{allowed_by};
ghost use Rattle.cf_stream.specs.Streams.{due_of, repeat_at};
ghost use Rattle.cf_stream.specs.Quiet.{IsQuiet};

use crate::answer::{History, Published, Recovery};
use crate::due::Due;
use crate::keys::RecentKeys;
use crate::refusal::StreamRefusal;
use crate::ring::{Ring, copies};
use cf_protocol::{Epoch, Info, Position, Publication};
use std::alloc::{AllocError, Global};
use std::marker::Model;

/// The last offset of a stream.
pub const LAST_OFFSET: u64 = 9007199254740991;

/// The most publications that a stream may hold.
pub const LARGEST_SIZE: usize = cf_protocol::LARGEST_SIZE as usize;

/// How long an unused stream stands, in seconds.
pub const UNUSED_SECONDS: u64 = 2592000;

/// The most publications of an answer.
const MOST_ANSWERED: usize = 300;

/// Whether a stream still stands after a tick.
#[derive(Clone, Copy, PartialEq, Eq, Debug)]
pub enum TickOutcome {
    Alive,
    Forgotten,
}

/// The last publications of one epoch of a channel, at most `size`, how many were published in it, and the last hundred keys.
/// They lie in a block of their own, so that a table of many channels moves words, and keeps no room for streams that it doesn't
/// have.
#[derive(Drop)]
pub struct Stream {
    inner: Box<Inner>,
}

#[derive(Drop)]
struct Inner {
    epoch: Epoch,
    size: u16,
    top: u64,
    published: u64,
    used: u64,
    ring: Ring<Publication>,
    recent: RecentKeys,
    alloc: Global,
}

impl Model for Stream {
    ghost use Rattle.std.specs.Prelude.{map};
    ghost use Rattle.cf_stream.specs.Stream.{Shown};
    ghost use Rattle.cf_stream.specs.Ring.{IsRing};

    ghost Value = { Shown };

    ghost view = { λ s. record {
      epoch = s.inner.value.epoch;
      size = s.inner.value.size;
      top = s.inner.value.top;
      held = map (λ p. p.datum) s.inner.value.ring.items;
      recent = s.inner.value.recent.items;
      published = s.inner.value.published;
      used = s.inner.value.used;
    } };

    ghost invariant = { λ s.
        IsRing s.inner.value.size s.inner.value.top s.inner.value.ring.items s.inner.value.recent.items };
}

impl Stream {
    /// An empty stream that holds up to `size` publications.
    pub fn start(alloc: Global, epoch: Epoch, size: usize) -> Result<Stream, AllocError>
        requires nonempty { epoch ≢ [] }
        requires sized { (1 ≤ size) × (size ≤ LARGEST_SIZE) }
        ensures started { IfOk result (λ s. s ≡ started epoch size 0) }
        ensures list { IfOk result (λ s. Shows s (opened epoch)) }
    {
        after_top(alloc, epoch, size, 0, 0)
    }

    /// A stream whose first `top` publications are gone, so that it holds nothing.
    pub fn start_at(
        alloc: Global,
        epoch: Epoch,
        size: usize,
        top: u64,
    ) -> Result<Stream, AllocError>
        requires nonempty { epoch ≢ [] }
        requires sized { (1 ≤ size) × (size ≤ LARGEST_SIZE) }
        requires top_fits { top ≤ LAST_OFFSET }
        ensures started { IfOk result (λ s. s ≡ started epoch size top) }
        ensures list { IfOk result (λ s. (ds : List Datum) → length ds ≡ top
            → Shows s (record { epoch = epoch; list = ds; keys = unkeyed ds; held = 0 })) }
    {
        after_top(alloc, epoch, size, top, 0)
    }

    /// A stream that is used at a moment, and is still to be given its epoch.
    pub(crate) fn unnamed(alloc: Global, size: usize, now: u64) -> Result<Stream, AllocError>
        requires { (1 ≤ size) × (size ≤ LARGEST_SIZE) }
        ensures { IfOk result (λ s. s ≡ used_at (started [] size 0) now) }
    {
        after_top(alloc, Epoch::none(), size, 0, now)
    }

    /// The stream's epoch and the offset of the last publication in it, 0 if there was none.
    pub fn position(&self) -> Position
        ensures { result ≡ position_of self.now }
    {
        let inner = self.inner.as_ref();
        Position {
            epoch: inner.epoch,
            offset: inner.top,
        }
    }

    /// How many publications are held.
    pub fn held(&self) -> usize
        ensures held { result ≡ length self.now.held }
        ensures within { IsWithin self.now }
    {
        self.inner.ring.len()
    }

    pub(crate) fn set_epoch(&mut self, epoch: Epoch)
        ensures { self.new ≡ in_epoch epoch self.old }
    {
        self.inner.epoch = epoch;
    }

    /// Where the publication stands that a publish with this key repeats, if it repeats one. It takes no memory.
    pub fn repeat_of(&self, key: &str) -> Option<Position>
        ensures { result ≡ repeat_at (Some self.now) key.now }
    {
        match self.repeated_by(key) {
            None => None,
            Some(offset) => Some(Position {
                epoch: self.inner.epoch,
                offset,
            }),
        }
    }

    /// The offset of the publication that a publish with this key repeats.
    fn repeated_by(&self, key: &str) -> Option<u64>
        ensures { result ≡ repeated_by self.now key.now }
    {
        if key.is_empty() {
            None
        } else {
            self.inner.recent.offset_of(key)
        }
    }

    /// Appends a publication at a moment in seconds, and answers its position. The oldest one held goes if there are `size`.
    /// A publish whose key is among the last hundred repeats the publication that brought it: it appends nothing, is a use alone
    /// and is answered with that one's position, without memory and at the last offset too. The empty key is none.
    pub fn publish(
        &mut self,
        body: String,
        key: String,
        info: Option<Info>,
        now: u64,
    ) -> Result<Published, StreamRefusal>
        ensures makes { OnOk result
            (self.new ≡ after_publish self.old (string_bytes key) (datum_of body info) now) }
        ensures answer { IfOk result (λ p. p ≡ answer_to self.old (string_bytes key)) }
        ensures newest { IfOk result (λ p. p.repeated ≡ false → newest_of self.new
            ≡ Some (record { offset = p.position.offset; datum = datum_of body info })) }
        ensures refusals { RefusalsOfOne self.old (string_bytes key) result }
        ensures err { OnErr result (self.new ≡ self.old) }
        ensures within { IsWithin self.new }
        ensures list { OnOk result (GoesOn self.old self.new
            (offered self.old.size (string_bytes key) (datum_of body info))) }
        ensures list_answer { IfOk result (λ p.
            AnswersPublish self.old (string_bytes key) p.position p.repeated) }
    {
        if let Some(offset) = self.repeated_by(key.as_str()) {
            let inner = self.inner.as_mut();
            inner.used = now;
            return Ok(Published {
                position: Position {
                    epoch: inner.epoch,
                    offset,
                },
                repeated: true,
            });
        }
        let inner = self.inner.as_mut();
        if inner.top == LAST_OFFSET {
            return Err(StreamRefusal::AtLastOffset);
        }
        // All room is made before anything changes.
        inner.recent.make_room(inner.alloc, key.as_str())?;
        inner.ring.make_room(inner.alloc, inner.size as usize)?;
        let offset = inner.top + 1;
        inner.recent.remember(key, offset);
        inner
            .ring
            .put(inner.size as usize, Publication { offset, body, info });
        inner.top = offset;
        inner.published = now;
        inner.used = now;
        Ok(Published {
            position: Position {
                epoch: inner.epoch,
                offset,
            },
            repeated: false,
        })
    }

    /// The publications after a position, if all of them are held and there are at most 300.
    pub fn recover(&mut self, since: Option<Position>, now: u64) -> Result<Recovery, StreamRefusal>
        ensures makes { OnOk result (self.new ≡ used_at self.old now) }
        ensures answer { IfOk result (λ r.
            IsRecovery self.old since r.position r.recovered r.publications.items) }
        ensures refusals { IsOkUnless result StreamRefusal.Memory }
        ensures err { OnErr result (self.new ≡ self.old) }
        ensures list { IfOk result (λ r.
            AnswersRead self.old since r.position r.recovered r.publications.items) }
        ensures same_list { OnOk result (GoesOn self.old self.new same) }
    {
        let position = self.position();
        let missed = self.missed_since(since);
        let publications = self.newest(missed.unwrap_or(0), MOST_ANSWERED)?;
        self.inner.used = now;
        Ok(Recovery {
            position,
            recovered: missed.is_some(),
            publications,
        })
    }

    /// How many publications came after a position that can be recovered from.
    fn missed_since(&self, since: Option<Position>) -> Option<usize>
        ensures { SomeIff result (RecoversFrom self.now since) (missed_from self.now since) }
    {
        let since = since?;
        let inner = self.inner.as_ref();
        if since.epoch != inner.epoch || since.offset > inner.top {
            return None;
        }
        let missed = inner.top - since.offset;
        if missed <= inner.ring.len().min(MOST_ANSWERED) as u64 {
            Some(missed as usize)
        } else {
            None
        }
    }

    /// How many of the publications held came after a position, None if it is of another epoch.
    fn newer_than(&self, since: Option<Position>) -> Option<usize>
        ensures other { IsNone result ↔ IsSomeAnd since (λ p. p.epoch ≢ self.now.epoch) }
        ensures within { IfSome result (λ n. n ≤ length self.now.held) }
        ensures in_epoch { IfSome result (λ _. IsInEpoch self.now since) }
        ensures newer { IfSome result (λ n.
            stream_after self.now (self.now.top - n) ≡ stream_after self.now (start_of self.now since)) }
    {
        let inner = self.inner.as_ref();
        let held = inner.ring.len();
        match since {
            None => Some(held),
            Some(since) => {
                if since.epoch == inner.epoch {
                    Some(inner.top.saturating_sub(since.offset).min(held as u64) as usize)
                } else {
                    None
                }
            }
        }
    }

    /// Copies of the first `limit` of the newest `count` publications.
    fn newest(&self, count: usize, limit: usize) -> Result<Vec<Publication>, AllocError>
        requires { count ≤ length self.now.held }
        ensures { IfOk result (λ v. v.items ≡ take limit (stream_after self.now (self.now.top - count))) }
    {
        let inner = self.inner.as_ref();
        copies(
            inner.alloc,
            &inner.ring,
            inner.ring.len() - count,
            count.min(limit),
        )
    }

    /// The first publications held after `since`, or of all that are held. A limit that is negative, or above 300, counts as 300.
    pub fn history(
        &mut self,
        since: Option<Position>,
        limit: i32,
        now: u64,
    ) -> Result<History, StreamRefusal>
        ensures makes { OnOk result (self.new ≡ used_at self.old now) }
        ensures answer { IfOk result (λ h.
            IsHistory self.old since limit h.position h.publications.items) }
        ensures wrong_epoch { IsErrOf result StreamRefusal.WrongEpoch
            ↔ IsSomeAnd since (λ p. p.epoch ≢ self.old.epoch) }
        ensures refusals { IfErr result (λ e.
            e ≢ StreamRefusal.WrongEpoch → e ≡ StreamRefusal.Memory) }
        ensures err { OnErr result (self.new ≡ self.old) }
        ensures list { IfOk result (λ h.
            AnswersHistory self.old since limit h.position h.publications.items) }
        ensures same_list { OnOk result (GoesOn self.old self.new same) }
    {
        let position = self.position();
        let Some(count) = self.newer_than(since) else {
            return Err(StreamRefusal::WrongEpoch);
        };
        let publications = self.newest(count, limit_of(limit))?;
        self.inner.used = now;
        Ok(History {
            position,
            publications,
        })
    }

    /// Keeps at most the newest `count` publications. It takes no memory.
    pub fn trim(&mut self, count: usize)
        ensures trimmed { self.new ≡ trimmed count self.old }
        ensures list { GoesOn self.old self.new (kept_newest count) }
    {
        let inner = self.inner.as_mut();
        inner.ring.keep(count);
    }

    /// Sets the size, and keeps the newest that it allows. It takes no memory, since the ring grows only in `publish`.
    pub fn resize(&mut self, size: usize)
        requires { (1 ≤ size) × (size ≤ LARGEST_SIZE) }
        ensures resized { self.new ≡ resized size self.old }
        ensures list { GoesOn self.old self.new (kept_newest size) }
    {
        let inner = self.inner.as_mut();
        inner.ring.keep(size);
        inner.size = size as u16;
    }

    /// Empties the history if `seconds` have passed since the last publication, and says whether the stream is to be forgotten,
    /// since it wasn't used for 2,592,000 seconds. A moment earlier than the last one does nothing. It takes no memory.
    pub fn tick(&mut self, now: u64, seconds: u64) -> TickOutcome
        ensures outcome { (result ≡ TickOutcome.Forgotten)
            ↔ (self.old.used + UNUSED_SECONDS ≤ now) }
        ensures ticked { self.new ≡ ticked now seconds self.old }
        ensures list { GoesOn self.old self.new
            (if is_over self.old.published seconds now then kept_newest 0 else same) }
    {
        if has_passed(self.inner.published, seconds, now) {
            self.inner.ring.clear();
        }
        if has_passed(self.inner.used, UNUSED_SECONDS, now) {
            TickOutcome::Forgotten
        } else {
            TickOutcome::Alive
        }
    }

    /// A tick, as a test of whether the stream stays.
    pub(crate) fn outlasts(&mut self, now: u64, seconds: u64) -> bool
        ensures stays { result ≡ stays now self.old }
        ensures ticked { self.new ≡ ticked now seconds self.old }
    {
        matches!(self.tick(now, seconds), TickOutcome::Alive)
    }

    /// What a tick would do.
    pub(crate) fn due(&self, now: u64, seconds: u64) -> Option<Due>
        ensures { result ≡ due_of now seconds self.now }
    {
        let inner = self.inner.as_ref();
        if has_passed(inner.used, UNUSED_SECONDS, now) {
            return Some(Due::Forget);
        }
        if has_passed(inner.published, seconds, now) && !inner.ring.is_empty() {
            return Some(Due::Empty);
        }
        None
    }

    /// The first moment at which a tick would do something, in seconds.
    pub(crate) fn due_from(&self, seconds: u64) -> u64
        ensures { IsQuiet result seconds self.now }
    {
        let inner = self.inner.as_ref();
        let unused = inner.used.saturating_add(UNUSED_SECONDS);
        if inner.ring.is_empty() {
            unused
        } else {
            unused.min(inner.published.saturating_add(seconds))
        }
    }

    /// The newest publication that is held.
    pub fn last(&self) -> Option<&Publication>
        ensures { option_copied result ≡ newest_of self.now }
    {
        self.inner.ring.back()
    }
}

/// A stream in this epoch, or in none yet, that holds nothing and is used at a moment.
fn after_top(
    alloc: Global,
    epoch: Epoch,
    size: usize,
    top: u64,
    used: u64,
) -> Result<Stream, AllocError>
    requires sized { (1 ≤ size) × (size ≤ LARGEST_SIZE) }
    requires top_fits { top ≤ LAST_OFFSET }
    ensures { IfOk result (λ s. s ≡ used_at (started epoch size top) used) }
{
    let inner = Inner {
        epoch,
        size: size as u16,
        top,
        published: 0,
        used,
        ring: Ring::new(),
        recent: RecentKeys::new(),
        alloc,
    };
    Ok(Stream {
        inner: Box::new(alloc, inner)?,
    })
}

/// Whether so many seconds have passed since a moment. None have if that moment is still to come.
fn has_passed(moment: u64, seconds: u64, now: u64) -> bool
    ensures { result ≡ is_over moment seconds now }
{
    moment <= now && now - moment >= seconds
}

/// How many publications a limit allows.
fn limit_of(limit: i32) -> usize
    ensures { result ≡ allowed_by limit }
{
    if limit < 0 || limit > MOST_ANSWERED as i32 {
        MOST_ANSWERED
    } else {
        limit as usize
    }
}

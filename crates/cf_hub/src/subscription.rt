//! How far a session is with a channel.
ghost use Rattle.std.specs.Prelude.{◌≡◌, ◌⊎◌, ◌++◌, ◌∷◌, [], true, OnOk, OnErr, None, Some, option_map};
ghost use Rattle.std.specs.Str.{bytes_eq};
ghost use Rattle.indexmap.specs.IndexSet.{remove_key};
ghost use Rattle.cf_recovery.specs.ArrivalBuffer.{arrival, given_up, nothing_kept, with_arrival};
ghost use Rattle.cf_model.specs.Recovery.{verdict};
ghost use Rattle.cf_hub.specs.Subscriptions.{IsGivenUp, SetsAt, TakesAt, coming, loses, meeting, names, progress_at, stands_after, takes, verdict_code};
ghost use Rattle.cf_hub.specs.Wordings.{at_offset};

use cf_protocol::{Epoch, Position, Publication};
use cf_recovery::{Verdict, Waiting, check};
use cf_stream::Recovery;
use indexmap::IndexMap;
use std::alloc::{AllocError, Global};

/// How far a subscription has come.
#[derive(Drop)]
pub(crate) enum Progress {
    /// The command `id` asked for it, and the stream was not read yet.
    Asked {
        id: u32,
        since: Option<Position>,
        waiting: Waiting,
    },
    /// The stream was read, and the reply was not queued yet.
    Ready {
        id: u32,
        was_recovering: bool,
        recovery: Recovery,
        waiting: Waiting,
    },
    /// The client has, or has waiting, all up to this position. Where a check found it behind, that was there.
    On {
        at: Position,
        behind_at: Option<u64>,
    },
}

/// What a delivery meets.
#[derive(Clone, Copy)]
pub(crate) enum Meets {
    /// No subscription.
    Nothing,
    /// One that waits for its reply.
    Buffer,
    /// One that is finished.
    On(Verdict),
}

/// What a delivery met, and whether memory was refused for what it was to keep.
#[derive(Clone, Copy)]
pub(crate) struct Met {
    pub meets: Meets,
    pub refused: bool,
}

impl Progress {
    /// Takes a publication that is delivered: keeps it until the reply, or goes on to it if it is the next one.
    fn take(&mut self, epoch: &Epoch, publication: &Publication) -> Met
        ensures meets { result.meets
            ≡ coming (at_offset epoch.now publication.now) self.old }
        ensures after { (self.new ≡ takes epoch.now publication.now self.old)
            ⊎ (IsGivenUp result × (self.new ≡ loses self.old)) }
    {
        match self {
            Progress::Asked { waiting, .. } => keep_in(waiting, epoch, publication),
            Progress::Ready { waiting, .. } => keep_in(waiting, epoch, publication),
            Progress::On { at, .. } => Met {
                meets: Meets::On(go_on(at, epoch, publication)),
                refused: false,
            },
        }
    }
}

/// Goes on to a publication if it is the next one.
fn go_on(at: &mut Position, epoch: &Epoch, publication: &Publication) -> Verdict
    ensures verdict { result
        ≡ verdict_code (verdict at.old (at_offset epoch.now publication.now)) }
    ensures after { at.new ≡ stands_after at.old (at_offset epoch.now publication.now) }
{
    let verdict = check(at, epoch, publication.offset);
    if verdict == Verdict::Pass {
        *at = Position {
            epoch: *epoch,
            offset: publication.offset,
        };
    }
    verdict
}

/// Keeps a publication in a buffer. Memory may be refused for it now.
fn keep_in(waiting: &mut Waiting, epoch: &Epoch, publication: &Publication) -> Met
    ensures meets { result.meets ≡ Meets.Buffer }
    ensures after { (waiting.new ≡ with_arrival (arrival epoch.now publication.now) waiting.old)
        ⊎ (IsGivenUp result × (waiting.new ≡ given_up true)) }
{
    let was_short = waiting.short();
    waiting.keep(epoch, publication);
    Met {
        meets: Meets::Buffer,
        refused: !was_short && waiting.short(),
    }
}

/// Takes a publication that is delivered to a channel.
#[tactic(auto, using(std::proofs::lemmas::Map::Text::text_keys))]
pub(crate) fn take_at(
    subscriptions: &mut IndexMap<String, Box<Progress>>,
    channel: &str,
    epoch: &Epoch,
    publication: &Publication,
) -> Met
    ensures meets { result.meets
        ≡ meeting (at_offset epoch.now publication.now)
        (progress_at subscriptions.old channel.now) }
    ensures after { TakesAt result channel.now epoch.now publication.now
        subscriptions.old subscriptions.new }
    ensures order { names subscriptions.new ≡ names subscriptions.old }
{
    match subscriptions.get_mut(channel) {
        None => Met {
            meets: Meets::Nothing,
            refused: false,
        },
        Some(progress) => progress.take(epoch, publication),
    }
}

/// Adds a subscription that the command `id` asked for to a channel that has none, behind all others. Room for nine comes with
/// the first, and is given back, since most sessions have one.
#[tactic(auto, using(std::proofs::lemmas::Map::Text::text_keys))]
pub(crate) fn add(
    subscriptions: &mut IndexMap<String, Box<Progress>>,
    alloc: Global,
    channel: &str,
    id: u32,
    since: Option<Position>,
) -> Result<(), AllocError>
    requires { progress_at subscriptions.old channel.now ≡ None }
    ensures ok { OnOk result (SetsAt subscriptions.old subscriptions.new channel.now
        (Some (Progress.Asked id since nothing_kept))) }
    ensures last { OnOk result (names subscriptions.new
        ≡ names subscriptions.old ++ channel.now ∷ []) }
    ensures err { OnErr result (subscriptions.new.entries ≡ subscriptions.old.entries) }
{
    let key = String::from_str(alloc, channel)?;
    let waiting = Waiting::new(alloc);
    let asked = Box::new(alloc, Progress::Asked { id, since, waiting })?;
    match subscriptions.insert(key, asked) {
        Ok(before) => drop(before),
        Err(refused) => {
            drop(refused);
            return Err(AllocError);
        }
    }
    if subscriptions.len() == 1 {
        subscriptions.shrink_to_fit();
    }
    Ok(())
}

/// Takes a channel's subscription out. The others keep their order, and with the last one the room is given back.
#[tactic(auto, using(std::proofs::lemmas::Map::Text::text_keys))]
pub(crate) fn take_out(subscriptions: &mut IndexMap<String, Box<Progress>>, channel: &str)
    ensures gone { SetsAt subscriptions.old subscriptions.new channel.now None }
    ensures others { names subscriptions.new
        ≡ remove_key (bytes_eq channel.now) (names subscriptions.old) }
{
    drop(subscriptions.shift_remove(channel));
    if subscriptions.is_empty() {
        subscriptions.shrink_to_fit();
    }
}

// What two threads may conclude that share a word and its owner.
ghost use Rattle.std.specs.Prelude.{◌≡◌, ◌+◌, ◌^◌, ◌<◌, ◌≤◌, ◌↔◌, ◌∷◌, ◌++◌, [], length, true, false, None, MatchBool};
ghost use mathlib.Core.List.{IsPrefix};
ghost use Rattle.cf_order.specs.Passes.{caught_up, publishes, entry_of};
ghost use Rattle.cf_order.specs.Together.{Gains, publication};

use crate::entry::Entry;
use crate::word::{Owner, Pass, ShardWord};
use std::marker::{Brand, Model, PhantomData};
use std::sync::{Mutex, Wait};
use std::thread::{Threads, join};

/// The most entries that a log has.
pub const MOST_ENTRIES: u64 = 1 << 62;

/// Which word is meant. Of what lies under a lock nothing is known but its type, so the type carries the word's name; each
/// call of a program picks it.
pub trait WordNaming {
    ghost use Rattle.atomic_table.specs.Seated.{TableId};

    ghost word: { TableId };
}

impl WordNaming for Brand {
    ghost use Rattle.std.specs.Prelude.{[]};

    ghost word = { record {
      words = 0;
      slots = 0;
      views_name = 0;
      atom = 0;
      block = 0;
      offset = 0;
      slot_names = [];
    } };
}

/// The owner of a word of this name, to lie under a lock. Contracts see it as the shard's log.
#[derive(Drop)]
pub struct NamedOwner<N: WordNaming> {
    owner: Owner,
    of: PhantomData<N>,
}

impl<N: WordNaming> Model for NamedOwner<N> {
    ghost use Rattle.std.specs.Prelude.{◌≡◌, List};
    ghost use Rattle.cf_protocol.specs.LogEntry.{Entry};

    ghost Value = { List Entry };

    ghost view = { λ o. o.owner.log };

    ghost invariant = { λ o. o.owner.word ≡ N.word };
}

impl<N: WordNaming> NamedOwner<N> {
    /// The owner of the word that `N` names.
    pub fn new(owner: Owner) -> NamedOwner<N>
        requires { owner.word ≡ N.word }
        ensures { result ≡ owner.log }
    {
        NamedOwner {
            owner,
            of: PhantomData,
        }
    }

    /// Adds an entry, and says whether it did: it did not if the log has 2^62 entries.
    pub fn append(&mut self, word: &ShardWord, pass: &mut Pass, entry: &Entry<'_>) -> bool
        requires word { word.now ≡ N.word }
        requires pass { pass.old.word ≡ N.word }
        ensures room { (result ≡ true) ↔ (length self.old < 2 ^ 62) }
        ensures log { MatchBool result (self.new ≡ self.old ++ entry_of entry.now ∷ [])
            (self.new ≡ self.old) }
        ensures seen { IsPrefix pass.old.log self.old }
        ensures pass { MatchBool result
            (pass.new
            ≡ record (caught_up pass.old self.new)
            { share = pass.old.share + publishes (entry_of entry.now) })
            (pass.new ≡ caught_up pass.old self.new) }
    {
        if self.owner.count() >= MOST_ENTRIES {
            word.follow(&mut self.owner, pass);
            return false;
        }
        word.append(&mut self.owner, pass, entry);
        true
    }
}

/// Publishes a body that no client published, under the lock, and gives the pass back with whether it did.
#[tactic(auto, using(crate::proofs::Gaining::gains_append))]
fn publish_as<'a, N: WordNaming, R: Wait>(
    rt: &R,
    word: &ShardWord,
    owner: &Mutex<NamedOwner<N>>,
    mut pass: Pass,
    channel: &'a str,
    body: &'a str,
) -> (Pass, bool)
    requires word { word.now ≡ N.word }
    requires pass { pass.word ≡ N.word }
    ensures same { result.0.word ≡ pass.word }
    ensures begins { IsPrefix pass.log result.0.log }
    ensures full { result.1 ≡ false → 2 ^ 62 ≤ length result.0.log }
    ensures published { result.1 ≡ true
        → (result.0.share ≡ pass.share + 1)
        × Gains pass.log result.0.log (publication channel.now body.now) }
{
    let published = owner.lock(rt).append(
        word,
        &mut pass,
        &Entry::Published(channel, "", body, None),
    );
    (pass, published)
}

/// Two threads publish a body each to one channel, with passes that are lent to them and handed back. If both did, the
/// pass has seen both publications, behind all that it had seen before, and two publishes more are its own. If one did not, the
/// pass has seen a log that is full.
pub fn publish_both<N: WordNaming + Send + Sync, R: Threads + Wait + Sync>(
    rt: &R,
    word: &ShardWord,
    owner: &Mutex<NamedOwner<N>>,
    pass: &mut Pass,
    channel: &str,
    first: &str,
    second: &str,
) -> bool
    requires word { word.now ≡ N.word }
    requires pass { pass.old.word ≡ N.word }
    ensures same { pass.new.word ≡ pass.old.word }
    ensures begins { IsPrefix pass.old.log pass.new.log }
    ensures full { result ≡ false → 2 ^ 62 ≤ length pass.new.log }
    ensures share { result ≡ true → pass.new.share ≡ pass.old.share + 2 }
    ensures both { result ≡ true
        → Gains pass.old.log pass.new.log (publication channel.now first.now)
        × Gains pass.old.log pass.new.log (publication channel.now second.now) }
{
    let one = word.lend(pass);
    let two = word.lend(pass);
    let ((one, a), (two, b)) = join(
        rt,
        || -> (Pass, bool)
            requires { (word.now ≡ N.word) × (one.word ≡ N.word) × (one.share ≡ 0) }
            ensures { (result.0.word ≡ N.word)
                × (result.1 ≡ false → 2 ^ 62 ≤ length result.0.log)
                × (result.1 ≡ true
                → (result.0.share ≡ 1)
                × Gains one.log result.0.log
                (publication channel.entry.now first.entry.now)) }
        { publish_as(rt, word, owner, one, channel, first) },
        || -> (Pass, bool)
            requires { (word.now ≡ N.word) × (two.word ≡ N.word) × (two.share ≡ 0) }
            ensures { (result.0.word ≡ N.word)
                × (result.1 ≡ false → 2 ^ 62 ≤ length result.0.log)
                × (result.1 ≡ true
                → (result.0.share ≡ 1)
                × Gains two.log result.0.log
                (publication channel.entry.now second.entry.now)) }
        { publish_as(rt, word, owner, two, channel, second) },
    );
    word.join(pass, one);
    word.join(pass, two);
    a && b
}

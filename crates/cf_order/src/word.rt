// The word, and the tokens that step on it.
ghost use Rattle.std.specs.Prelude.{◌≡◌, ◌+◌, ◌^◌, ◌<◌, ◌≤◌, ◌↔◌, [], ◌∷◌, ◌++◌, length, true, false, IfOk, IsTrue};
ghost use mathlib.Core.List.{IsPrefix};
ghost use Rattle.cf_order.specs.Passes.{first_pass, met, caught_up, publishes, published, entry_of};
ghost use Rattle.cf_order.specs.ShardStep.{Knows, added, compared, joined, word_given, with_share};

use crate::entry::Entry;
use crate::view::{Added, Adds, Compares, Gives, Joins, Law, Lends, Looks, TellsView, View};
use atomic_table::{Seat, Shared, Table};
use std::alloc::{AllocError, Global};
use std::marker::{Brand, Model};

/// The word of one shard: the length of the shard's log, as one atomic number. Contracts see it as its name.
///
/// All of its calls wait for nobody, and all but `new` take no memory.
#[derive(Drop)]
pub struct ShardWord {
    table: Table<u8, View, (), Law, Global>,
}

impl Model for ShardWord {
    ghost use Rattle.std.specs.Prelude.{◌≡◌};
    ghost use Rattle.atomic_table.specs.Seated.{TableId, table_id_coded};

    ghost Value = { TableId };

    ghost coded = { table_id_coded };

    ghost view = { λ w. w.table.shared.table_id };

    ghost invariant = { λ w. w.table.shared.table_id.words ≡ 1 };
}

/// The right to add to a shard's log. There is one for each word.
#[derive(Drop)]
pub struct Owner {
    count: u64,
    seat: Seat<u8, View>,
}

impl Model for Owner {
    ghost use Rattle.cf_order.specs.Passes.{OwnerState};
    ghost use Rattle.cf_order.specs.ShardStep.{IsOwner};

    ghost Value = { OwnerState };

    ghost view = { λ o. record { word = o.seat.table_id; log = o.seat.me.0.log } };

    ghost invariant = { λ o. IsOwner o.seat.me o.count };
}

/// What one caller knows of a shard's log. It can be lent, handed to another thread, met and joined.
#[derive(Drop)]
pub struct Pass {
    share: u64,
    seat: Seat<u8, View>,
}

impl Model for Pass {
    ghost use Rattle.cf_order.specs.Passes.{PassState};
    ghost use Rattle.cf_order.specs.ShardStep.{IsPass};

    ghost Value = { PassState };

    ghost view = { λ p. record {
      word = p.seat.table_id;
      log = p.seat.me.0.log;
      found = p.seat.me.0.found;
      looks = p.seat.me.0.looks;
      share = p.seat.me.0.share;
    } };

    ghost invariant = { λ p. IsPass p.seat.me p.share };
}

impl Owner {
    /// The length of the log.
    pub fn count(&self) -> u64
        ensures { result ≡ length self.now.log }
    {
        self.count
    }
}

impl Pass {
    /// How many publishes of the log are this pass's own.
    pub fn share(&self) -> u64
        ensures { result ≡ self.now.share }
    {
        self.share
    }
}

impl ShardWord {
    /// A word with an empty log, the owner of the log, and a first pass.
    ///
    /// # Errors
    ///
    /// If memory is refused.
    pub fn new(alloc: Global) -> Result<(ShardWord, Owner, Pass), AllocError>
        ensures owner { IfOk result (λ r. r.1 ≡ record { word = r.0; log = [] }) }
        ensures pass { IfOk result (λ r. r.2 ≡ first_pass r.0) }
    {
        let (table, mut seat) = Table::<u8, View, (), Law, Global>::of_words(alloc, &[0], &())?;
        let first = table.shared.split_seat::<Gives>(&mut seat);
        Ok((
            ShardWord { table },
            Owner { count: 0, seat },
            Pass {
                share: 0,
                seat: first,
            },
        ))
    }

    /// How many entries the log has, by one load. All that the pass has seen or was told of is counted; `found` is the log
    /// as it was then.
    pub fn look(&self, pass: &mut Pass) -> u64
        requires { pass.old.word ≡ self.now }
        ensures looked { pass.new
            ≡ record pass.old { found = pass.new.found; looks = pass.old.looks + 1 } }
        ensures count { result ≡ length pass.new.found }
        ensures seen { IsPrefix pass.old.log pass.new.found }
        ensures rises { IsPrefix pass.old.found pass.new.found }
        ensures share { (pass.old.share ≤ published pass.new.found) × (pass.old.share ≤ result) }
    {
        self.table.shared.load::<Looks>(&mut pass.seat, 0)
    }

    /// Whether the log has no more entries than a mark, by one load. If it says so to a pass that has seen as many entries
    /// as the mark, the log then was what the pass had seen.
    pub fn is_quiet_since(&self, pass: &mut Pass, mark: u64) -> bool
        requires { pass.old.word ≡ self.now }
        ensures looked { pass.new
            ≡ record pass.old { found = pass.new.found; looks = pass.old.looks + 1 } }
        ensures answer { IsTrue result ↔ length pass.new.found ≤ mark }
        ensures seen { IsPrefix pass.old.log pass.new.found }
        ensures rises { IsPrefix pass.old.found pass.new.found }
        ensures still { IsTrue result → length pass.old.log ≡ mark → pass.new.found ≡ pass.old.log }
    {
        let count = self.look(pass);
        count <= mark
    }

    /// A pass that has seen what the lender has, with no share of its own.
    pub fn lend(&self, pass: &mut Pass) -> Pass
        requires { pass.old.word ≡ self.now }
        ensures same { pass.new ≡ pass.old }
        ensures lent { result ≡ record pass.old { looks = 0; share = 0 } }
    {
        let seat = self.table.shared.split_seat::<Lends>(&mut pass.seat);
        Pass { share: 0, seat }
    }

    /// Takes in another pass: the longer log, and both shares.
    pub fn join(&self, pass: &mut Pass, other: Pass)
        requires pass { pass.old.word ≡ self.now }
        requires other { other.word ≡ self.now }
        ensures joined { pass.new
            ≡ record (met pass.old other) { share = pass.old.share + other.share } }
        ensures seen { IsPrefix pass.old.log pass.new.log × IsPrefix other.log pass.new.log }
        ensures found { IsPrefix pass.old.found pass.new.found
            × IsPrefix other.found pass.new.found }
    {
        let Pass { share, seat } = other;
        self.table.shared.join_seat::<Joins>(&mut pass.seat, seat);
        tell(&self.table.shared, &mut pass.seat);
        pass.share += share;
    }

    /// Both passes have seen all that either has: the longer log.
    pub fn meet(&self, one: &mut Pass, two: &mut Pass)
        requires one { one.old.word ≡ self.now }
        requires two { two.old.word ≡ self.now }
        ensures one { one.new ≡ met one.old two.old }
        ensures two { two.new ≡ record two.old { log = one.new.log; found = one.new.found } }
        ensures seen { IsPrefix one.old.log one.new.log × IsPrefix two.old.log one.new.log }
    {
        self.join(one, self.lend(two));
        self.join(two, self.lend(one));
    }

    /// Adds an entry to the log, all of which the pass has then seen. A publish counts as the pass's own.
    pub fn append(&self, owner: &mut Owner, pass: &mut Pass, entry: &Entry<'_>)
        requires owner { owner.old.word ≡ self.now }
        requires pass { pass.old.word ≡ self.now }
        requires room { length owner.old.log < 2 ^ 62 }
        ensures owner { owner.new
            ≡ record owner.old { log = owner.old.log ++ entry_of entry.now ∷ [] } }
        ensures seen { IsPrefix pass.old.log owner.old.log × IsPrefix pass.old.found owner.old.log }
        ensures share { pass.old.share ≤ published owner.old.log }
        ensures pass { pass.new
            ≡ record (caught_up pass.old owner.new.log)
            { share = pass.old.share + publishes (entry_of entry.now) } }
    {
        let table = &self.table.shared;
        take_in(table, &mut owner.seat, &mut pass.seat);
        add::<Brand>(table, &mut owner.seat, entry);
        give_back(table, &mut owner.seat, &mut pass.seat);
        owner.count += 1;
        if let Entry::Published(_, _, _, _) = entry {
            pass.share += 1;
        }
    }

    /// The pass has then seen the whole log.
    pub fn follow(&self, owner: &mut Owner, pass: &mut Pass)
        requires owner { owner.old.word ≡ self.now }
        requires pass { pass.old.word ≡ self.now }
        ensures owner { owner.new ≡ owner.old }
        ensures seen { IsPrefix pass.old.log owner.old.log × IsPrefix pass.old.found owner.old.log }
        ensures share { pass.old.share ≤ published owner.old.log }
        ensures pass { pass.new ≡ caught_up pass.old owner.old.log }
    {
        take_in(&self.table.shared, &mut owner.seat, &mut pass.seat);
        tell(&self.table.shared, &mut owner.seat);
        give_back(&self.table.shared, &mut owner.seat, &mut pass.seat);
    }
}

// The owner's seat compares its log with what the pass was told of, and has its share for now.
fn take_in(table: &Shared<u8, View, (), Law>, owner: &mut Seat<u8, View>, pass: &mut Seat<u8, View>)
    requires table { (owner.old.table_id ≡ table.now.table_id)
        × (pass.old.table_id ≡ table.now.table_id) × (0 < table.now.table_id.words) }
    requires owns { (owner.old.me.0.owns ≡ true) × (pass.old.me.0.owns ≡ false) }
    ensures owner { (owner.new.table_id ≡ owner.old.table_id)
        × (owner.new.me
        ≡ (compared owner.old.me.0 (word_given pass.old.me.0 pass.old.me.0.share), owner.old.me.1)) }
    ensures pass { (pass.new.table_id ≡ pass.old.table_id)
        × (pass.new.me ≡ (with_share pass.old.me.0 0, pass.old.me.1)) }
{
    let new = table.split_seat::<Gives>(pass);
    table.join_seat::<Compares>(owner, new);
}

// The pass's seat gets the owner's share, and the longer log.
fn give_back(
    table: &Shared<u8, View, (), Law>,
    owner: &mut Seat<u8, View>,
    pass: &mut Seat<u8, View>,
)
    requires table { (owner.old.table_id ≡ table.now.table_id)
        × (pass.old.table_id ≡ table.now.table_id) × (0 < table.now.table_id.words) }
    requires owns { pass.old.me.0.owns ≡ false }
    ensures owner { (owner.new.table_id ≡ owner.old.table_id)
        × (owner.new.me ≡ (with_share owner.old.me.0 0, owner.old.me.1)) }
    ensures pass { (pass.new.table_id ≡ pass.old.table_id)
        × (pass.new.me
        ≡ (joined pass.old.me.0 (word_given owner.old.me.0 owner.old.me.0.share), pass.old.me.1)) }
{
    let new = table.split_seat::<Gives>(owner);
    table.join_seat::<Joins>(pass, new);
}

// One step that changes no view, and tells what the seat knows. It answers the count.
fn tell(table: &Shared<u8, View, (), Law>, seat: &mut Seat<u8, View>) -> u64
    requires { (seat.old.table_id ≡ table.now.table_id) × (0 < table.now.table_id.words) }
    ensures same { (seat.new.table_id ≡ seat.old.table_id) × (seat.new.me ≡ seat.old.me) }
    ensures told { Knows seat.old.me.0 result }
{
    table.load::<TellsView>(seat, 0)
}

// One step of the owner's seat, which adds the entry that E names.
fn add<E: Added>(table: &Shared<u8, View, (), Law>, seat: &mut Seat<u8, View>, _entry: &Entry<'_>)
    requires entry { entry_of _entry.now ≡ E.entry }
    requires table { (seat.old.table_id ≡ table.now.table_id) × (0 < table.now.table_id.words) }
    requires owns { (seat.old.me.0.owns ≡ true) × (length seat.old.me.0.log < 2 ^ 62) }
    ensures log { (seat.new.table_id ≡ seat.old.table_id)
        × (seat.new.me ≡ (added seat.old.me.0 E.entry, seat.old.me.1)) }
    ensures told { Knows seat.old.me.0 (length seat.old.me.0.log) }
{
    table.fetch_add::<Adds<E>>(seat, 0, 1);
}

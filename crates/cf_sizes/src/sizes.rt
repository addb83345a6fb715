//! A namespace's size, set in one shard after another.
ghost use Rattle.std.specs.Prelude.{◌≡◌, ◌≤◌, ◌<◌, IsSome, MatchBool, slice_set};
ghost use Rattle.cf_protocol.specs.Settings.{entry_at};
ghost use Rattle.cf_shard.specs.LogAnswer.{IsSized};
ghost use Rattle.cf_shard.specs.Shards.{pass_at};
ghost use Rattle.cf_sizes.specs.Sizes.{AreSized, HasFull, IsFullFor};

use cf_broker::{Broker, Passes, SHARDS};
use cf_shard::Naming;
use cf_stream::{Epochs, LARGEST_SIZE};
use std::sync::Wait;

/// Sets how many publications the streams of a namespace may hold, in one shard of the broker after another. Says whether each
/// shard took it: one whose log is full keeps the size that it has. It takes no memory.
pub fn set_size_in_all<N: Naming, E: Epochs + Drop, R: Wait>(
    rt: &R,
    broker: &Broker<N, E>,
    passes: &mut Passes<N>,
    name: &str,
    size: usize,
) -> bool
    requires set_up { IsSome (entry_at N.namespaces name.now) }
    requires sized { (1 ≤ size) × (size ≤ LARGEST_SIZE) }
    ensures { MatchBool result (AreSized passes.old passes.new name.now size)
        (HasFull passes.new name.now size) }
{
    let mut all = true;
    for shard in 0..SHARDS {
        let taken = set_in(rt, broker, passes, shard, name, size);
        all = all && taken;
    }
    all
}

// The same in one shard.
fn set_in<N: Naming, E: Epochs + Drop, R: Wait>(
    rt: &R,
    broker: &Broker<N, E>,
    passes: &mut Passes<N>,
    shard: usize,
    name: &str,
    size: usize,
) -> bool
    requires shard { shard < SHARDS }
    requires set_up { IsSome (entry_at N.namespaces name.now) }
    requires sized { (1 ≤ size) × (size ≤ LARGEST_SIZE) }
    ensures one { passes.new ≡ slice_set passes.old shard (pass_at passes.new shard) }
    ensures taken { MatchBool result
        (IsSized (pass_at passes.old shard).log (pass_at passes.new shard).log name.now size)
        (IsFullFor (pass_at passes.new shard) name.now size) }
{
    let mut pass = passes.take(broker, shard);
    let set = broker.set_size(rt, &mut pass, shard, name, size);
    passes.put(shard, pass);
    set.is_ok()
}

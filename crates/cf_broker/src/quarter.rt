//! Four shards of the sixteen.
ghost use Rattle.std.specs.Prelude.{◌≡◌, ◌+◌, vec_len};
ghost use Rattle.cf_shard.specs.Shards.{names};

use crate::locked_shard::LockedShard;
use crate::parts::{Part, last_place};
use crate::words::NewWord;
use cf_shard::Naming;
use cf_stream::Epochs;
use std::alloc::Global;

/// Four shards, of which each has the number that follows the one before.
#[derive(Drop)]
pub(crate) struct Quarter<
    N: Naming,
    E: Epochs,
    const A: usize,
    const B: usize,
    const C: usize,
    const D: usize,
> {
    pub(crate) first: LockedShard<N, E, A>,
    pub(crate) second: LockedShard<N, E, B>,
    pub(crate) third: LockedShard<N, E, C>,
    pub(crate) fourth: LockedShard<N, E, D>,
}

/// The last four shards that can be made of these parts and words.
pub(crate) fn last_quarter<
    N: Naming,
    E: Epochs,
    const A: usize,
    const B: usize,
    const C: usize,
    const D: usize,
>(alloc: Global, parts: &mut Vec<Part<N, E>>, words: &mut Vec<NewWord>) -> Quarter<N, E, A, B, C, D>
    requires numbers { (B ≡ A + 1) × (C ≡ B + 1) × (D ≡ C + 1) }
    requires parts { vec_len parts.old ≡ D + 1 }
    requires words { words.old.items ≡ names N.words (D + 1) }
    ensures parts { vec_len parts.new ≡ A }
    ensures words { words.new.items ≡ names N.words A }
{
    let fourth = last_place(alloc, parts, words);
    let third = last_place(alloc, parts, words);
    let second = last_place(alloc, parts, words);
    let first = last_place(alloc, parts, words);
    Quarter {
        first,
        second,
        third,
        fourth,
    }
}

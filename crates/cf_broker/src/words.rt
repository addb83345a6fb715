//! Sixteen words that have no name yet, and the passes by which they are known.
ghost use Rattle.std.specs.Prelude.{◌≡◌, map, IfOk};
ghost use Rattle.cf_order.specs.Passes.{first_pass};
ghost use Rattle.cf_shard.specs.Shards.{by_number, names};

use cf_order::{Owner, Pass, ShardWord};
use std::alloc::{AllocError, Global};
use std::marker::Model;

/// A word whose log has no entries, with its owner. Contracts see the word's name.
#[derive(Drop)]
pub(crate) struct NewWord {
    pub(crate) word: ShardWord,
    pub(crate) owner: Owner,
}

impl Model for NewWord {
    ghost use Rattle.std.specs.Prelude.{◌≡◌, []};
    ghost use Rattle.atomic_table.specs.Seated.{TableId, table_id_coded};

    ghost Value = { TableId };

    ghost coded = { table_id_coded };

    ghost view = { λ p. p.word };

    ghost invariant = { λ p. p.owner ≡ record { word = p.word; log = [] } };
}

impl NewWord {
    /// A new word, and its first pass.
    fn new(alloc: Global) -> Result<(NewWord, Pass), AllocError>
        ensures { IfOk result (λ r. r.1 ≡ first_pass r.0) }
    {
        let (word, owner, pass) = ShardWord::new(alloc)?;
        Ok((NewWord { word, owner }, pass))
    }
}

/// A new word for each shard, and its first pass. Contracts see the words' names, by number.
#[derive(Drop)]
pub struct Words {
    pub(crate) list: Vec<NewWord>,
    pub(crate) passes: Vec<Pass>,
}

impl Model for Words {
    ghost use Rattle.std.specs.Prelude.{◌≡◌, List, map};
    ghost use Rattle.std.specs.Coded.{coded_list};
    ghost use Rattle.atomic_table.specs.Seated.{TableId, table_id_coded};
    ghost use Rattle.cf_order.specs.Passes.{first_pass};

    ghost Value = { List TableId };

    ghost coded = { coded_list table_id_coded };

    ghost view = { λ w. w.list.items };

    ghost invariant = { λ w. w.passes.items ≡ map first_pass w.list.items };
}

impl Words {
    /// Sixteen words. An `AllocError` where memory was refused.
    #[tactic(auto, using(crate::proofs::Numbers::firsts_more))]
    pub fn new(alloc: Global) -> Result<Words, AllocError>
        ensures { IfOk result (λ w. w ≡ names (by_number w) 16) }
    {
        let mut list = Vec::new(alloc);
        let mut passes = Vec::new(alloc);
        for _number in 0..16usize {
            let (word, pass) = NewWord::new(alloc)?;
            list.push(word)?;
            passes.push(pass)?;
        }
        Ok(Words { list, passes })
    }
}

//! Where the epochs of a running server's streams come from.
ghost use Rattle.std.specs.Prelude.{◌≡◌};
ghost use Rattle.cf_epochs.specs.Source.{AreOfShards, IsBoot, IsSource, epoch_at, unused};

use crate::boot::Boot;
use arrayvec::ArrayString;
use cf_protocol::Epoch;
use cf_stream::Epochs;
use itoa::Buffer;
use std::array;
use std::marker::Model;

/// The last number of a shard's epochs.
const LAST_COUNT: u64 = 999_999_999_999;

/// The epochs of one shard's streams: `BOOTxSHARDxCOUNT`, the count from 1 to 999,999,999,999. Those of one start differ by shard
/// or count, and those of two starts by the boot number ([`laws`](crate::laws)).
#[derive(Drop)]
pub struct BootEpochs {
    boot: u64,
    shard: u8,
    count: u64,
}

impl Model for BootEpochs {
    ghost use Rattle.std.specs.Prelude.{◌≤◌};
    ghost use Rattle.cf_epochs.specs.Source.{IsBoot, Source, last_count};

    ghost Value = { Source };

    ghost view = { λ e. record { boot = e.boot; shard = e.shard; count = e.count } };

    ghost invariant = { λ e. IsBoot e.boot × (e.count ≤ last_count) };
}

impl Epochs for BootEpochs {
    ghost use Rattle.cf_epochs.specs.Source.{draws_next};

    ghost draws = { draws_next };

    fn draw(&mut self) -> Option<Epoch> {
        if self.count == LAST_COUNT {
            return None;
        }
        self.count += 1;
        Some(self.last())
    }
}

impl BootEpochs {
    // A shard's epochs at this start, from the first.
    fn new(boot: u64, shard: u8) -> BootEpochs
        requires { IsBoot boot }
        ensures { result ≡ unused boot shard }
    {
        BootEpochs {
            boot,
            shard,
            count: 0,
        }
    }

    /// The epochs of the sixteen shards at this start, from the first. The number is used up by it.
    pub fn of_shards(boot: Boot) -> [BootEpochs; 16]
        ensures { AreOfShards boot result }
    {
        let number = boot.number();
        array::from_fn(|shard| BootEpochs::new(number, shard as u8))
    }

    // The epoch of the count.
    fn last(&self) -> Epoch
        ensures text { result ≡ epoch_at self.now }
        ensures source { IsSource self.now }
    {
        let mut digits = Buffer::new();
        let mut text = ArrayString::<32>::new();
        text.push_str(digits.format(self.boot));
        text.push_str("x");
        text.push_str(digits.format(self.shard));
        text.push_str("x");
        text.push_str(digits.format(self.count));
        Epoch::from_text(text.as_str())
    }
}

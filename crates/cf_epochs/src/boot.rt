//! The number of a start of the server.
ghost use Rattle.std.specs.Prelude.{◌≡◌, ◌↔◌, IfSome, IsSome};
ghost use Rattle.cf_epochs.specs.Source.{IsBoot};

use std::marker::Model;

/// The last boot number.
const LAST_BOOT: u64 = 999_999_999_999_999;

/// The number of a start of the server: 1 to 999,999,999,999,999. Its operator uses none twice. It can't be copied, and
/// [`BootEpochs::of_shards`](crate::BootEpochs::of_shards) takes it, so that a start's epochs are asked for once.
#[derive(Drop)]
pub struct Boot {
    number: u64,
}

impl Model for Boot {
    ghost use Rattle.std.specs.Prelude.{ℕ};
    ghost use Rattle.cf_epochs.specs.Source.{IsBoot};

    ghost Value = { ℕ };

    ghost view = { λ b. b.number };

    ghost invariant = { λ b. IsBoot b.number };

    ghost inverse = { λ n. record { number = n } };
}

impl Boot {
    /// The start of this number, if it is in the range.
    pub fn new(number: u64) -> Option<Boot>
        ensures some { IfSome result (λ b. b ≡ number) }
        ensures variant { IsSome result ↔ IsBoot number }
    {
        if number < 1 || number > LAST_BOOT {
            return None;
        }
        Some(Boot { number })
    }

    /// Its number.
    pub fn number(self) -> u64
        ensures value { result ≡ self }
        ensures range { IsBoot result }
    {
        self.number
    }
}

//! What a delivery did.
ghost use Rattle.std.specs.Prelude.{◌≡◌, ◌<◌};
ghost use Rattle.cf_hub.specs.Delivery.{none, one_more, total};

use crate::fate::Fate;

/// How many subscribers a delivery met, by what it did with them.
#[derive(Clone, Copy, PartialEq, Eq, Debug, Drop)]
pub struct Delivered {
    /// It was pushed to them.
    pub passed: u32,
    /// It was kept until their reply.
    pub kept: u32,
    /// They had it already.
    pub dropped: u32,
    /// Their subscription ended, since something before it is missing.
    pub ended: u32,
    /// Their session was closed, since it was too slow or memory was refused.
    pub closed: u32,
}

impl Delivered {
    /// None yet.
    pub(crate) fn none() -> Delivered
        ensures { result ≡ none }
    {
        Delivered {
            passed: 0,
            kept: 0,
            dropped: 0,
            ended: 0,
            closed: 0,
        }
    }

    /// These and one more.
    pub(crate) fn and(self, fate: Fate) -> Delivered
        requires { total self < 65536 }
        ensures { result ≡ one_more fate self }
    {
        let mut counts = self;
        match fate {
            Fate::Passed => counts.passed += 1,
            Fate::Kept => counts.kept += 1,
            Fate::Dropped => counts.dropped += 1,
            Fate::Ended => counts.ended += 1,
            Fate::Closed => counts.closed += 1,
        }
        counts
    }
}

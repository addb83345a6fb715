//! What a delivered publication means for a subscription that stands at a position.
ghost use Rattle.std.specs.Prelude.{◌≡◌};
ghost use Rattle.cf_recovery.specs.Meaning.{meaning};
ghost use Rattle.cf_model.specs.Recovery.{verdict};

use cf_protocol::{Epoch, Position};

/// What becomes of a publication that is delivered to a subscription.
#[derive(Clone, Copy, PartialEq, Eq, Debug)]
pub enum Verdict {
    /// It is not above the position, so the client has it already.
    Drop,
    /// It is the next one: it is passed on, and the subscription stands at it.
    Pass,
    /// Something before it is missing, or it is of another epoch: the subscription ends, and its client asks again.
    /// (Centrifugo's client protocol: insufficient state, code 2500.)
    Insufficient,
}

/// The verdict on the publication at this offset of this epoch, for a subscription that stands at `at`. Any two offsets can be
/// compared, also the largest numbers. It takes no memory.
///
/// Centrifugo, history and recovery: a subscription passes publications on in the order of their offsets, without gap or repeat.
pub fn check(at: &Position, epoch: &Epoch, offset: u64) -> Verdict
    ensures { meaning result ≡ verdict at.now (record { epoch = epoch.now; offset = offset }) }
{
    if *epoch == at.epoch {
        if offset <= at.offset {
            return Verdict::Drop;
        }
        if offset - 1 == at.offset {
            return Verdict::Pass;
        }
    }
    Verdict::Insufficient
}

//! The position check.
ghost use Rattle.std.specs.Prelude.{◌≡◌};
ghost use Rattle.cf_hub.specs.Checked.{answer_of};
ghost use Rattle.cf_model.specs.Recovery.{position_check};

use cf_protocol::Position;

/// What a position check answers.
#[derive(Clone, Copy, PartialEq, Eq, Debug, Drop)]
pub enum Checked {
    /// There is no finished subscription to check, and nothing changed.
    Nothing,
    /// Nothing is missing.
    Fine,
    /// The stream is ahead, as it may be for a while.
    Behind,
    /// The subscription ended: the stream is another one, or was ahead of this very position at the last check too.
    Ended,
}

/// What a check against the stream's position answers for a subscription that stands at `at`.
pub(crate) fn position_check(
    top: Option<Position>,
    at: &Position,
    behind_at: Option<u64>,
) -> Checked
    ensures { result ≡ answer_of (position_check top at.now behind_at) }
{
    let Some(top) = top else {
        return Checked::Ended;
    };
    if top.epoch != at.epoch {
        return Checked::Ended;
    }
    if top.offset <= at.offset {
        return Checked::Fine;
    }
    if behind_at == Some(at.offset) {
        Checked::Ended
    } else {
        Checked::Behind
    }
}

//! What a session is told of the broker's answers, and what becomes of a subscription after a check.
ghost use Rattle.std.specs.Prelude.{◌≡◌};
ghost use Rattle.cf_protocol.specs.Checks.{refusal_code};
ghost use Rattle.cf_dispatch.specs.Answers.{of_broker, goes_on, keeps_presence, mark_after};

use cf_hub::Checked;
use cf_protocol::{ErrorCode, Namespaces};
use cf_shard::Refused;

/// The error code with which a reply says that the broker refused a call: 106 at the last offset, 112 for another epoch, else
/// 100.
pub fn broker_error(refused: Refused) -> ErrorCode
    ensures { result ≡ refusal_code (of_broker refused) }
{
    match refused {
        Refused::AtLastOffset => ErrorCode::LimitExceeded,
        Refused::WrongEpoch => ErrorCode::UnrecoverablePosition,
        Refused::NoEpoch => ErrorCode::Internal,
        Refused::Memory => ErrorCode::Internal,
        Refused::AtLastCount => ErrorCode::Internal,
    }
}

/// Whether a channel's namespace is set up and keeps presence.
pub fn keeps_presence(namespaces: &Namespaces, channel: &str) -> bool
    ensures { result ≡ keeps_presence namespaces.now channel.now }
{
    match namespaces.find(channel) {
        Some(settings) => settings.presence,
        None => false,
    }
}

/// Whether a subscription goes on after its position was checked, and its client is present again by that.
pub fn goes_on(checked: Checked) -> bool
    ensures { result ≡ goes_on checked }
{
    match checked {
        Checked::Fine | Checked::Behind => true,
        Checked::Nothing | Checked::Ended => false,
    }
}

/// How long the log of the subscription's shard was at a check that was fine: while it is no longer, the next check would be fine
/// too. None after any other check.
pub fn mark_after(checked: Checked, length: u64) -> Option<u64>
    ensures { result ≡ mark_after checked length }
{
    match checked {
        Checked::Fine => Some(length),
        Checked::Behind | Checked::Nothing | Checked::Ended => None,
    }
}

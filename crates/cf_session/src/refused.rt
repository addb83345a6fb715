//! The error codes of calls that the node refused.
ghost use Rattle.std.specs.Prelude.{◌≡◌};
ghost use Rattle.cf_protocol.specs.Checks.{refusal_code};
ghost use Rattle.cf_session.specs.Refusals.{of_hub, of_stream, of_presence};

use cf_hub::HubRefusal;
use cf_presence::PresenceError;
use cf_protocol::ErrorCode;
use cf_stream::StreamRefusal;

/// The error code with which a reply says that the hub refused a call: 105 where the session has the channel already, 106 where
/// it or the node has as many as it may, else 100.
pub fn hub_error(refusal: &HubRefusal) -> ErrorCode
    ensures { result ≡ refusal_code (of_hub refusal.now) }
{
    match refusal {
        HubRefusal::NoSession => ErrorCode::Internal,
        HubRefusal::Already => ErrorCode::AlreadySubscribed,
        HubRefusal::TooMany => ErrorCode::LimitExceeded,
        HubRefusal::Memory => ErrorCode::Internal,
    }
}

/// The error code with which a reply says that the streams refused a call: 106 at the last offset, 112 for another epoch, else
/// 100.
pub fn stream_error(refusal: &StreamRefusal) -> ErrorCode
    ensures { result ≡ refusal_code (of_stream refusal.now) }
{
    match refusal {
        StreamRefusal::AtLastOffset => ErrorCode::LimitExceeded,
        StreamRefusal::WrongEpoch => ErrorCode::UnrecoverablePosition,
        StreamRefusal::NoEpoch => ErrorCode::Internal,
        StreamRefusal::Memory => ErrorCode::Internal,
    }
}

/// The error code with which a reply says that presence refused a call: 100.
pub fn presence_error(refusal: &PresenceError) -> ErrorCode
    ensures { result ≡ refusal_code (of_presence refusal.now) }
{
    match refusal {
        PresenceError::Memory => ErrorCode::Internal,
    }
}

//! The codes of errors, of unsubscribe pushes and of closes, and what they say.
ghost use Rattle.std.specs.Prelude.{◌≡◌};
ghost use Rattle.cf_protocol.specs.Codes.{code_of, close_code_of, close_reason_by};
ghost use Rattle.cf_protocol.specs.Written.{message_of as message_by, reason_of};

/// Why a command is refused. (Centrifugo's client protocol, error codes.)
#[derive(Clone, Copy, PartialEq, Eq, Debug)]
pub enum ErrorCode {
    /// No memory, no epoch left, or the session is closed: the client may ask again.
    Internal,
    /// The channel's namespace isn't set up.
    UnknownChannel,
    /// Publishing, or the history, isn't allowed in the namespace.
    PermissionDenied,
    /// The session has the channel, or is asking for it.
    AlreadySubscribed,
    /// Too many channels or subscriptions, or the last offset is reached.
    LimitExceeded,
    /// The channel is empty or too long; there is no data, or it nests too deep; the key is too long.
    BadRequest,
    /// Presence isn't kept, or the request isn't served.
    NotAvailable,
    /// A history since a position that the stream doesn't have.
    UnrecoverablePosition,
}

impl ErrorCode {
    /// The code that the protocol carries.
    pub fn code(self) -> u32
        ensures { result ≡ code_of self }
    {
        match self {
            ErrorCode::Internal => 100,
            ErrorCode::UnknownChannel => 102,
            ErrorCode::PermissionDenied => 103,
            ErrorCode::AlreadySubscribed => 105,
            ErrorCode::LimitExceeded => 106,
            ErrorCode::BadRequest => 107,
            ErrorCode::NotAvailable => 108,
            ErrorCode::UnrecoverablePosition => 112,
        }
    }
}

/// The message that stands beside an error code; empty for a code that isn't one of ours.
pub fn message_of(code: u32) -> &'static str
    ensures { result.now ≡ message_by code }
{
    match code {
        100 => "internal server error",
        102 => "unknown channel",
        103 => "permission denied",
        105 => "already subscribed",
        106 => "limit exceeded",
        107 => "bad request",
        108 => "not available",
        112 => "unrecoverable position",
        _ => "",
    }
}

/// The code of an unsubscribe push after which the client asks again: insufficient state.
pub const INSUFFICIENT: u32 = 2500;

/// The reason that stands beside an unsubscribe code; empty for a code that isn't ours.
pub fn unsubscribe_reason(code: u32) -> &'static str
    ensures { result.now ≡ reason_of code }
{
    if code == INSUFFICIENT {
        "insufficient state"
    } else {
        ""
    }
}

/// Why a session is closed. A client may connect again after a code below 3500, and not after 3500 or more.
#[derive(Clone, Copy, PartialEq, Eq, Debug)]
pub enum CloseCode {
    /// The program ends.
    Shutdown,
    /// No memory, or no room for another session.
    InternalError,
    /// A text would take the session's queue past its limit.
    Slow,
    /// A ping was not answered in time.
    NoPong,
    /// The token isn't known.
    InvalidToken,
    /// The client sent what can't be read, or what may not come there.
    BadRequest,
}

impl CloseCode {
    /// The code of the WebSocket close frame.
    pub fn code(self) -> u16
        ensures { result ≡ close_code_of self }
    {
        match self {
            CloseCode::Shutdown => 3001,
            CloseCode::InternalError => 3004,
            CloseCode::Slow => 3008,
            CloseCode::NoPong => 3012,
            CloseCode::InvalidToken => 3500,
            CloseCode::BadRequest => 3501,
        }
    }
}

/// The reason of a WebSocket close frame by the frame's code; empty for a code that isn't one of ours.
pub fn close_reason(code: u16) -> &'static str
    ensures { result.now ≡ close_reason_by code }
{
    match code {
        3001 => "shutdown",
        3004 => "internal server error",
        3008 => "slow",
        3012 => "no pong",
        3500 => "invalid token",
        3501 => "bad request",
        _ => "",
    }
}

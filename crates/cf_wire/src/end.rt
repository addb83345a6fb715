//! How a turn ends, and where it leaves the wire.
ghost use Rattle.std.specs.Prelude.{◌≡◌};
ghost use Rattle.cf_wire.specs.Stages.{told};

/// How a turn ended.
#[derive(Clone, Copy, Debug, PartialEq, Eq)]
pub enum TurnEnd {
    /// The stream gives nothing more by now, or takes nothing more: the wire waits for it.
    Idle,
    /// There may be more to read or to send: the next turn goes on.
    More,
    /// The connection was closed with this code, by either side; 1005 if the peer's close has none.
    Closed(u16),
    /// The stream failed or ended, or what came on it is no WebSocket.
    StreamFault,
    /// Memory was refused.
    Memory,
}

/// Why a wire is spent.
#[derive(Clone, Copy)]
pub enum WireEnd {
    Closed(u16),
    StreamFault,
    Memory,
}

impl WireEnd {
    /// The same as the end of a turn.
    pub fn told(self) -> TurnEnd
        ensures { result ≡ told self }
    {
        match self {
            WireEnd::Closed(code) => TurnEnd::Closed(code),
            WireEnd::StreamFault => TurnEnd::StreamFault,
            WireEnd::Memory => TurnEnd::Memory,
        }
    }
}

/// Where a wire stands.
#[derive(Clone, Copy)]
pub enum Stage {
    Open,
    /// A message waits for the stream; a close is given with its code.
    Unflushed(Option<u16>),
    /// The wire is spent.
    Over(WireEnd),
}

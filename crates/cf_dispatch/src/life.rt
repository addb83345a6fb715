//! How long a connection may stand that gets nowhere.
ghost use Rattle.std.specs.Prelude.{◌≤◌, ◌+◌, ◌↔◌, IsTrue};
ghost use Rattle.cf_dispatch.specs.Life.{seconds_for_close, seconds_for_head};

/// So many seconds after its accept a connection's head is whole, or it is dropped.
pub const SECONDS_FOR_HEAD: u64 = 10;

/// So many seconds after its close a session's socket has taken what it is told, or it is dropped.
pub const SECONDS_FOR_CLOSE: u64 = 25;

/// Whether the time for a connection's head is over, which isn't whole yet, where it was accepted at one moment and now is
/// another. Both are in seconds.
pub fn is_head_over(accepted: u64, now: u64) -> bool
    ensures { IsTrue result ↔ (accepted + seconds_for_head ≤ now) }
{
    now.saturating_sub(accepted) >= SECONDS_FOR_HEAD
}

/// Whether the time for a closed session is over, whose socket takes nothing, where it was closed at one moment and now is
/// another. Both are in seconds.
pub fn is_close_over(closed_at: u64, now: u64) -> bool
    ensures { IsTrue result ↔ (closed_at + seconds_for_close ≤ now) }
{
    now.saturating_sub(closed_at) >= SECONDS_FOR_CLOSE
}

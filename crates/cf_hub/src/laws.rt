//! What the code's sessions and sessions of notes and positions have in common. Each law is a function that does nothing else:
//! its contract is the law.
ghost use Rattle.std.specs.Prelude.{◌≡◌, ◌≤◌, ◌-◌, ℕ, List, Some, length};
ghost use Rattle.cf_protocol.specs.Datum.{Placed};
ghost use Rattle.cf_protocol.specs.Note.{Lists, Reading, placed_at, placed_from};
ghost use Rattle.cf_protocol.specs.Regular.{ArePlaced, IsBody, IsPlaced, IsPosition};
ghost use Rattle.cf_hub.specs.AlikeMoves.{CallsAreAlike, MovesAreAlike, Notes, Texts};
ghost use Rattle.cf_hub.specs.Counts.{CountsAll, CountsSession, CountsSessions};
ghost use Rattle.cf_hub.specs.InNotes.{AreMissed, Grown, IsListed, SaysSession};

use cf_recovery::laws::what_is_kept_stands;

/// What a move makes of a session of texts, it makes of the session of notes that it says.
pub fn moves_are_alike()
    ensures { (lists : Lists) → MovesAreAlike lists }
{
    what_is_kept_stands();
}

/// The same of each call of a hub.
pub fn calls_are_alike()
    ensures { (lists : Lists) → CallsAreAlike lists }
{
    moves_are_alike();
}

/// What a session says stays when the publication lists grow.
pub fn what_is_said_stays()
    ensures grows { (old new : Lists) (a : Texts) (b : Notes) → Grown old new
        → SaysSession old a b → SaysSession new a b }
    ensures listed { (lists : Lists) (c e : List ℕ) (p : Placed)
        → placed_at (lists c e) p.offset ≡ Some p → IsPlaced IsBody p → IsListed lists c e p }
    ensures read { (lists : Lists) (c : List ℕ) (r : Reading) (missed : List Placed)
        → r.top ≤ length (lists c r.epoch)
        → missed ≡ placed_from (lists c r.epoch) r.low (r.top - r.low) → ArePlaced IsBody missed
        → IsPosition (record { epoch = r.epoch; offset = r.top }) → AreMissed lists c r missed }
{}

/// The rows of a session are as many as its subscriptions, and all rows as many as the subscriptions of all sessions.
pub fn rows_are_counted()
    ensures session { CountsSession }
    ensures all { CountsAll }
{}

/// A node has all sessions that it may have exactly if it has so many.
pub fn sessions_are_counted()
    ensures { CountsSessions }
{}

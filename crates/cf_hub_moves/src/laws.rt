//! What the moves of a hub's calls make of sessions that say notes among other texts.
ghost use Rattle.cf_protocol.specs.Note.{Lists};
ghost use Rattle.cf_hub_moves.specs.Asides.{SaysAside};
ghost use Rattle.cf_hub_moves.specs.HubAsides.{MovesAmong};

use cf_recovery::laws::what_is_kept_stands;

/// Each move that a contract of a hub states of a session is a move of the notes that the session says among replies to a
/// connect, answers about presence and answers to pings, whatever memory was refused.
pub fn moves_are_among()
    ensures { (lists : Lists) → MovesAmong SaysAside lists }
{
    what_is_kept_stands();
}

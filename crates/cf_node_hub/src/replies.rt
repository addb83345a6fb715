//! What the moves of a hub's calls make of sessions that say notes among replies of their own.
ghost use Rattle.cf_protocol.specs.Note.{Lists};
ghost use Rattle.cf_hub_moves.specs.HubAsides.{MovesAmong};
ghost use Rattle.cf_node_hub.specs.Told.{IsReply};

use cf_recovery::laws::what_is_kept_stands;

/// Each move that a contract of a hub states of a session is a move of the notes that the session says among replies that it
/// gives itself, whatever memory was refused.
pub(crate) fn moves_are_among()
    ensures { (lists : Lists) → MovesAmong IsReply lists }
{
    what_is_kept_stands();
}

//! What a client makes of the texts that wait among a session's notes and say none of them.
ghost use Rattle.std.specs.Prelude.{◌≡◌, ◌≢◌, Bool, Some, true, ℕ, List};
ghost use Rattle.cf_protocol.specs.Note.{Lists, Note, outgoing_of};
ghost use Rattle.cf_protocol.specs.Outgoing.{Answer, Failed, Outgoing};
ghost use Rattle.cf_queue.specs.OutQueue.{Item};
ghost use Rattle.cf_client.specs.AppItem.{AppItem};
ghost use Rattle.cf_client.specs.ClientCalls.{PassesOver, State, Takes, TakesAll};
ghost use Rattle.cf_hub_moves.specs.HubAsides.{SaysSome};
ghost use Rattle.cf_hub_moves.specs.Asides.{IsPassedOver, SaysAside};
ghost use Rattle.cf_running_ties.specs.Passing.{AllPassed, AreEnough, IsUnasked, TakesItems, TakesText};

use cf_protocol::laws::replies_read_back;

/// A client passes over what says no note: the reply to a connect, the answers about presence, that to a
/// ping, and an error under an id that none of its asks and calls has. It stays as it is, and tells its
/// application nothing. So what a session says among such texts makes the same of a client as what says
/// the session's notes alone.
pub fn asides_are_passed_over()
    ensures frame { (os : List Outgoing) (old new : State) (told : List AppItem)
        → AllPassed os → TakesAll os old new told → PassesOver old new told }
    ensures error { (id code : ℕ) (old new : State) (told : List AppItem)
        → IsUnasked id old → Takes (Answer id (Failed code)) old new told
        → PassesOver old new told }
    ensures no_note { (lists : Lists) (note : Note) (o : Outgoing)
        → IsPassedOver o → outgoing_of lists note ≢ Some o }
    ensures text { (text : List ℕ) (old new : State) (told : List AppItem)
        → SaysAside text → TakesText text old new told → PassesOver old new told }
    ensures left_out { (is_aside : List ℕ → Bool) (lists : Lists) (items : List Item)
        (notes : List Note) (old new : State) (told : List AppItem)
        → ((text : List ℕ) → is_aside text ≡ true → SaysAside text)
        → SaysSome (λ text. is_aside text ≡ true) lists items notes
        → TakesItems items old new told → AreEnough lists notes old new told }
{
    replies_read_back();
}

//! What a session's script asks for, and what its worker has in hand in the running server.
ghost use Rattle.std.specs.Prelude.{◌≡◌, ◌∷◌, [], false, true, Some, ℕ, ℤ, List, Option};
ghost use Rattle.cf_protocol.specs.Codes.{code_of};
ghost use Rattle.cf_protocol.specs.Datum.{Datum, Placed, Who};
ghost use Rattle.cf_protocol.specs.Note.{Note};
ghost use Rattle.cf_protocol.specs.Outgoing.{Published};
ghost use Rattle.cf_protocol.specs.Position.{Position};
ghost use Rattle.cf_protocol.specs.declared.codes.ErrorCode.{ErrorCode};
ghost use Rattle.cf_model.specs.Streams.{Life};
ghost use Rattle.cf_model.specs.Sessions.{is_off};
ghost use Rattle.cf_session.specs.Calls.{Answer, Done, Found, Refused};
ghost use Rattle.cf_session.specs.CommandScripts.{after_begin, after_finish, after_leave, after_lost, after_read, granted, refuses, replies};
ghost use Rattle.cf_session.specs.Script.{Script};
ghost use Rattle.cf_machine.specs.ClientRequest.{SentCommand, Subscribe, Unsubscribe, request_of};
ghost use Rattle.cf_running.specs.Server.{AsksShard, Began, Begins, Calls, Errs, Finishes, FinishesOver, GivesUp, IsRefused, Leaves, Publishes, ReadDone, Refuses, Says, Server, Site, ToFinish, ToGiveUp, ToList, ToPublish, ToSay, server_after, life_of, ran};
ghost use Rattle.cf_running_ties.specs.InHand.{AsksBroker, HasInHand, Hears, ListsFor, MayBeRefused, by_answer, id_of, is_published};
ghost use Rattle.cf_running_ties.specs.Reads.{IsListing};

/// If a session's script begins a command, a section takes it in hand: what the script goes on with,
/// by its checks or by the hub's answer, is what the worker has in hand then.
pub fn commands_are_taken_in_hand()
    ensures refused { (site : Site) (server : Server) (k : ℕ) (who : Who) (next : Script)
        (c : SentCommand) (e : ErrorCode)
        → Hears (server.connections k) c → MayBeRefused (server.connections k) c.request
        → HasInHand site (server_after site (Refuses k (code_of e)) server) k who next
        (refuses c.id e next) }
    ensures begins { (site : Site) (server : Server) (k : ℕ) (who : Who) (next : Script)
        (c : SentCommand) (channel : List ℕ) (since : Option Position)
        → Hears (server.connections k) c → c.request ≡ Subscribe channel since
        → (server.connections k).session.closed ≡ false
        → is_off ((server.connections k).session.subs channel) ≡ true
        → HasInHand site (server_after site (Begins k) server) k who next
        (after_begin c.id channel channel since next Done) }
    ensures leaves { (site : Site) (server : Server) (k : ℕ) (who : Who) (next : Script)
        (c : SentCommand) (channel : List ℕ) (answer : Answer)
        → Hears (server.connections k) c → c.request ≡ Unsubscribe channel
        → HasInHand site (server_after site (Leaves k) server) k who next (after_leave c.id next answer) }
    ensures calls { (site : Site) (server : Server) (k : ℕ) (who : Who) (next : Script)
        (c : SentCommand) → Hears (server.connections k) c → AsksBroker c.request
        → HasInHand site (server_after site (Calls k (Some who)) server) k who next
        (granted who c.id (request_of c.request) next) }
{}

/// What a worker has in hand goes as its session's script: by each answer of broker and hub, a section
/// makes of it what the script goes on with, until the reply is said and the worker is free; and if
/// memory for a reply is refused, an error takes its place.
pub fn work_goes_as_the_script()
    ensures refused { (site : Site) (server : Server) (k : ℕ) (who : Who) (next : Script)
        (e : ErrorCode) (f : Answer → Script)
        → by_answer next (server.connections k).work ≡ Some f
        → HasInHand site (server_after site (IsRefused k (code_of e)) server) k who next (f (Refused e)) }
    ensures reads { (site : Site) (server : Server) (k : ℕ) (who : Who) (next : Script)
        (channel : List ℕ) (id : ℕ) (since : Option Position) (life : Life)
        → (server.connections k).work ≡ Began channel id since
        → life_of site server channel ≡ Some life
        → HasInHand site (ran site server (AsksShard k ∷ ReadDone k ∷ [])) k who next
        (after_read id channel next Done) }
    ensures published { (site : Site) (server : Server) (k : ℕ) (who : Who) (next : Script)
        (channel key : List ℕ) (id : ℕ) (datum : Datum)
        → (server.connections k).work ≡ ToPublish channel id key datum
        → is_published site server channel key datum ≡ true
        → HasInHand site (server_after site (Publishes k) server) k who next
        (replies id next (Found Published)) }
    ensures listed { (site : Site) (server : Server) (k : ℕ) (who : Who) (next : Script)
        (channel : List ℕ) (id : ℕ) (limit : ℤ) (position : Position) (publications : List Placed)
        → (server.connections k).work ≡ ToList channel id limit
        → IsListing site server channel limit position publications
        → ListsFor site server k who next channel id position publications }
    ensures gives_up { (site : Site) (server : Server) (k : ℕ) (who : Who) (next : Script)
        (channel : List ℕ) (id : ℕ) (e : ErrorCode) (answer : Answer)
        → (server.connections k).work ≡ ToGiveUp channel id (code_of e)
        → HasInHand site (server_after site (GivesUp k) server) k who next (after_lost id e next answer) }
    ensures finished { (site : Site) (server : Server) (k : ℕ) (who : Who) (next : Script)
        (channel : List ℕ) (answer : Answer)
        → (server.connections k).work ≡ ToFinish channel
        → HasInHand site (server_after site (Finishes k) server) k who next (after_finish next answer)
        × HasInHand site (server_after site (FinishesOver k) server) k who next
        (after_finish next answer) }
    ensures fails { (site : Site) (server : Server) (k : ℕ) (who : Who) (next : Script)
        (channel : List ℕ) (n : Note) (id : ℕ) (e : ErrorCode)
        → (server.connections k).work ≡ ToSay channel n → id_of n ≡ Some id
        → HasInHand site (server_after site (Errs k (code_of e)) server) k who next
        (refuses id e next) }
    ensures said { (site : Site) (server : Server) (k : ℕ) (who : Who) (next : Script)
        (channel : List ℕ) (n : Note) → (server.connections k).work ≡ ToSay channel n
        → HasInHand site (server_after site (Says k) server) k who next next }
{}

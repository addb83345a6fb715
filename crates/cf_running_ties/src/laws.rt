//! What ties the contracts of hub and shard to the sections of the running server.
ghost use Rattle.std.specs.Prelude.{◌≡◌, ◌⊎◌, ◌+◌, ◌++◌, ◌∷◌, [], length, Bool, IsSome, false, true, ℕ, ℤ, List, Option, None, Some};
ghost use mathlib.Core.List.{IsPrefix};
ghost use Rattle.cf_protocol.specs.Datum.{Datum, Placed};
ghost use Rattle.cf_protocol.specs.Frame.{IsCommands};
ghost use Rattle.cf_protocol.specs.LogEntry.{Entry};
ghost use Rattle.cf_protocol.specs.Note.{Lists};
ghost use Rattle.cf_protocol.specs.Position.{Position};
ghost use Rattle.cf_protocol.specs.Regular.{IsCode, IsInfo, IsPosition};
ghost use Rattle.cf_protocol.specs.Request.{Command};
ghost use Rattle.cf_protocol.specs.Settings.{NamespaceTable, settings_of};
ghost use Rattle.cf_stream.specs.ChannelLists.{PublishesAt, ReadsAt};
ghost use Rattle.cf_stream.specs.declared.answer.Published.{Published};
ghost use Rattle.cf_stream.specs.LogState.{IsState, epoch_in, life_in, list_in};
ghost use Rattle.cf_stream.specs.PublicationList.{state_of};
ghost use Rattle.cf_model.specs.Streams.{Life};
ghost use Rattle.cf_model.specs.Streams.{read_of};
ghost use Rattle.cf_stream.specs.Streams.{StreamMap, stream_of};
ghost use Rattle.cf_hub.specs.Hub.{client_id};
ghost use Rattle.cf_epochs.specs.Source.{IsSource, Source, draws_next};
ghost use Rattle.cf_link.specs.Link.{AreLeft};
ghost use Rattle.cf_order.specs.Passes.{PassState};
ghost use Rattle.cf_shard.specs.Delivery.{AreLeft as AreHandedOut, Carried, Left, carried};
ghost use Rattle.cf_shard.specs.LogAnswer.{IsHistoryAnswer, IsReadAnswer};
ghost use Rattle.cf_shard.specs.Opening.{GivesNoneTwice, StaysFresh};
ghost use Rattle.cf_shard.specs.Shard.{DrawsFor, Lent};
ghost use Rattle.cf_shard.specs.ShardLog.{entries_of_forget, entries_of_publish, entries_of_size, entries_of_tick, entries_of_trim, entries_of_use};
ghost use Rattle.cf_shard.specs.Shards.{number_of};
ghost use Rattle.cf_machine.specs.Config.{Config};
ghost use Rattle.cf_machine.specs.ReadBack.{IsDatum};
ghost use Rattle.cf_running.specs.Server.{Delivers, Offers, Publishes, Section, Server, Site, server_after, at_number, log_of, ran, start};
ghost use Rattle.cf_hub_moves.specs.HubAsides.{MovesAmong};
ghost use Rattle.cf_hub_moves.specs.Readings.{answered};
ghost use Rattle.cf_running_ties.specs.Heard.{AreHeard, SayTheirNotes};
ghost use Rattle.cf_running_ties.specs.Links.{AddsNothing, IsAnswered, IsFirst, IsNumbered, Lines, OffersCopies, Waits, is_at_link};
ghost use Rattle.cf_running_ties.specs.Reads.{AllReadBack, IsListing, IsReading, SectionHas};
ghost use Rattle.cf_node_hub.specs.Seen.{IsSound, listed_in, log_at};
ghost use Rattle.cf_running_ties.specs.Seen.{IsGood, IsSeenOf};
ghost use Rattle.cf_running_ties.specs.ShardCalls.{IsDrawn, IsGained, IsNotLast, MayAll};
ghost use Rattle.cf_running_ties.specs.ShardLife.{AreMade, Call};

use cf_epochs::laws::told_apart;
use cf_hub::laws::what_is_said_stays;
use cf_json::compact_reads_back;
use cf_recovery::laws::what_is_kept_stands;

/// Each move that a call of a hub makes of a session, in notes, whatever memory was refused, and whatever
/// other texts wait between: it is the move of one section, or of a close and one section; and what is
/// taken is a note or one of the others.
pub fn hub_moves_are_sections()
    ensures { (is_aside : List ℕ → Bool) (lists : Lists)
        → MovesAmong (λ text. is_aside text ≡ true) lists }
{
    what_is_kept_stands();
}

/// What a call of a lent shard adds to its log, by its contract, may be gained entry by entry, if an
/// epoch that is drawn is new to its channel; so the log is gained entry by entry from the start. And what
/// a read answers is what the worker then has in hand.
pub fn shard_calls_are_sections()
    ensures publishes { (config : Config) (streams : StreamMap) (log : List Entry)
        (channel key : List ℕ) (datum : Datum) (position : Position) (repeated : Bool)
        → IsState config.namespaces streams log → IsGained config log
        → IsDrawn (stream_of streams channel) log channel position.epoch
        → IsNotLast (stream_of streams channel) key
        → PublishesAt streams channel key position repeated
        → IsSome (settings_of config.namespaces channel)
        → MayAll config log
        (entries_of_publish repeated streams channel position.epoch key datum) }
    ensures uses { (config : Config) (streams : StreamMap) (log : List Entry)
        (channel epoch : List ℕ)
        → IsState config.namespaces streams log
        → IsDrawn (stream_of streams channel) log channel epoch
        → MayAll config log (entries_of_use streams channel epoch) }
    ensures trims { (config : Config) (streams : StreamMap) (log : List Entry)
        (channel : List ℕ) (count : ℕ)
        → IsState config.namespaces streams log
        → MayAll config log (entries_of_trim streams channel count) }
    ensures forgets { (config : Config) (streams : StreamMap) (log : List Entry) (channel : List ℕ)
        → IsState config.namespaces streams log
        → MayAll config log (entries_of_forget streams channel) }
    ensures sizes { (config : Config) (log : List Entry) (name : List ℕ) (size : ℕ)
        → MayAll config log (entries_of_size name size) }
    ensures ticks { (config : Config) (streams : StreamMap) (log : List Entry) (now : ℕ)
        → IsState config.namespaces streams log
        → MayAll config log (entries_of_tick streams now) }
    ensures reads { (config : Config) (streams : StreamMap) (log : List Entry) (channel : List ℕ)
        (since : Option Position) (position : Position) (recovered : Bool)
        (publications : List Placed) (life : Life)
        → IsState config.namespaces streams log
        → ReadsAt streams channel since position recovered publications
        → life_in config.namespaces (log ++ entries_of_use streams channel position.epoch) channel
        ≡ Some life
        → answered position recovered publications ≡ read_of since (state_of life) }
    ensures gained { (config : Config) (log more : List Entry)
        → IsGained config log → MayAll config log more → IsGained config (log ++ more) }
{}

/// An epoch that a shard draws is none that its log ever had, if its source is one of `cf_epochs`: over
/// any calls from an empty log, as their contracts have them. So whatever they add to the log may be gained
/// entry by entry, and nothing is left to be assumed of epochs, of the last offset or of the log.
pub fn drawn_epochs_are_new()
    ensures drawn { (table : NamespaceTable) (calls : List Call) (first old new : Lent Source)
        (channel epoch : List ℕ)
        → first.log ≡ [] → AreMade table calls first old → IsSource new.epochs
        → DrawsFor draws_next channel epoch old new
        → IsDrawn (stream_of old.streams channel) old.log channel epoch }
    ensures gained { (config : Config) (calls : List Call) (first now : Lent Source)
        → first.log ≡ [] → AreMade config.namespaces calls first now → IsGained config now.log }
{
    told_apart();
}

/// What a shard's type keeps of its epochs (`StaysFresh`) needs no premise if they come from a source of `cf_epochs`, which gives
/// none twice. Then no epoch of its log opens again, and at each point of it a stream of an epoch has all that was ever
/// published to its channel in that epoch.
pub fn no_epoch_opens_again()
    ensures sources { GivesNoneTwice draws_next }
    ensures once { (source : Source) (log before : List Entry) (channel epoch : List ℕ)
        → StaysFresh draws_next source log → IsPrefix before log
        → epoch_in before channel ≡ Some epoch
        → list_in before channel ≡ listed_in before channel epoch }
{
    told_apart();
}

/// What comes over a node's link is listed. What a shard accepted has a number, and stays listed at its
/// place; of the copies that `Shard::publish` hands out each node is offered one, which is just that, and
/// is sent it or loses it, some time after it was accepted. A publish that repeats one adds nothing, and puts
/// nothing on a link. What was sent on a link and not received is what waits there in the running server. So
/// what is received is what waits there first, which the next delivery takes.
pub fn links_carry_what_is_listed()
    ensures accepted { (site : Site) (sections : List Section) (connection : ℕ)
        (channel key : List ℕ) (datum : Datum) (answer : Published)
        → IsAnswered site (ran site start sections) connection channel key datum answer
        → answer.repeated ≡ false
        → IsNumbered site (ran site start (sections ++ Publishes connection ∷ []))
        (length (ran site start sections).accepted + 1) (carried channel answer.position datum) }
    ensures repeated { (site : Site) (server : Server) (connection : ℕ)
        (channel key : List ℕ) (datum : Datum) (answer : Published)
        → IsAnswered site server connection channel key datum answer → answer.repeated ≡ true
        → AddsNothing server (server_after site (Publishes connection) server) }
    ensures stays { (site : Site) (server : Server) (section : Section) (number : ℕ) (x : Carried)
        → IsNumbered site server number x → IsNumbered site (server_after site section server) number x }
    ensures offered { (nodes count : ℕ) (channel : List ℕ) (position : Position) (datum : Datum)
        (first last : Left) (old new : Lines)
        → AreHandedOut nodes channel position datum first
        → OffersCopies count first old last new → (n : ℕ)
        → (new n ≡ old n) ⊎ (new n ≡ old n ++ carried channel position datum ∷ []) }
    ensures starts { (site : Site) → Waits site start (λ n. []) (λ n. []) }
    ensures sent { (site : Site) (server : Server) (number n : ℕ) (x : Carried)
        (sent received : Lines)
        → IsNumbered site server number x → Waits site server sent received
        → Waits site (server_after site (Offers number n) server)
        (at_number sent n (sent n ++ x ∷ [])) received }
    ensures received { (site : Site) (server : Server) (n : ℕ) (x : Carried)
        (sent received : Lines) (left : ℕ)
        → Waits site server sent received → AreLeft (sent n) (received n ++ x ∷ []) left
        → IsFirst site server n x
        × Waits site (server_after site (Delivers n) server)
        sent (at_number received n (received n ++ x ∷ [])) }
    ensures others { (site : Site) (server : Server) (section : Section) (sent received : Lines)
        → is_at_link section ≡ false → Waits site server sent received
        → Waits site (server_after site section server) sent received }
{
    what_is_said_stays();
}

/// What a read and a history of a lent shard answer is listed, and is what the worker then has in hand: a
/// reading with its publications, and the reply of its note. So it is while all data that is listed can be
/// read back: from the start on, if all that is published can.
pub fn what_is_read_is_listed()
    ensures starts { (site : Site) → AllReadBack site start }
    ensures stays { (site : Site) (server : Server) (section : Section)
        → SectionHas IsDatum server section → AllReadBack site server
        → AllReadBack site (server_after site section server) }
    ensures reads { (site : Site) (sections : List Section) (channel : List ℕ)
        (since : Option Position) (position : Position) (recovered : Bool)
        (publications : List Placed) (seen : List Entry)
        → AllReadBack site (ran site start sections) → IsPosition position
        → IsReadAnswer site.config.namespaces seen (log_of site (ran site start sections) channel)
        channel since position recovered publications
        → IsReading site (ran site start sections)
        channel since position recovered publications }
    ensures histories { (site : Site) (sections : List Section) (channel : List ℕ)
        (limit : ℤ) (position : Position) (publications : List Placed) (seen : List Entry)
        → AllReadBack site (ran site start sections) → IsPosition position
        → IsHistoryAnswer site.config.namespaces seen
        (log_of site (ran site start sections) channel) channel None limit position publications
        → IsListing site (ran site start sections) channel limit position publications }
{
    what_is_said_stays();
}

/// What a node has seen of the shards' logs is sound, if each is gained entry by entry and what it has can be said: a stream of
/// an epoch has all that was ever published to its channel in that epoch, and that can be read back. So what the type of a node's
/// hub keeps, that each session says only what stands in what was seen, holds without a premise for such logs, as
/// `drawn_epochs_are_new` has them.
pub fn what_is_seen_is_sound()
    ensures { (config : Config) (seen : List PassState)
        → ((channel : List ℕ) → IsGood config (log_at seen channel)) → IsSound seen }
{}

/// The same by what the shards' types keep, whatever is known of how their logs came to be: what a node has seen is sound, if it is of
/// each log a beginning, no epoch opens again there (`StaysFresh`, of a source of `cf_epochs`), and what it has can be said.
pub fn what_is_seen_of_shards_is_sound()
    ensures { (shards : ℕ → Lent Source) (seen : List PassState)
        → ((channel : List ℕ) → IsSeenOf (shards (number_of channel)) (log_at seen channel))
        → IsSound seen }
{
    told_apart();
}

/// What a session makes of a text can be said again: each command that is answered has an id, the data of a
/// publish can be read back, and so can the name that a hub gives a client; and the replies that bring
/// nothing say their notes.
pub fn what_is_heard_is_regular()
    ensures commands { (text : List ℕ) (commands : List Command)
        → IsCommands text commands → AreHeard commands }
    ensures names { (user : List ℕ) (node boot count : ℕ)
        → IsInfo (Some (record { user = user; client = client_id node boot count })) }
    ensures replies { (lists : Lists) (channel : List ℕ) (id code : ℕ)
        → IsCode id → IsCode code → SayTheirNotes lists channel id code }
{
    compact_reads_back();
}

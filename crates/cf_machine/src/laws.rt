//! What holds of every run of the interval machine: stream safety.
//!
//! Each law is a function that does nothing: its contract is the law.
ghost use Rattle.std.specs.Prelude.{◌≡◌, [], ◌∷◌, ◌++◌, ◌+◌, All, List, length, ℕ};
ghost use Rattle.cf_model.specs.Clients.{last_of};
ghost use Rattle.cf_machine.specs.AnswersById.{AreForChannel};
ghost use Rattle.cf_machine.specs.Config.{Config};
ghost use Rattle.cf_machine.specs.Event.{Event};
ghost use Rattle.cf_machine.specs.FreshEpochs.{AreFresh};
ghost use Rattle.cf_machine.specs.IntervalMachine.{happens, run};
ghost use Rattle.cf_machine.specs.Leading.{IsListed, LeadsOn, coming};
ghost use Rattle.cf_machine.specs.LooseRun.{Happening, lines, loose_run};
ghost use Rattle.cf_machine.specs.PublicationList.{StandsOver, tops};
ghost use Rattle.cf_machine.specs.StreamSafety.{AreTrueTo, Safe};
ghost use Rattle.cf_machine.specs.Tellable.{IsTellable};
ghost use Rattle.cf_machine.specs.Told.{loose_trace, trace, writes};
ghost use Rattle.cf_machine.specs.World.{start};

/// The headline, of every schedule under every configuration: no two clients ever hold different publications at one place;
/// what an application gets after subscribing is a run of the stream without gap or repeat; a recovered subscription is
/// followed by exactly what was missed; and `recovered` is said exactly if, at the read, the stream still held all of that
/// within the limit of one reply.
pub fn safe_always()
    ensures { (config : Config) (events : List Event)
        → Safe config (lines events) (trace config 1 start events) }
{}

/// The same of every loose run: of what running nodes with threads do.
pub fn safe_loose()
    ensures { (config : Config) (happenings : List Happening)
        → Safe config happenings (loose_trace config 1 start happenings) }
{}

/// What an application is told of a publication is the datum that stands at its place ever after. So two entries of one place
/// have one datum.
#[tactic(auto, using(crate::proofs::Headline::true_run))]
pub fn one_datum()
    ensures { (config : Config) (events : List Event)
        → AreTrueTo (λ number. (run config start events).broker.lists)
        (trace config 1 start events) }
{}

/// After every run what waits for a client leads from its position to where its node's side stands, and no position is above
/// the publication list of its epoch.
pub fn notes_lead()
    ensures lead { (config : Config) (events : List Event) (client channel : List ℕ)
        → LeadsOn channel (((run config start events).links client).client.modes channel)
        (coming ((run config start events).links client))
        (((run config start events).links client).session.subs channel) }
    ensures listed { (config : Config) (events : List Event) (client channel : List ℕ)
        → IsListed (tops (run config start events).broker.lists channel)
        (last_of (((run config start events).links client).client.modes channel)) }
{}

/// After every run each epoch that waits is fresh: it is not empty, no stream stands in it, no channel ever had a publication
/// in it, and it waits once. So no epoch is drawn twice, whatever epochs come.
#[tactic(auto, using(crate::proofs::Headline::fresh_run))]
pub fn epochs_are_fresh()
    ensures { (config : Config) (events : List Event) → AreFresh (run config start events).broker }
{}

/// Answers are matched by id alone: after every loose run a reply or an error that is coming to a client, under the id of an ask
/// that is out, is for the channel that asks. The text of a reply names no channel.
#[tactic(auto, using(crate::proofs::OwnedRuns::answers_by_id_loose))]
pub fn answers_by_id()
    ensures { (config : Config) (happenings : List Happening) (client channel : List ℕ)
        → AreForChannel channel
        (((loose_run config start happenings).links client).client.modes channel)
        (coming ((loose_run config start happenings).links client)) }
{}

/// After every loose run a stream's top is the length of the publication list of its epoch, and it holds no more.
#[tactic(auto, using(crate::proofs::Headline::streams_stand))]
pub fn streams_stand_over_lists()
    ensures { (config : Config) (happenings : List Happening) (channel : List ℕ)
        → StandsOver ((loose_run config start happenings).broker.lists channel)
        ((loose_run config start happenings).broker.streams channel) }
{}

/// After every loose run as many keys stand in each epoch of a channel as data, the empty key among them.
#[tactic(auto, using(crate::proofs::Headline::keys_beside))]
pub fn keys_stand_beside_lists()
    ensures { (config : Config) (happenings : List Happening) (channel epoch : List ℕ)
        → length ((loose_run config start happenings).broker.keys channel epoch)
        ≡ length ((loose_run config start happenings).broker.lists channel epoch) }
{}

/// A schedule is a loose run of its lines: it leads to the same world and has the same trace.
#[tactic(auto, using(crate::proofs::Schedules::run_of_lines, crate::proofs::Schedules::trace_of_lines))]
pub fn schedules_are_loose_runs()
    ensures world { (config : Config) (events : List Event)
        → loose_run config start (lines events) ≡ run config start events }
    ensures trace { (config : Config) (events : List Event)
        → loose_trace config 1 start (lines events) ≡ trace config 1 start events }
{}

/// After every run what waits at a node for a client can be told off the publication lists: the publications that a reply or a
/// history brings are listed, and a reply that didn't recover brings none. No ping waits, since no event makes one.
#[tactic(auto, using(crate::proofs::Tellable::what_waits))]
pub fn what_waits_is_listed()
    ensures { (config : Config) (events : List Event) (client : List ℕ)
        → All (IsTellable (run config start events).broker.lists)
        ((run config start events).links client).session.notes }
{}

/// One event more takes the world that a run led to one step on, and adds its entries to the run's trace.
pub fn one_event_more()
    ensures run { (config : Config) (events : List Event) (event : Event)
        → run config start (events ++ event ∷ []) ≡ happens config (run config start events) event }
    ensures trace { (config : Config) (events : List Event) (event : Event)
        → trace config 1 start (events ++ event ∷ [])
        ≡ trace config 1 start events ++ writes config (1 + length events)
        (run config start events) event }
{}

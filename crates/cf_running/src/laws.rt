//! What ties the running server to the machine.
ghost use Rattle.std.specs.Prelude.{◌≡◌, ◌++◌, ◌∷◌, [], Bool, true, false, ℕ, ℤ, List, Option, Some, codes, option_map, slice_get};
ghost use Rattle.cf_protocol.specs.Datum.{Placed};
ghost use Rattle.cf_protocol.specs.LogEntry.{Entry};
ghost use Rattle.cf_protocol.specs.Position.{Position};
ghost use Rattle.cf_protocol.specs.Settings.{NamespaceTable};
ghost use Rattle.cf_stream.specs.ChannelLists.{stands_at as stands_in};
ghost use Rattle.cf_stream.specs.LogState.{life_in};
ghost use Rattle.cf_stream.specs.PublicationList.{IsListed, IsRead};
ghost use Rattle.cf_model.specs.Streams.{Life};
ghost use Rattle.cf_machine.specs.Config.{Config};
ghost use Rattle.cf_machine.specs.LooseRun.{Happening};
ghost use Rattle.cf_machine.specs.PublicationList.{is_repeat, stands_at};
ghost use Rattle.cf_machine.specs.World.{start};
ghost use Rattle.cf_machine.specs.Examples.{news};
ghost use Rattle.cf_machine.specs.Trace.{Closed, Published, Subscribed};
ghost use Rattle.cf_running.specs.Examples.{ann_gets, at, broken_off, comes_back, comes_between, sent_twice, shown, shrunk};
ghost use Rattle.cf_running.specs.Running.{IsInLogs, IsLooseRun};
ghost use Rattle.cf_running.specs.Server.{Section, Site, Told, lists_of, ran, repeats, start as server_start, told};
ghost use Rattle.cf_running.specs.WasRead.{IsWhatWasRead};
ghost use Rattle.cf_running.specs.ShardLogs.{Goes, IsApart, IsIn, IsTied, ListsAs, MayGain, ReadsAs, logs_after};

/// A shard's log stands beside the machine's broker: at the start, and after each entry that the log may
/// gain, if the machine goes on by that entry's happening, which is allowed. The logs of other shards
/// stand beside it as before.
pub fn logs_are_tied()
    ensures starts { (mine : List ℕ → Bool) (sizes : NamespaceTable)
        → IsTied mine sizes [] start.broker }
    ensures gains { (config : Config) (mine : List ℕ → Bool) (past : List Happening)
        (log : List Entry) (entry : Entry)
        → IsTied mine config.namespaces log (logs_after config past).broker
        → IsIn mine entry → MayGain config log entry
        → Goes config (logs_after config past) mine entry
        (IsTied mine config.namespaces (log ++ entry ∷ [])) }
    ensures apart { (config : Config) (mine its : List ℕ → Bool) (past : List Happening)
        (log other : List Entry) (entry : Entry)
        → IsTied mine config.namespaces log (logs_after config past).broker
        → IsTied its config.namespaces other (logs_after config past).broker
        → IsIn its entry → IsApart mine its entry → MayGain config other entry
        → Goes config (logs_after config past) its entry (IsTied mine config.namespaces log) }
{}

/// What is answered off a shard's log is what the machine has: where a stream stands, whether a publish
/// repeats one of it, and what is read and listed of it.
pub fn answers_are_the_machines()
    ensures positions { (config : Config) (mine : List ℕ → Bool) (past : List Happening)
        (log : List Entry) (channel : List ℕ)
        → IsTied mine config.namespaces log (logs_after config past).broker → mine channel ≡ true
        → option_map stands_in (life_in config.namespaces log channel)
        ≡ stands_at ((logs_after config past).broker.streams channel) }
    ensures repeats { (config : Config) (mine : List ℕ → Bool) (past : List Happening)
        (log : List Entry) (channel key : List ℕ)
        → IsTied mine config.namespaces log (logs_after config past).broker → mine channel ≡ true
        → repeats key (life_in config.namespaces log channel)
        ≡ is_repeat channel key (logs_after config past).broker }
    ensures reads { (config : Config) (mine : List ℕ → Bool) (past : List Happening)
        (log : List Entry) (channel : List ℕ) (life : Life) (since : Option Position)
        (position : Position) (recovered : Bool) (publications : List Placed)
        → IsTied mine config.namespaces log (logs_after config past).broker → mine channel ≡ true
        → life_in config.namespaces log channel ≡ Some life
        → IsRead life since position recovered publications
        → ReadsAs (logs_after config past).broker channel since position recovered publications }
    ensures histories { (config : Config) (mine : List ℕ → Bool) (past : List Happening)
        (log : List Entry) (channel : List ℕ) (life : Life) (since : Option Position) (limit : ℤ)
        (position : Position) (publications : List Placed)
        → IsTied mine config.namespaces log (logs_after config past).broker → mine channel ≡ true
        → life_in config.namespaces log channel ≡ Some life
        → IsListed life since limit position publications
        → ListsAs (logs_after config past).broker channel since limit position publications }
{}

/// Every run of the server's sections, in whatever order threads take them, is a loose run of the
/// machine: applications are told the same, the logs list the same, and that is safe.
pub fn running_is_loose()
    ensures { (site : Site) (sections : List Section) → IsLooseRun site sections }
{}

/// So whatever an application is told of a publication, after any run, is the datum that the log of its
/// channel's shard has at that place.
pub fn told_is_in_the_logs()
    ensures { (site : Site) (sections : List Section) (i : ℕ) (entry : Told)
        → slice_get (told site server_start sections) i ≡ Some entry
        → IsInLogs (lists_of site (ran site server_start sections)) entry }
{}

/// Whatever an application is told of its subscription is what was read of the stream for its ask: the
/// position at which the stream then stood, and `recovered` exactly if it was in the client's epoch and
/// held all that followed the client's position, 300 publications at most. Of sections alone.
pub fn told_is_what_was_read()
    ensures { (site : Site) (sections : List Section) (i : ℕ) (x c : List ℕ)
        (was_recovering recovered : Bool) (at : Position)
        → slice_get (told site server_start sections) i
        ≡ Some (record { client = x; item = Subscribed c was_recovering recovered at })
        → IsWhatWasRead site sections i x c was_recovering recovered at }
{}

/// Runs in which sections fall between one another, and what is told in them.
pub fn examples()
    ensures comes_between { shown comes_between ≡ ann_gets (Subscribed news false false (at 0))
        ∷ ann_gets (Published news (at 1) (codes "1"))
        ∷ ann_gets (Published news (at 2) (codes "2")) ∷ [] }
    ensures comes_back { shown comes_back ≡ ann_gets (Subscribed news false false (at 0))
        ∷ ann_gets (Published news (at 1) (codes "1"))
        ∷ ann_gets (Published news (at 2) (codes "2"))
        ∷ ann_gets (Subscribed news true true (at 3))
        ∷ ann_gets (Published news (at 3) (codes "3")) ∷ [] }
    ensures sent_twice { shown sent_twice ≡ ann_gets (Subscribed news false false (at 0))
        ∷ ann_gets (Published news (at 1) (codes "1"))
        ∷ ann_gets (Published news (at 2) (codes "3")) ∷ [] }
    ensures shrunk { shown shrunk ≡ ann_gets (Subscribed news false false (at 0))
        ∷ ann_gets (Published news (at 1) (codes "1"))
        ∷ ann_gets (Published news (at 2) (codes "2"))
        ∷ ann_gets (Subscribed news true false (at 4)) ∷ [] }
    ensures broken_off { shown broken_off ≡ ann_gets (Subscribed news false false (at 0))
        ∷ ann_gets (Closed 3004) ∷ [] }
{}

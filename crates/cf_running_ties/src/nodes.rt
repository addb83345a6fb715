//! What the contracts of a hub say of all sessions of a node.
ghost use Rattle.std.specs.Prelude.{◌≡◌, nat_lt, Bool, None, Some, true, ℕ, List, Option};
ghost use Rattle.cf_hub.specs.AlikeMoves.{Notes, Texts};
ghost use Rattle.cf_hub.specs.Hub.{Delivers as HubDelivers, Meets, Node, One, Opens, OthersStay, Ticks, attached_at, empty};
ghost use Rattle.cf_hub.specs.Session.{Attached};
ghost use Rattle.cf_hub.specs.WantOfMemory.{OrCloses};
ghost use Rattle.cf_hub.specs.Wordings.{plain};
ghost use Rattle.cf_shard.specs.Delivery.{Carried};
ghost use Rattle.cf_running.specs.Server.{Attaches, Connection, Delivers, Detaches, Section, Server, Site, Wanders, server_after, at_number, change, lists_of, start};
ghost use Rattle.cf_hub_moves.specs.HubAsides.{KeepSaying, MovesOrCloses};
ghost use Rattle.cf_running_ties.specs.Links.{IsFirst};
ghost use Rattle.cf_running_ties.specs.Nodes.{ClosesAnd, ClosesAndPings, IsHubOf, IsUntouched, Moves, MovesBehindClose, Says};

use crate::laws::hub_moves_are_sections;

/// A node's hub stands beside the connections at the node, session by session, from the start on and after
/// each call. What `Hub::deliver` makes of all sessions is one delivery to the node, behind closes of those
/// that were too slow or found no memory; what `Hub::tick` makes of them are closes and pings. A session
/// comes, changes or goes as its connection does; it may go while its worker has something in hand. And a
/// section that leaves the sessions of the node alone leaves all as it was, also if publication lists
/// grow.
pub fn hubs_stay_beside_their_nodes()
    ensures starts { (is_aside : List ℕ → Bool) (site : Site) (n boot : ℕ)
        → IsHubOf is_aside site start n (λ j. None) (empty n boot) }
    ensures delivers { (is_aside : List ℕ → Bool) (site : Site) (server : Server) (n : ℕ)
        (numbers : ℕ → Option ℕ) (old new : Node) (x : Carried)
        → IsHubOf is_aside site server n numbers old
        → IsFirst site server n x → HubDelivers x.channel x.epoch x.publication old new
        → ClosesAnd is_aside site server n numbers (Delivers n) new }
    ensures ticks { (is_aside : List ℕ → Bool) (site : Site) (server : Server) (n now : ℕ)
        (numbers : ℕ → Option ℕ) (old new : Node)
        → IsHubOf is_aside site server n numbers old
        → Ticks now old new → ClosesAndPings is_aside site server n numbers new }
    ensures attaches { (is_aside : List ℕ → Bool) (site : Site) (server : Server) (n j now : ℕ)
        (numbers : ℕ → Option ℕ) (old new : Node) (user client : List ℕ)
        → IsHubOf is_aside site server n numbers old → Opens j user now old new
        → attached_at old j ≡ None → server.connection_of client ≡ None
        → nat_lt n site.config.nodes ≡ true
        → IsHubOf is_aside site (server_after site (Attaches client n) server) n
        (at_number numbers j (Some server.count)) new }
    ensures wanders { (is_aside : List ℕ → Bool) (site : Site) (server : Server) (n j now : ℕ)
        (numbers : ℕ → Option ℕ) (old new : Node) (user : List ℕ)
        → IsHubOf is_aside site server n numbers old → Opens j user now old new
        → attached_at old j ≡ None → nat_lt n site.config.nodes ≡ true
        → IsHubOf is_aside site (server_after site (Wanders n) server) n
        (at_number numbers j (Some server.count)) new }
    ensures one { (is_aside : List ℕ → Bool) (site : Site) (server : Server) (n j k : ℕ)
        (numbers : ℕ → Option ℕ) (old new : Node) (f : Connection → Connection) (a : Attached)
        → IsHubOf is_aside site server n numbers old → numbers j ≡ Some k
        → OthersStay j old new → attached_at new j ≡ Some a
        → (f (server.connections k)).node ≡ n → (f (server.connections k)).attached ≡ true
        → Says is_aside (lists_of site server) a.state (f (server.connections k)).session
        → IsHubOf is_aside site (change k f server) n numbers new }
    ensures detaches { (is_aside : List ℕ → Bool) (site : Site) (server : Server) (n j k code : ℕ)
        (numbers : ℕ → Option ℕ) (old new : Node)
        → IsHubOf is_aside site server n numbers old → numbers j ≡ Some k
        → attached_at new j ≡ None → OthersStay j old new
        → IsHubOf is_aside site (server_after site (Detaches k code) server) n
        (at_number numbers j None) new }
    ensures stays { (is_aside : List ℕ → Bool) (site : Site) (server : Server) (n : ℕ)
        (numbers : ℕ → Option ℕ) (hub : Node) (section : Section)
        → IsHubOf is_aside site server n numbers hub
        → ((k : ℕ) → IsUntouched n (server.connections k)
        ((server_after site section server).connections k))
        → IsHubOf is_aside site (server_after site section server) n numbers hub }
{
    hub_moves_are_sections();
}

/// What the contract of a call says of one session of a hub is what a section makes of its connection,
/// perhaps behind a close. By `hub_moves_are_sections` it is so of each move and of each meeting that a
/// contract of `Hub` states.
pub fn calls_for_one_session_are_sections()
    ensures moves { (is_aside : List ℕ → Bool) (site : Site) (server : Server) (n j k : ℕ)
        (numbers : ℕ → Option ℕ) (old new : Node) (f : Texts → Texts) (g : Notes → Notes)
        (t : Connection → Connection)
        → IsHubOf is_aside site server n numbers old → numbers j ≡ Some k → One j f old new
        → KeepSaying (λ text. is_aside text ≡ true) (lists_of site server) f g → Moves g t
        → IsHubOf is_aside site (change k t server) n numbers new }
    ensures meets { (is_aside : List ℕ → Bool) (site : Site) (server : Server) (n j k : ℕ)
        (numbers : ℕ → Option ℕ) (old new : Node) (f : Texts → Texts) (g : Notes → Notes)
        (t : Connection → Connection)
        → IsHubOf is_aside site server n numbers old → numbers j ≡ Some k
        → Meets j (λ hit. OrCloses hit plain f) old new
        → ((hit : Bool) (a to : Texts) (b : Notes)
        → Says is_aside (lists_of site server) a b → OrCloses hit plain f a to
        → MovesOrCloses (λ text. is_aside text ≡ true) (lists_of site server) g to b) → Moves g t
        → MovesBehindClose is_aside site server n k numbers t new }
{}

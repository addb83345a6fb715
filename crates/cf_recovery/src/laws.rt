//! What the definitions of this crate amount to. Each law is a function that does nothing: its contract is the law.
ghost use Rattle.std.specs.Prelude.{◌≡◌, ◌+◌, ◌≤◌, ◌↔◌, ◌==◌, ◌&&◌, ◌||◌, List, false, true, ℕ};
ghost use Rattle.std.specs.Str.{bytes_eq};
ghost use Rattle.cf_protocol.specs.Note.{Reading};
ghost use Rattle.cf_protocol.specs.Position.{Position};
ghost use Rattle.cf_model.specs.Recovery.{AreOnce, arrives, has, overfull};
ghost use Rattle.cf_recovery.specs.ArrivalBuffer.{Arrival, IsWithin, ArrivalBuffer, StandsFor, places, with_arrival};
ghost use Rattle.cf_model.specs.Recovery.{LiesWithin, Reaches, falls_short, run_length};

/// What arrives is a set: a position that comes is in it, none other becomes so, and each is there once.
pub fn arrivals_are_a_set()
    ensures member { (q : Position) (arrived : List Position) (e : List ℕ) (i : ℕ)
        → has (arrives q arrived) e i
        ≡ ((bytes_eq q.epoch e && (q.offset == i)) || has arrived e i) }
    ensures once { (q : Position) (arrived : List Position) → AreOnce arrived
        → AreOnce (arrives q arrived) }
{}

/// The run that a release passes on ends at the greatest offset up to which everything above the reply's position arrived,
/// if no more arrived than are kept; else it is empty. The release falls short exactly if more arrived than are kept,
/// or a position of another epoch or above the run's end.
pub fn run_ends_at_the_greatest()
    ensures reached { (arrived : List Position) (r : Reading)
        → Reaches arrived r.epoch r.top (r.top + run_length arrived r) }
    ensures greatest { (arrived : List Position) (r : Reading) (n : ℕ)
        → overfull arrived ≡ false → Reaches arrived r.epoch r.top n
        → n ≤ r.top + run_length arrived r }
    ensures overfull { (arrived : List Position) (r : Reading) → overfull arrived ≡ true
        → run_length arrived r ≡ 0 }
    ensures sufficient { (arrived : List Position) (r : Reading)
        → (falls_short arrived r ≡ false)
        ↔ ((overfull arrived ≡ false)
        × LiesWithin arrived r.epoch (r.top + run_length arrived r)) }
{}

/// What is kept goes on standing for the positions that arrived, and while no memory was refused a release of it passes on as
/// many, and falls short if they do.
pub fn what_is_kept_stands()
    ensures within { (a : Arrival) (k : ArrivalBuffer) → IsWithin k → IsWithin (with_arrival a k) }
    ensures arrival { (a : Arrival) (k : ArrivalBuffer) (arrived : List Position)
        → StandsFor k arrived
        → StandsFor (with_arrival a k) (arrives a.at arrived) }
    ensures run { (k : ArrivalBuffer) (arrived : List Position) (r : Reading) → IsWithin k
        → StandsFor k arrived → k.short ≡ false
        → run_length (places k.arrived) r ≡ run_length arrived r }
    ensures short { (k : ArrivalBuffer) (arrived : List Position) (r : Reading) → IsWithin k
        → StandsFor k arrived → k.short ≡ false
        → (k.overflow || falls_short (places k.arrived) r) ≡ falls_short arrived r }
{}

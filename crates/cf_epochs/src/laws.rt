//! What follows of the epochs that sources give: none is ever given twice.
//!
//! Each law is a function that does nothing: its contract is the law.
ghost use Rattle.std.specs.Prelude.{◌≡◌, ◌≢◌, List, ℕ};
ghost use Rattle.std.specs.List.{All, AllPairs};
ghost use Rattle.cf_epochs.specs.Source.{AreOthers, Gives, IsSource, Source, epoch_at};

/// Two sources gave one epoch last only if their boot numbers, shards and counts are the same.
#[tactic(auto, using(crate::proofs::Spelling::told_apart))]
pub fn told_apart()
    ensures { (s t : Source) → IsSource s → IsSource t → epoch_at s ≡ epoch_at t → s ≡ t }
{}

/// A source gives no epoch twice.
#[tactic(auto, using(crate::proofs::Spelling::never_twice))]
pub fn never_twice()
    ensures { (s t : Source) (es : List (List ℕ)) → IsSource t → Gives s es t → AllPairs ◌≢◌ es }
{}

/// Sources of two starts, or of two shards, give no epoch both.
#[tactic(auto, using(crate::proofs::Spelling::never_both))]
pub fn never_both()
    ensures { (s t u v : Source) (es fs : List (List ℕ)) → AreOthers s u → IsSource t → IsSource v
        → Gives s es t → Gives u fs v → All (λ e. All (λ f. e ≢ f) fs) es }
{}

//! The epochs that wait for streams.
ghost use Rattle.std.specs.Prelude.{◌≡◌, ◌↔◌, ℕ, ◌==◌, ◌||◌, false, if◌then◌else◌, IsTrue, OnOk};
ghost use Rattle.std.specs.Prelude.{List, [], ◌∷◌, ◌++◌, length};
ghost use Rattle.std.specs.BTreeSet.{contains_text};
ghost use Rattle.std.specs.Str.{bytes_eq};

use cf_protocol::Epoch;
use cf_stream::Epochs;
use std::alloc::{AllocError, Global};
use std::collections::{BTreeSet, VecDeque};

/// The epochs that wait, the next one first. None comes twice.
#[derive(Drop)]
pub(crate) struct WaitingEpochs {
    waiting: VecDeque<Epoch>,
    came: BTreeSet<String>,
    alloc: Global,
}

impl WaitingEpochs {
    pub(crate) fn new(alloc: Global) -> WaitingEpochs
        ensures waiting { result.waiting.items ≡ [] }
        ensures came { (e : List ℕ) → contains_text result.came e ≡ false }
    {
        WaitingEpochs {
            waiting: VecDeque::new(alloc),
            came: BTreeSet::new(alloc),
            alloc,
        }
    }

    /// Whether none waits.
    pub(crate) fn is_empty(&self) -> bool
        ensures { IsTrue result ↔ (self.now.waiting.items ≡ []) }
    {
        self.waiting.is_empty()
    }

    /// An epoch waits, behind the others. An empty one, and one that came before, changes nothing.
    #[tactic(auto, using(std::proofs::lemmas::Map::Text::text_keys))]
    pub(crate) fn add(&mut self, epoch: Epoch) -> Result<(), AllocError>
        ensures waiting { OnOk result (self.new.waiting.items ≡
            (if (length epoch == 0) || contains_text self.old.came epoch
            then self.old.waiting.items else self.old.waiting.items ++ epoch ∷ [])) }
        ensures came { OnOk result ((e : List ℕ) → contains_text self.new.came e ≡
            (if (length epoch == 0) || contains_text self.old.came epoch
            then contains_text self.old.came e
            else bytes_eq epoch e || contains_text self.old.came e)) }
    {
        if epoch.is_empty() || self.came.contains(epoch.as_str()) {
            return Ok(());
        }
        let key = String::from_str(self.alloc, epoch.as_str())?;
        self.came.insert(key)?;
        self.waiting.push_back(epoch)?;
        Ok(())
    }
}

impl Epochs for WaitingEpochs {
    ghost use Rattle.std.specs.Prelude.{◌≡◌, slice_get, drop};

    // the front one, if one waits
    ghost draws = { λ old epoch new. (epoch ≡ slice_get old.waiting.items 0)
        × (new.waiting.items ≡ drop 1 old.waiting.items) × (new.came ≡ old.came) };

    fn draw(&mut self) -> Option<Epoch> {
        self.waiting.pop_front()
    }
}

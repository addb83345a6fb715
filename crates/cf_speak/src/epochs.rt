//! The epochs that a conversation's streams are given, in order.
ghost use Rattle.std.specs.Prelude.{◌≡◌, ◌↔◌, IfOk, OnOk, IsErrOf, IsTrue};
ghost use Rattle.std.specs.List.{list_any};
ghost use Rattle.std.specs.Str.{bytes_eq};
ghost use Rattle.cf_speak.specs.Drawing.{words_of, AreGiven, CanFollow};

use cf_protocol::{Epoch, ReadFault};
use cf_stream::Epochs;
use std::alloc::Global;
use std::collections::VecDeque;
use std::marker::Model;

/// The epochs that are left, the next one first.
#[derive(Drop)]
pub struct GivenEpochs {
    left: VecDeque<Epoch>,
}

impl Model for GivenEpochs {
    ghost use Rattle.std.specs.Prelude.{ℕ, List};

    ghost Value = { List (List ℕ) };

    ghost view = { λ e. e.left.items };
}

impl Epochs for GivenEpochs {
    ghost use Rattle.cf_speak.specs.Drawing.{draws_front};

    ghost draws = { draws_front };

    fn draw(&mut self) -> Option<Epoch> {
        self.left.pop_front()
    }
}

impl GivenEpochs {
    /// Reads epochs separated by `,`: 1 to 32 ASCII letters or digits each, none twice.
    ///
    /// # Errors
    ///
    /// `Bad` is any other text, the empty one among them; `Memory` if memory is refused.
    pub fn read(alloc: Global, text: &str) -> Result<GivenEpochs, ReadFault>
        ensures found { IfOk result (λ epochs. epochs ≡ words_of text.now) }
        ensures given { OnOk result (AreGiven (words_of text.now)) }
        ensures bad { IsErrOf result ReadFault.Bad → AreGiven (words_of text.now) → ⊥ }
    {
        let mut left = VecDeque::new(alloc);
        for word in text.split(',') {
            if !can_follow(&left, word) {
                return Err(ReadFault::Bad);
            }
            left.push_back(Epoch::from_text(word))?;
        }
        Ok(GivenEpochs { left })
    }
}

/// Whether a word is an epoch that isn't given yet.
fn can_follow(epochs: &VecDeque<Epoch>, word: &str) -> bool
    ensures { IsTrue result ↔ CanFollow epochs.now.items word.now }
{
    let epoch = Epoch::from_text(word);
    !epoch.is_empty() && !is_among(epochs, &epoch)
}

fn is_among(epochs: &VecDeque<Epoch>, epoch: &Epoch) -> bool
    ensures { result ≡ list_any (bytes_eq epoch.now) epochs.now.items }
{
    epochs.iter().any(|one| epoch == one)
}

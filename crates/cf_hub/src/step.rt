//! What a call did with one session.
ghost use Rattle.std.specs.Prelude.{◌≡◌, false};

use crate::fate::Fate;

/// What a call did with a session, and whether memory was refused for it.
#[derive(Clone, Copy)]
pub(crate) struct Step {
    pub fate: Fate,
    pub refused: bool,
}

impl Step {
    /// Nothing was done.
    pub(crate) fn none() -> Step
        ensures { result ≡ record { fate = Fate.Dropped; refused = false } }
    {
        Step {
            fate: Fate::Dropped,
            refused: false,
        }
    }

    /// What was to be done is done.
    pub(crate) fn passed() -> Step
        ensures { result ≡ record { fate = Fate.Passed; refused = false } }
    {
        Step {
            fate: Fate::Passed,
            refused: false,
        }
    }
}

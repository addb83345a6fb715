//! To which of those who wait a turn of the IO loop comes first.
ghost use Rattle.std.specs.Prelude.{◌≡◌};
ghost use Rattle.cf_dispatch.specs.Rota.{NobodyIsPassedOver, after, behind, first, new_order};

use std::marker::Model;

/// Those who wait for a turn, by what it is expected to cost.
#[derive(Clone, Copy, PartialEq, Eq, Drop)]
pub enum Group {
    /// It is cheap.
    Cheap,
    /// It is costly.
    Dear,
    /// Nothing is known of them.
    Fresh,
}

/// So many groups there are.
pub const GROUPS: usize = 3;

/// In so many turns of sixteen those whose turns are cheap come first.
const CHEAP_FIRST: u32 = 15;

impl Group {
    /// The group behind it, round and round.
    pub fn behind(self) -> Group
        ensures { result ≡ behind self }
    {
        match self {
            Group::Cheap => Group::Dear,
            Group::Dear => Group::Fresh,
            Group::Fresh => Group::Cheap,
        }
    }
}

/// To which group a turn of the loop comes first, and from there on round and round.
///
/// A group has its chance where nothing holds up those who may be held as the turn comes to it. Who comes first may fill the
/// links, and leave none to the others: so turns are counted in which some groups had their chance and some had none. Of sixteen
/// of these the cheap ones come first in fifteen, and then one of the two others, each in its turn.
#[derive(Drop)]
pub struct Rota {
    // In so many turns the cheap ones still come first.
    left: u32,
    // Whether of the others those come first next of whom nothing is known.
    is_fresh: bool,
}

impl Model for Rota {
    ghost use Rattle.cf_dispatch.specs.Rota.{Order};

    ghost Value = { Order };

    ghost view = { λ r. record { left = r.left; is_fresh = r.is_fresh } };
}

impl Rota {
    /// Before the first turn.
    pub fn new() -> Rota
        ensures { result ≡ new_order }
    {
        Rota {
            left: CHEAP_FIRST,
            is_fresh: true,
        }
    }

    /// The group to which the turn comes first.
    pub fn first(&self) -> Group
        ensures { result ≡ first self.now }
    {
        if self.left > 0 {
            Group::Cheap
        } else if self.is_fresh {
            Group::Fresh
        } else {
            Group::Dear
        }
    }

    /// A turn ends in which so many groups, from the first on, had their chance.
    pub fn ends(&mut self, chances: usize)
        ensures { self.new ≡ after chances self.old }
    {
        if chances == 0 || chances == GROUPS {
            return;
        }
        if self.left > 0 {
            self.left -= 1;
        } else {
            self.left = CHEAP_FIRST;
            self.is_fresh = !self.is_fresh;
        }
    }
}

/// What the order promises: each group comes first after so many turns that are counted, with each of them one less.
pub fn nobody_is_passed_over()
    ensures { NobodyIsPassedOver }
{}

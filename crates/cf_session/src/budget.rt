//! How much of a text's work one turn does.
ghost use Rattle.std.specs.Prelude.{◌≡◌, ◌-◌, ◌==◌};
ghost use Rattle.cf_session.specs.Shown.{shown_action};
ghost use Rattle.cf_session.specs.Turn.{cost, units_left};

use crate::action::Action;

/// What a call of the node costs, in units.
const CALL_COST: usize = 4;

/// How much of a text's work one turn may do, in units. Each action costs at least one.
#[derive(Drop)]
pub struct Budget {
    left: usize,
}

impl Budget {
    /// A budget of so many units.
    pub fn new(units: usize) -> Budget
        ensures { units_left result ≡ units }
    {
        Budget { left: units }
    }

    /// Whether no unit is left.
    pub fn is_spent(&self) -> bool
        ensures { result ≡ (units_left self.now == 0) }
    {
        self.left == 0
    }

    /// Takes so many units, or all that are left.
    pub(crate) fn spend(&mut self, units: usize)
        ensures { units_left self.new ≡ units_left self.old - units }
    {
        self.left = self.left.saturating_sub(units);
    }
}

/// What an action costs, in units: 4 where it is a call of the node, and 1 where a text, a pong or a close goes out.
pub fn cost_of(action: &Action) -> usize
    ensures { result ≡ cost (shown_action action.now) }
{
    match action {
        Action::Say(_) => 1,
        Action::Pong => 1,
        Action::Close(_) => 1,
        _ => CALL_COST,
    }
}

// The rule of the word, and its kinds of step, over what each seat knows.
use atomic_table::{Join, Play, Split, TableRule};
use std::marker::{Brand, Model, PhantomData};

/// What a seat knows. No value of it is made: it stands in the proofs alone.
pub struct View {
    of: PhantomData<u8>,
}

impl Model for View {
    ghost use Rattle.cf_order.specs.View.{View as Known, coded_view, opening_view};

    ghost Value = { Known };

    ghost coded = { coded_view };

    ghost view = { λ _. opening_view };
}

/// The rule: all views are of one log, which the word counts.
pub struct Law;

impl TableRule<u8, View, ()> for Law {
    ghost use Rattle.cf_order.specs.ShardRule.{IsOneLog};
    ghost use Rattle.cf_order.specs.View.{opening_view};

    ghost holds = { λ _ s. IsOneLog s.words s.views };

    ghost first = { λ _. opening_view };
}

/// Look: a pass loads the count.
pub struct Looks;

impl Play<u8, View> for Looks {
    ghost use Rattle.cf_order.specs.ShardStep.{HasLooked};

    ghost then = { HasLooked };
}

/// Tell: a load that changes no view, and tells how the last two logs compare.
pub struct TellsView;

impl Play<u8, View> for TellsView {
    ghost use Rattle.cf_order.specs.ShardStep.{HasTold};

    ghost then = { HasTold };
}

/// The entry that an append adds. Each call picks it.
pub trait Added {
    ghost use Rattle.cf_protocol.specs.LogEntry.{Entry};

    ghost entry: { Entry };
}

impl Added for Brand {
    ghost use Rattle.std.specs.Prelude.{[]};
    ghost use Rattle.cf_protocol.specs.LogEntry.Entry.{Forget};

    ghost entry = { Forget [] };
}

/// Append: the owner adds that entry.
pub struct Adds<E: Added> {
    of: PhantomData<E>,
}

impl<E: Added> Play<u8, View> for Adds<E> {
    ghost use Rattle.cf_order.specs.ShardStep.{HasAdded};

    ghost then = { HasAdded E.entry };
}

/// Split: a new seat has the whole share.
pub struct Gives;

impl Split<View> for Gives {
    ghost use Rattle.cf_order.specs.ShardStep.{word_given, with_share};

    ghost left = { λ v. with_share v 0 };

    ghost right = { λ v. word_given v v.share };
}

/// Split: a new seat has no share.
pub struct Lends;

impl Split<View> for Lends {
    ghost use Rattle.cf_order.specs.ShardStep.{word_given};

    ghost left = { λ v. v };

    ghost right = { λ v. word_given v 0 };
}

/// Join: a pass takes in another.
pub struct Joins;

impl Join<View> for Joins {
    ghost use Rattle.cf_order.specs.ShardStep.{joined};
    ghost use Rattle.cf_order.specs.View.{spent_view};

    ghost both = { joined };

    ghost spent = { spent_view };
}

/// Join: the owner takes in a pass.
pub struct Compares;

impl Join<View> for Compares {
    ghost use Rattle.cf_order.specs.ShardStep.{compared};
    ghost use Rattle.cf_order.specs.View.{spent_view};

    ghost both = { compared };

    ghost spent = { spent_view };
}

//! The rule of the queue behind a link: who may push and pop, and what each end knows.
use crossbeam_queue::protocol::{Join, Lesson, Outcome, Protocol, Split};
use std::collections::LinkedList;

/// What a pass may do (push, pop), and what it knows to have been sent and received. The end that pushes knows all that was
/// sent, the one that pops all that was received, and else a pass knows what it was told. No value of it is made.
pub struct Log<T> {
    pub pushes: bool,
    pub pops: bool,
    pub sent: LinkedList<T>,
    pub received: LinkedList<T>,
}

/// Received and then waiting is sent.
pub struct InOrder;

impl<T> Protocol<T, Log<T>> for InOrder {
    ghost use Rattle.std.specs.Prelude.{true, []};
    ghost use Rattle.cf_link.specs.Rule.{log, IsLinked};

    ghost holds = { IsLinked };

    ghost first = { log true true [] [] };
}

/// The parting of a link in its ends: one sends, the other receives.
pub struct Ends;

impl<T> Split<Log<T>> for Ends {
    ghost use Rattle.std.specs.Prelude.{true, false, []};
    ghost use Rattle.cf_link.specs.Rule.{log};

    ghost left = { λ v. log true false v.sent [] };

    ghost right = { λ v. log false true [] v.received };
}

impl<T> Join<Log<T>> for Ends {
    ghost use Rattle.std.specs.Prelude.{true, false, []};
    ghost use Rattle.cf_link.specs.Rule.{log};

    ghost both = { λ v w. log true true v.sent w.received };

    ghost spent = { log false false [] [] };
}

/// A push by the end that sends.
pub struct Sends;

impl<T> Outcome<T, Log<T>> for Sends {
    ghost use Rattle.std.specs.Prelude.{◌≡◌, ◌++◌, ◌∷◌, []};
    ghost use Rattle.cf_link.specs.Rule.{log};

    ghost then = { λ v x w. w ≡ log v.pushes v.pops (v.sent ++ x ∷ []) v.received };
}

impl<T> Lesson<T, Log<T>> for Sends {
    ghost use Rattle.std.specs.Prelude.{◌+◌, ◌≤◌, length};

    ghost fact = { λ v items. length v.received + length items ≤ length v.sent };
}

/// A pop by the end that receives.
pub struct Receives;

impl<T> Outcome<T, Log<T>> for Receives {
    ghost use Rattle.std.specs.Prelude.{◌≡◌, ◌++◌, ◌∷◌, []};
    ghost use Rattle.cf_link.specs.Rule.{log};

    ghost then = { λ v x w. w ≡ log v.pushes v.pops v.sent (v.received ++ x ∷ []) };
}

impl<T> Lesson<T, Log<T>> for Receives {
    ghost use Rattle.std.specs.Prelude.{◌≡◌, length};
    ghost use mathlib.Core.List.{IsPrefix};

    ghost fact = { λ v items. length items ≡ 0 → IsPrefix v.sent v.received };
}

/// An end tells what it knows: a pass that may do nothing knows it too.
pub struct TellsLog;

impl<T> Split<Log<T>> for TellsLog {
    ghost use Rattle.std.specs.Prelude.{false};
    ghost use Rattle.cf_link.specs.Rule.{log};

    ghost left = { λ v. v };

    ghost right = { λ v. log false false v.sent v.received };
}

/// The end that receives is told what was sent.
pub struct HearsSent;

impl<T> Join<Log<T>> for HearsSent {
    ghost use Rattle.std.specs.Prelude.{false, []};
    ghost use Rattle.cf_link.specs.Rule.{log};

    ghost both = { λ v w. log false v.pops w.sent v.received };

    ghost spent = { log false false [] [] };
}

/// The end that sends is told what was received.
pub struct HearsReceived;

impl<T> Join<Log<T>> for HearsReceived {
    ghost use Rattle.std.specs.Prelude.{false, []};
    ghost use Rattle.cf_link.specs.Rule.{log};

    ghost both = { λ v w. log v.pushes false v.sent w.received };

    ghost spent = { log false false [] [] };
}

/// What is left, as it shows once both ends are one again.
pub struct Total;

impl<T> Lesson<T, Log<T>> for Total {
    ghost use Rattle.std.specs.Prelude.{◌≡◌, ◌++◌};

    ghost fact = { λ v items. v.sent ≡ v.received ++ items };
}

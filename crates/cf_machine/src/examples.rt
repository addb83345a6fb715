//! Schedules and what is printed for them, computed on the definitions; and traces that are not safe.
ghost use Rattle.std.specs.Prelude.{◌≡◌, ◌++◌, ℕ, [], ◌∷◌, List, length, codes, false};
ghost use Rattle.cf_machine.specs.Config.{Config};
ghost use Rattle.cf_machine.specs.LooseRun.{Happening, lines};
ghost use Rattle.cf_machine.specs.StreamSafety.{Safe};
ghost use Rattle.cf_machine.specs.Trace.{Published, Subscribed};
ghost use Rattle.cf_machine.specs.Examples.{ann, as_lines, asks_again, asks_alone, bob, both_are_subscribed};
ghost use Rattle.cf_machine.specs.Examples.{breaks_first, buffered_gap, buffered_reordering};
ghost use Rattle.cf_machine.specs.Examples.{delivery_after_node_restart, first_publication, gap_ends_subscription};
ghost use Rattle.cf_machine.specs.Examples.{keeping, late_but_there, leave_and_return, leaves_first};
ghost use Rattle.cf_machine.specs.Examples.{lists_and_refusals, lost, new_epoch_after_restart, news, no_epoch_yet};
ghost use Rattle.cf_machine.specs.Examples.{place, plain, position_check, pub_line, recovered, shown, slow_consumer};
ghost use Rattle.cf_machine.specs.Examples.{take, tells_again, tells_lost, tells_pub, tells_recovered, tells_sub};
ghost use Rattle.cf_machine.specs.Examples.{told_by, too_much, two_breaks, two_come};

/// What the interval machine's clients are told in schedules that show each of its rules. The push of a body of 1,048,525
/// bytes to the channel `c` has 1,048,576 bytes, the most that wait for one client.
pub fn worked_examples()
    ensures first_publication { shown plain first_publication ≡
        as_lines ("ann news sub aaaa 0 fresh" ∷ "ann news pub aaaa 1 {\"t\":1}" ∷ []) }
    ensures recovered { shown (keeping 3) recovered ≡
        as_lines ("ann news sub aaaa 0 fresh" ∷ "ann news pub aaaa 1 1" ∷ "ann news pub aaaa 2 2"
        ∷ "ann news sub aaaa 5 recovered" ∷ "ann news pub aaaa 3 3" ∷ "ann news pub aaaa 4 4"
        ∷ "ann news pub aaaa 5 5" ∷ []) }
    ensures lost { shown (keeping 3) lost ≡
        as_lines ("ann news sub aaaa 0 fresh" ∷ "ann news pub aaaa 1 1" ∷ "ann news sub aaaa 5 lost"
        ∷ []) }
    ensures buffered_reordering { shown plain buffered_reordering ≡
        as_lines ("ann news sub aaaa 2 fresh" ∷ "ann news pub aaaa 3 3" ∷ "ann news pub aaaa 4 4"
        ∷ []) }
    ensures buffered_gap { shown plain buffered_gap
        ≡ as_lines ("ann news sub aaaa 2 fresh" ∷ "ann news again 2500" ∷ []) }
    ensures gap_ends_subscription { shown plain gap_ends_subscription ≡
        as_lines ("ann news sub aaaa 0 fresh" ∷ "ann news pub aaaa 1 \"a\"" ∷ "ann news again 2500"
        ∷ "ann news sub aaaa 3 recovered" ∷ "ann news pub aaaa 2 \"b\""
        ∷ "ann news pub aaaa 3 \"c\"" ∷ []) }
    ensures two_breaks { shown plain two_breaks ≡
        as_lines ("ann news sub aaaa 0 fresh" ∷ "ann news pub aaaa 1 {\"t\":1}"
        ∷ "ann news sub aaaa 3 recovered" ∷ "ann news pub aaaa 2 2" ∷ "ann news pub aaaa 3 3"
        ∷ []) }
    ensures three_ignored { shown plain (leave_and_return (take ∷ take ∷ take ∷ [])) ≡
        as_lines ("ann news sub aaaa 0 fresh" ∷ []) }
    ensures leave_and_return { shown plain (leave_and_return (take ∷ take ∷ take ∷ take ∷ [])) ≡
        as_lines ("ann news sub aaaa 0 fresh" ∷ "ann news sub aaaa 2 recovered"
        ∷ "ann news pub aaaa 1 1" ∷ "ann news pub aaaa 2 2" ∷ []) }
    ensures new_epoch_after_restart { shown plain new_epoch_after_restart ≡
        as_lines ("ann news sub aaaa 0 fresh" ∷ "ann news pub aaaa 1 {\"t\":1}"
        ∷ "ann news sub bbbb 1 lost" ∷ []) }
    ensures delivery_after_node_restart { shown plain delivery_after_node_restart ≡
        as_lines ("ann news sub aaaa 0 fresh" ∷ "ann news sub aaaa 1 recovered"
        ∷ "ann news pub aaaa 1 1" ∷ []) }
    ensures position_check { shown plain position_check
        ≡ as_lines ("ann news sub aaaa 0 fresh" ∷ "ann news again 2500" ∷ []) }
    ensures late_but_there { shown plain late_but_there
        ≡ as_lines ("ann news sub aaaa 0 fresh" ∷ "ann news pub aaaa 1 1" ∷ []) }
    ensures no_epoch_yet { shown plain no_epoch_yet ≡ as_lines ([]) }
    ensures lists_and_refusals { shown plain lists_and_refusals ≡
        as_lines ("ann news sub aaaa 0 fresh" ∷ "ann news pub aaaa 1 {\"t\":1}"
        ∷ "ann news list aaaa 1 1" ∷ "ann news list aaaa 1 0" ∷ "ann chat:x refused 102"
        ∷ "ann chat:x refused 102" ∷ []) }
    ensures slow_consumer { (body : List ℕ) → length body ≡ 1048525
        → shown plain (slow_consumer body) ≡
        both_are_subscribed ++ (pub_line "bob c pub aaaa 1 " body ++ (as_lines ("bob c pub aaaa 2 0"
        ∷ []) ++ (pub_line "ann c pub aaaa 1 " body ++ as_lines ("ann closed 3008" ∷ [])))) }
    ensures too_much { (body : List ℕ) → length body ≡ 1048526 → shown plain (too_much body) ≡
        both_are_subscribed ++ as_lines ("bob closed 3008" ∷ "ann closed 3008" ∷ []) }
{
    cf_protocol::laws::push_length();
}

/// What stream safety refuses: entries of event 0, past the last one or out of order; a publication told before it was
/// published, with another body than its datum, or with two data; a gap, a repeat, a publication before the subscription and
/// one after its end; a recovered subscription that brings less than was missed; `recovered` when the stream no longer held
/// all that, and `lost` when it did; and a subscription told on a read from before its ask, twice on one read, without any
/// read, after the break that gave up its ask, to a client that never connected, and on a read made after the client left.
pub fn unsafe_traces()
    ensures event_zero { Safe plain (lines two_come) (tells_sub 0 0 ∷ []) → ⊥ }
    ensures past_the_end { Safe plain (lines two_come) (tells_sub 6 0 ∷ tells_pub 99 1 "1" ∷ [])
        → ⊥ }
    ensures out_of_order { Safe plain (lines two_come) (tells_sub 6 0 ∷ tells_pub 12 2 "2"
        ∷ tells_pub 11 1 "1" ∷ []) → ⊥ }
    ensures before_published { Safe plain (lines two_come) (tells_sub 6 0 ∷ tells_pub 7 1 "1" ∷ [])
        → ⊥ }
    ensures other_body { Safe plain (lines two_come) (tells_sub 6 0 ∷ tells_pub 11 1 "2" ∷ []) → ⊥ }
    ensures two_data { (config : Config) (happenings : List Happening)
        → Safe config happenings (told_by 1 ann (Published news (place 1) (codes "1"))
        ∷ told_by 2 bob (Published news (place 1) (codes "2")) ∷ []) → ⊥ }
    ensures gap { Safe plain (lines two_come) (tells_sub 6 0 ∷ tells_pub 11 2 "2" ∷ []) → ⊥ }
    ensures repeat { Safe plain (lines two_come) (tells_sub 6 0 ∷ tells_pub 11 1 "1"
        ∷ tells_pub 12 1 "1" ∷ []) → ⊥ }
    ensures before_subscribed { Safe plain (lines two_come) (tells_pub 5 1 "1" ∷ tells_sub 6 0 ∷ [])
        → ⊥ }
    ensures after_end { Safe plain (lines two_come) (tells_sub 6 0 ∷ tells_again 11
        ∷ tells_pub 12 1 "1" ∷ []) → ⊥ }
    ensures short_run { Safe (keeping 3) (lines recovered)
        (tells_sub 6 0 ∷ tells_pub 11 1 "1" ∷ tells_pub 12 2 "2" ∷ tells_recovered 21 5
        ∷ tells_pub 21 3 "3" ∷ tells_pub 21 4 "4" ∷ []) → ⊥ }
    ensures false_recovered { Safe (keeping 3) (lines lost)
        (tells_sub 6 0 ∷ tells_pub 11 1 "1" ∷ tells_recovered 20 5 ∷ tells_pub 20 2 "2"
        ∷ tells_pub 20 3 "3" ∷ tells_pub 20 4 "4" ∷ tells_pub 20 5 "5" ∷ []) → ⊥ }
    ensures false_lost { Safe (keeping 3) (lines recovered) (tells_sub 6 0 ∷ tells_pub 11 1 "1"
        ∷ tells_pub 12 2 "2" ∷ tells_lost 21 5 ∷ []) → ⊥ }
    ensures read_before_ask { Safe plain (lines asks_again) (tells_sub 11 0 ∷ []) → ⊥ }
    ensures two_on_one_read { Safe plain (lines two_come) (tells_sub 6 0 ∷ tells_pub 11 1 "1"
        ∷ tells_sub 12 0 ∷ tells_pub 12 1 "1" ∷ []) → ⊥ }
    ensures without_read { Safe plain (lines asks_alone) (tells_sub 4 0 ∷ []) → ⊥ }
    ensures after_break { Safe plain (lines breaks_first) (tells_sub 7 0 ∷ []) → ⊥ }
    ensures never_connected { Safe plain (lines two_come)
        (told_by 6 bob (Subscribed news false false (place 0)) ∷ []) → ⊥ }
    ensures read_after_leaving { Safe plain leaves_first (tells_sub 6 0 ∷ []) → ⊥ }
{}

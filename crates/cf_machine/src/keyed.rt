//! Schedules with keys, and with sizes that change, computed on the definitions.
ghost use Rattle.std.specs.Prelude.{◌≡◌, [], ◌∷◌};
ghost use Rattle.cf_machine.specs.Event.{SetSize};
ghost use Rattle.cf_machine.specs.LooseRun.{lines};
ghost use Rattle.cf_machine.specs.StreamSafety.{Safe};
ghost use Rattle.cf_machine.specs.Examples.{as_lines, keeping, plain, shown, tells_lost, tells_pub, tells_sub};
ghost use Rattle.cf_machine.specs.RuleExamples.{shown_from};
ghost use Rattle.cf_machine.specs.KeyExamples.{sent_twice, keys_gone, last_with_key, repeat_at_last, long_key, long_with_key, grows, sizes_stay, tells_all_missed};

/// What the interval machine's clients are told when publishes have keys, and when sizes change.
pub fn worked_keys_and_sizes()
    ensures sent_twice { shown plain sent_twice ≡ as_lines
        ("ann news sub aaaa 0 fresh" ∷ "ann news pub aaaa 1 1" ∷ "ann news pub aaaa 2 3" ∷ []) }
    ensures keys_gone { shown plain keys_gone ≡ as_lines
        ("ann news sub aaaa 0 fresh" ∷ "ann news pub aaaa 1 1" ∷ "ann news again 2500" ∷
        "ann news sub cccc 1 lost" ∷ []) }
    ensures repeat_at_last { shown_from last_with_key plain repeat_at_last ≡ as_lines
        ("ann news refused 106" ∷ []) }
    ensures long_key { shown plain long_key ≡ as_lines
        ("ann news refused 107" ∷ "ann chat:x refused 107" ∷ "ann chat:x refused 102" ∷ []) }
    ensures long_with_key { shown plain long_with_key ≡ as_lines
        ("ann news list aaaa 1 1" ∷ "ann closed 3501" ∷ []) }
    ensures grown { shown (keeping 3) (grows []) ≡ as_lines
        ("ann news sub aaaa 0 fresh" ∷ "ann news pub aaaa 1 1" ∷ "ann news pub aaaa 2 2" ∷
        "ann news sub aaaa 7 recovered" ∷ "ann news pub aaaa 3 3" ∷ "ann news pub aaaa 4 4" ∷
        "ann news pub aaaa 5 5" ∷ "ann news pub aaaa 6 6" ∷ "ann news pub aaaa 7 7" ∷ []) }
    ensures shrunk { shown (keeping 3) (grows (SetSize [] 2 ∷ [])) ≡ as_lines
        ("ann news sub aaaa 0 fresh" ∷ "ann news pub aaaa 1 1" ∷ "ann news pub aaaa 2 2" ∷
        "ann news sub aaaa 7 lost" ∷ []) }
    ensures grown_again { shown (keeping 3) (grows (SetSize [] 2 ∷ SetSize [] 5 ∷ [])) ≡ as_lines
        ("ann news sub aaaa 0 fresh" ∷ "ann news pub aaaa 1 1" ∷ "ann news pub aaaa 2 2" ∷
        "ann news sub aaaa 7 lost" ∷ []) }
    ensures sizes_stay { shown (keeping 3) sizes_stay ≡ as_lines ("ann news list bbbb 3 2" ∷ []) }
{}

/// What stream safety refuses when publishes have keys, and when sizes change: what was sent twice told as a second publication,
/// as one more at the end, or with what it was sent with the second time; `recovered` after a size that dropped some of what was
/// missed, also when a larger size came after it; and `lost` when a size that had grown held all of it.
pub fn unsafe_keys_and_sizes()
    ensures second_place { Safe plain (lines sent_twice) (tells_sub 6 0 ∷ tells_pub 13 1 "1"
        ∷ tells_pub 14 2 "2" ∷ []) → ⊥ }
    ensures one_more { Safe plain (lines sent_twice) (tells_sub 6 0 ∷ tells_pub 13 1 "1"
        ∷ tells_pub 14 2 "3" ∷ tells_pub 15 3 "2" ∷ []) → ⊥ }
    ensures second_data { Safe plain (lines sent_twice) (tells_sub 6 0 ∷ tells_pub 13 1 "2"
        ∷ tells_pub 14 2 "3" ∷ []) → ⊥ }
    ensures dropped { Safe (keeping 3) (lines (grows (SetSize [] 2 ∷ [])))
        (tells_sub 6 0 ∷ tells_pub 11 1 "1" ∷ tells_pub 12 2 "2" ∷ tells_all_missed 25) → ⊥ }
    ensures dropped_before { Safe (keeping 3)
        (lines (grows (SetSize [] 2 ∷ SetSize [] 5 ∷ [])))
        (tells_sub 6 0 ∷ tells_pub 11 1 "1" ∷ tells_pub 12 2 "2" ∷ tells_all_missed 26) → ⊥ }
    ensures held_by_then { Safe (keeping 3) (lines (grows [])) (tells_sub 6 0
        ∷ tells_pub 11 1 "1" ∷ tells_pub 12 2 "2" ∷ tells_lost 24 7 ∷ []) → ⊥ }
{}

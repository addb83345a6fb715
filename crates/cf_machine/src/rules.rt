//! One short schedule for each rule of the machine, computed on the definitions; and what each refusal is told by.
ghost use Rattle.std.specs.Prelude.{◌≡◌, ◌≤◌, ℕ, [], ◌∷◌, Some, codes, false, true};
ghost use Rattle.cf_model.specs.Recovery.{falls_short, run_length};
ghost use Rattle.cf_model.specs.Streams.{read_of};
ghost use Rattle.cf_machine.specs.Event.{Connect, PublishBy};
ghost use Rattle.cf_machine.specs.ClientLink.{ClientLink};
ghost use Rattle.cf_machine.specs.Refusals.{has_no_room};
ghost use Rattle.cf_machine.specs.RuleExamples.{already_subscribed, at_last_offset, bad_channel, barred, channel_128};
ghost use Rattle.cf_machine.specs.RuleExamples.{channel_129, check_after_delivery, check_of_another_epoch};
ghost use Rattle.cf_machine.specs.RuleExamples.{check_without_stream, delivery_to_one_node, epoch_after_read};
ghost use Rattle.cf_machine.specs.RuleExamples.{epoch_before_read, epoch_while_live, epochs_in_order, first_colon};
ghost use Rattle.cf_machine.specs.RuleExamples.{first_places, forget_before_recovery, fresh_again};
ghost use Rattle.cf_machine.specs.RuleExamples.{known_while_buffered, last_offset, leaves_refused, leaves_waiting};
ghost use Rattle.cf_machine.specs.RuleExamples.{list_after_trim, list_opens, long_text, next_id, no_such_publication};
ghost use Rattle.cf_machine.specs.RuleExamples.{node_that_is_not_there, not_ready, not_recovered, of_a};
ghost use Rattle.cf_machine.specs.RuleExamples.{permission_denied, publish_elsewhere, put_opens, reading_from};
ghost use Rattle.cf_machine.specs.RuleExamples.{refused_names, reply_at_0, restart_of_one_node, shown_from};
ghost use Rattle.cf_machine.specs.RuleExamples.{stream_of_301, trim_above, two_nodes, unknown_channel, with_channels};
ghost use Rattle.cf_machine.specs.Examples.{ann, as_lines, keeping, news, place, plain, shown};
ghost use Rattle.cf_machine.specs.World.{World, rows_of, start};

/// One short schedule for each rule, and what is printed for it; how much a read recovers, and how much is kept before a reply.
pub fn rule_examples()
    ensures epoch_before_read { shown plain epoch_before_read
        ≡ as_lines ("ann news sub bbbb 0 fresh" ∷ "ann news again 2500" ∷ []) }
    ensures epoch_after_read { shown plain epoch_after_read
        ≡ as_lines ("ann news sub bbbb 0 fresh" ∷ "ann news again 2500" ∷ []) }
    ensures epoch_while_live { shown plain epoch_while_live
        ≡ as_lines ("ann news sub aaaa 0 fresh" ∷ "ann news again 2500" ∷ []) }
    ensures known_while_buffered { shown plain known_while_buffered
        ≡ as_lines ("ann news sub aaaa 1 fresh" ∷ "ann news pub aaaa 2 2" ∷ []) }
    ensures check_without_stream { shown plain check_without_stream
        ≡ as_lines ("ann news sub aaaa 0 fresh" ∷ "ann news again 2500" ∷ []) }
    ensures check_of_another_epoch { shown plain check_of_another_epoch
        ≡ as_lines ("ann news sub aaaa 0 fresh" ∷ "ann news again 2500" ∷ []) }
    ensures check_after_delivery { shown plain check_after_delivery
        ≡ as_lines ("ann news sub aaaa 0 fresh" ∷ "ann news pub aaaa 1 1" ∷ []) }
    ensures delivery_to_one_node { shown two_nodes delivery_to_one_node
        ≡ as_lines ("ann news sub aaaa 0 fresh" ∷ "bob news sub aaaa 0 fresh"
        ∷ "ann news pub aaaa 1 1" ∷ []) }
    ensures restart_of_one_node { shown two_nodes restart_of_one_node
        ≡ as_lines ("ann news sub aaaa 0 fresh" ∷ "bob news sub aaaa 0 fresh"
        ∷ "ann news pub aaaa 1 1"
        ∷ "bob news sub aaaa 1 recovered" ∷ "bob news pub aaaa 1 1" ∷ []) }
    ensures node_that_is_not_there { shown plain node_that_is_not_there ≡ as_lines ([]) }
    ensures first_colon { shown of_a first_colon
        ≡ as_lines ("ann a:b:c sub aaaa 0 fresh" ∷ "ann news refused 102" ∷ []) }
    ensures list_after_trim { shown plain list_after_trim
        ≡ as_lines ("ann news sub aaaa 0 fresh" ∷ "ann news list aaaa 3 1"
        ∷ "ann news list aaaa 3 2" ∷ "ann news list aaaa 3 0" ∷ []) }
    ensures trim_above { shown (keeping 3) trim_above
        ≡ as_lines ("ann news sub aaaa 0 fresh" ∷ "ann news list aaaa 4 3" ∷ []) }
    ensures put_opens { shown plain put_opens ≡ as_lines ("ann news list aaaa 1 1" ∷ []) }
    ensures list_opens { shown plain list_opens
        ≡ as_lines ("ann news list aaaa 0 0" ∷ "ann c sub bbbb 0 fresh" ∷ []) }
    ensures epochs_in_order { shown plain epochs_in_order
        ≡ as_lines ("ann c sub bbbb 0 fresh" ∷ "ann news sub aaaa 1 fresh" ∷ []) }
    ensures not_ready { shown plain not_ready
        ≡ as_lines ("ann news sub aaaa 0 fresh" ∷ "ann news list aaaa 0 0" ∷ []) }
    ensures leaves_refused { shown plain leaves_refused ≡ as_lines ("ann chat:x refused 102" ∷ []) }
    ensures leaves_waiting { shown plain leaves_waiting
        ≡ as_lines ("ann news sub aaaa 0 fresh" ∷ []) }
    ensures forget_before_recovery { shown plain forget_before_recovery
        ≡ as_lines ("ann news sub aaaa 0 fresh" ∷ "ann news pub aaaa 1 {\"t\":1}"
        ∷ "ann news sub bbbb 0 lost" ∷ []) }
    ensures fresh_again { shown plain fresh_again
        ≡ as_lines ("ann news sub aaaa 0 fresh" ∷ "ann news pub aaaa 1 {\"t\":1}"
        ∷ "ann news sub aaaa 2 fresh" ∷ []) }
    ensures no_such_publication { shown plain no_such_publication
        ≡ as_lines ("ann news sub aaaa 0 fresh" ∷ []) }
    ensures publish_elsewhere { shown plain publish_elsewhere
        ≡ as_lines ("ann news list aaaa 1 1" ∷ []) }
    ensures missed_300 { read_of (Some (place 1)) stream_of_301 ≡ reading_from 1 }
    ensures missed_301 { read_of (Some (place 0)) stream_of_301 ≡ not_recovered }
    ensures missed_none { read_of (Some (place 301)) stream_of_301 ≡ reading_from 301 }
    ensures missed_beyond { read_of (Some (place 302)) stream_of_301 ≡ not_recovered }
    ensures arrivals_1000 { run_length (first_places 1000) reply_at_0 ≡ 1000 }
    ensures arrivals_1000_suffice { falls_short (first_places 1000) reply_at_0 ≡ false }
    ensures arrivals_1001 { run_length (first_places 1001) reply_at_0 ≡ 0 }
    ensures arrivals_1001_fall_short { falls_short (first_places 1001) reply_at_0 ≡ true }
    ensures put_without_epoch { next_id (Connect ann 0 ∷ PublishBy ann news [] (codes "1") ∷ [])
        ≡ next_id (Connect ann 0 ∷ []) }
{}

/// What each refusal of a command is told by. A node refuses a subscribe for the subscriptions of all its sessions by the rule
/// that `full_node` says.
pub fn refusal_codes()
    ensures unknown_channel { shown_from start plain unknown_channel
        ≡ as_lines ("ann chat:x refused 102"
        ∷ "ann chat:x refused 102" ∷ "ann chat:x refused 102" ∷ []) }
    ensures permission_denied { shown_from at_last_offset barred permission_denied
        ≡ as_lines ("ann news refused 103" ∷ "ann news refused 103" ∷ []) }
    ensures already_subscribed { shown_from (with_channels 128) plain already_subscribed
        ≡ as_lines ("ann 111 refused 105" ∷ []) }
    ensures last_offset { shown_from at_last_offset plain last_offset
        ≡ as_lines ("ann news refused 106" ∷ "ann news list aaaa 9007199254740991 0" ∷ []) }
    ensures channel_128 { shown_from (with_channels 127) plain channel_128
        ≡ as_lines ("ann news sub aaaa 0 fresh" ∷ []) }
    ensures channel_129 { shown_from (with_channels 128) plain channel_129
        ≡ as_lines ("ann news refused 106" ∷ []) }
    ensures bad_channel { shown_from start plain bad_channel ≡ refused_names }
    ensures long_text { shown_from start plain long_text
        ≡ as_lines ("ann news list aaaa 1 1" ∷ "ann closed 3501" ∷ []) }
    ensures full_node { (world : World) (link : ClientLink) (node : ℕ) → link.node ≡ Some node
        → 65536 ≤ rows_of node world.links world.clients → has_no_room link world ≡ true }
{}

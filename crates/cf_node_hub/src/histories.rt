//! The reply to a history.
ghost use Rattle.std.specs.Prelude.{◌≡◌, ◌≤◌, IfOk, string_bytes};
ghost use Rattle.cf_protocol.specs.Outgoing.{Answer, Past};
ghost use Rattle.cf_protocol.specs.Written.{outgoing_text};
ghost use Rattle.cf_node_hub.specs.Histories.{SaysHistory};

use cf_protocol::{Outcome, Outgoing, write_reply};
use cf_stream::History;
use std::alloc::{AllocError, Global};

/// The text of the reply to the command `id`, a history, which brings what was answered.
pub fn history_reply(alloc: Global, id: u32, history: History) -> Result<String, AllocError>
    requires { 1 ≤ id }
    ensures text { IfOk result (λ text. string_bytes text
        ≡ outgoing_text (Answer id (Past history.position history.publications.items))) }
    ensures says { IfOk result (λ text. SaysHistory history (string_bytes text)) }
{
    let outcome = Outcome::Past {
        position: history.position,
        publications: history.publications,
    };
    write_reply(alloc, &Outgoing::Answer { id, outcome })
}

//! Laws of the texts that are read and written. Each function's contract states one; its body does nothing.
ghost use Rattle.std.specs.Prelude.{◌≡◌, ◌+◌, ◌<◌, ℕ, List, [], ◌∷◌, None, length, decimal};
ghost use Rattle.cf_json.specs.Quoting.{quoted};
ghost use Rattle.cf_protocol.specs.Request.{Command};
ghost use Rattle.cf_protocol.specs.Outgoing.{Outgoing, Push, Publication};
ghost use Rattle.cf_protocol.specs.Written.{command_text, outgoing_text};
ghost use Rattle.cf_protocol.specs.TextLength.{command_length, outgoing_length};
ghost use Rattle.cf_protocol.specs.Regular.{IsRegular, IsRegularCommand};
ghost use Rattle.cf_protocol.specs.Frame.{IsCommands, IsReplies};

use cf_json::{compact_reads_back, one_value, quoting_reads_back};

/// How many bytes a written text has.
pub fn text_lengths()
    ensures commands { (c : Command) → length (command_text c) ≡ command_length c }
    ensures outgoing { (o : Outgoing) → length (outgoing_text o) ≡ outgoing_length o }
{}

/// How many bytes the push of a publication has that no client published.
pub fn push_length()
    ensures { (channel body : List ℕ) (offset : ℕ) → 0 < length channel → 0 < offset
        → length
        (outgoing_text
        (Push channel
        (Publication
        (record {
          offset = offset;
          datum = record { body = body; info = None };
        }))))
        ≡ 47 + length (quoted channel) + length (decimal offset) + length body }
{}

/// The text of a regular command is read as that command alone.
pub fn commands_read_back()
    ensures read { (k : Command) → IsRegularCommand k → IsCommands (command_text k) (k ∷ []) }
    ensures alone { (k : Command) (ks : List Command) → IsRegularCommand k
        → IsCommands (command_text k) ks → ks ≡ k ∷ [] }
{
    one_value();
    compact_reads_back();
    quoting_reads_back();
}

/// The text of a regular reply or push is read as that one alone.
pub fn replies_read_back()
    ensures read { (o : Outgoing) → IsRegular o → IsReplies (outgoing_text o) (o ∷ []) }
    ensures alone { (o : Outgoing) (os : List Outgoing) → IsRegular o
        → IsReplies (outgoing_text o) os → os ≡ o ∷ [] }
{
    one_value();
    compact_reads_back();
    quoting_reads_back();
}

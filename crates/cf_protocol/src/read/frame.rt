//! Frames: what stands one behind another in a text.
ghost use Rattle.std.specs.Prelude.{◌≡◌, IfOk, IfErr, List, map};
ghost use Rattle.cf_protocol.specs.Frame.{IsCommands, IsReplies};
ghost use Rattle.cf_protocol.specs.Outgoing as outgoing;
ghost use Rattle.cf_protocol.specs.Request as request;
ghost use Rattle.cf_protocol.specs.Shown.{shown_command, shown_outgoing};

use crate::command::Command;
use crate::fault::ReadFault;
use crate::outgoing::Outgoing;
use crate::read::command::read_command;
use crate::read::outgoing::read_outgoing;
use cf_json::split_frame;
use std::alloc::Global;

/// The commands of a frame, in order. `Bad` is a text that is no frame, or in which a value is no command or nests deeper than
/// 64.
pub fn read_commands(alloc: Global, text: &str) -> Result<Vec<Command>, ReadFault>
    ensures found { IfOk result (λ cs. IsCommands text.now (map shown_command cs.items)) }
    ensures only { IfOk result (λ cs. (ks : List request.Command)
        → IsCommands text.now ks → ks ≡ map shown_command cs.items) }
    ensures bad { IfErr result (λ e. e ≡ ReadFault.Bad
        → (ks : List request.Command) → IsCommands text.now ks → ⊥) }
{
    let spans = split_frame(alloc, text)?;
    let mut commands = Vec::new(alloc);
    for span in &spans {
        let command = read_command(alloc, text, *span)?;
        commands.push(command)?;
    }
    Ok(commands)
}

/// The replies and pushes of a frame, in order. Pushes of a kind that isn't known are passed over. `Bad` is a text that is no
/// frame, or in which a value is neither or nests deeper than 64.
pub fn read_replies(alloc: Global, text: &str) -> Result<Vec<Outgoing>, ReadFault>
    ensures found { IfOk result (λ rs. IsReplies text.now (map shown_outgoing rs.items)) }
    ensures only { IfOk result (λ rs. (os : List outgoing.Outgoing)
        → IsReplies text.now os → os ≡ map shown_outgoing rs.items) }
    ensures bad { IfErr result (λ e. e ≡ ReadFault.Bad
        → (os : List outgoing.Outgoing) → IsReplies text.now os → ⊥) }
{
    let spans = split_frame(alloc, text)?;
    let mut replies = Vec::new(alloc);
    for span in &spans {
        let read = read_outgoing(alloc, text, *span)?;
        if let Some(reply) = read {
            replies.push(reply)?;
        }
    }
    Ok(replies)
}

//! The texts of a client's commands.
ghost use Rattle.std.specs.Prelude.{IfOk};
ghost use Rattle.cf_protocol.specs.Shown.{shown_request};
ghost use Rattle.cf_client.specs.Texts.{IsCommand};

use cf_protocol::{Command, Request, write_command};
use std::alloc::{AllocError, Global};

/// The text of a command.
pub(crate) fn command_text(alloc: Global, id: u32, request: Request) -> Result<String, AllocError>
    ensures { IfOk result (IsCommand id (shown_request request)) }
{
    write_command(alloc, &Command { id, request })
}

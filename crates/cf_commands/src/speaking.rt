//! The command `speak`: each line of the input is a text of one client.
ghost use Rattle.std.specs.Prelude.{OnOk, IfSome, IsErrOf};
ghost use Rattle.cf_speak.specs.Conversation.{BreaksOff, Speaks};

use crate::command_line::SpeakOptions;
use crate::entries::{namespaces_of, tokens_of};
use crate::error::{CommandError, Setting};
use crate::settings::usable;
use cf_speak::{GivenEpochs, SpeakError, SpeakSetup, converse};
use std::alloc::Global;
use std::io::{BufRead, Write};

/// Serves the lines of one client, and writes what it gets: a line for each text, and one for a close, with which it
/// ends.
pub fn speak<R: BufRead, W: Write>(
    alloc: Global,
    reader: &mut R,
    writer: &mut W,
    setup: SpeakSetup,
) -> Result<(), CommandError>
    ensures done { OnOk result (IfSome (R.remaining reader.old) (λ input.
        Speaks (record { namespaces = setup.namespaces; tokens = setup.tokens }) setup.epochs input
        (W.contents writer.old) (W.contents writer.new))) }
    // What isn't UTF-8 is met at its line, after what the earlier lines gave.
    ensures not_utf8 { IsErrOf result CommandError.NotUtf8 → IfSome (R.remaining reader.old) (λ input.
        BreaksOff (record { namespaces = setup.namespaces; tokens = setup.tokens })
        setup.epochs input
        (W.contents writer.old) (W.contents writer.new)) }
{
    match converse(alloc, reader, writer, setup) {
        Ok(()) => Ok(()),
        Err(SpeakError::NotUtf8) => Err(CommandError::NotUtf8),
        Err(SpeakError::Memory) => Err(CommandError::Memory),
        Err(SpeakError::InputOutput) => Err(CommandError::InputOutput),
    }
}

/// The settings that the options name.
///
/// # Errors
///
/// `Entry` names the first entry of the namespaces or the tokens that can't be used; `Setting` if the epochs can't be;
/// `Memory`.
pub fn setup_of(alloc: Global, options: SpeakOptions<'_>) -> Result<SpeakSetup, CommandError> {
    let namespaces = namespaces_of(alloc, options.namespaces)?;
    let tokens = tokens_of(alloc, options.tokens)?;
    let epochs = usable(Setting::Epochs, GivenEpochs::read(alloc, options.epochs))?;
    Ok(SpeakSetup {
        namespaces,
        tokens,
        epochs,
    })
}

//! The settings that the program's words name.

use crate::command_line::Options;
use crate::entries::namespaces_of;
use crate::error::{CommandError, Setting};
use cf_protocol::ReadFault;
use cf_schedule::Config;
use std::alloc::Global;

/// What was read of a setting's text. A text of another form is an unusable setting.
pub(crate) fn usable<T>(setting: Setting, read: Result<T, ReadFault>) -> Result<T, CommandError> {
    match read {
        Ok(value) => Ok(value),
        Err(fault) => Err(CommandError::of_text(setting, fault)),
    }
}

/// The settings that the options of `simulate` name.
///
/// # Errors
///
/// `Setting` if the number of nodes is not 1 to 8; `Entry` names the first entry of the namespaces that can't be used;
/// `Memory`.
pub fn config_of(alloc: Global, options: Options<'_>) -> Result<Config, CommandError> {
    let nodes = options.nodes;
    if nodes < 1 || nodes > 8 {
        return Err(CommandError::Setting {
            setting: Setting::Nodes,
        });
    }
    Ok(Config {
        nodes,
        namespaces: namespaces_of(alloc, options.namespaces)?,
    })
}

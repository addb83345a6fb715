//! The settings that have entries: what was read of them, or which entry can't be used, and by which rule.

use crate::error::{CommandError, Setting};
use cf_protocol::{Namespaces, ReadFault, Tokens, read_namespaces, read_tokens};
use std::alloc::{AllocError, Global};
use std::collections::BTreeSet;

/// A setting that has entries.
#[derive(Clone, Copy)]
enum Table {
    Namespaces,
    Tokens,
}

/// The namespaces that a text sets up.
///
/// # Errors
///
/// `Entry` names the first entry that can't be used; `Memory`.
pub(crate) fn namespaces_of(alloc: Global, text: &str) -> Result<Namespaces, CommandError> {
    match read_namespaces(alloc, text) {
        Ok(namespaces) => Ok(namespaces),
        Err(ReadFault::Memory) => Err(CommandError::Memory),
        Err(ReadFault::Bad) => Err(fault_in(alloc, Table::Namespaces, text)),
    }
}

/// The tokens of a text.
///
/// # Errors
///
/// `Entry` names the first entry that can't be used; `Memory`.
pub(crate) fn tokens_of(alloc: Global, text: &str) -> Result<Tokens, CommandError> {
    match read_tokens(alloc, text) {
        Ok(tokens) => Ok(tokens),
        Err(ReadFault::Memory) => Err(CommandError::Memory),
        Err(ReadFault::Bad) => Err(fault_in(alloc, Table::Tokens, text)),
    }
}

// The fault of a text that can't be used: its first entry that breaks a rule.
fn fault_in(alloc: Global, table: Table, text: &str) -> CommandError {
    match find(alloc, table, text) {
        Ok(Some(fault)) => fault,
        Ok(None) => CommandError::Setting {
            setting: table.setting(),
        },
        Err(_) => CommandError::Memory,
    }
}

fn find(alloc: Global, table: Table, text: &str) -> Result<Option<CommandError>, AllocError> {
    let mut names = BTreeSet::new(alloc);
    for (before, entry) in text.split(';').enumerate() {
        let rule = match broken(alloc, table, entry)? {
            Some(rule) => Some(rule),
            None => keep_name(alloc, table, entry, &mut names)?,
        };
        if let Some(rule) = rule {
            return Ok(Some(CommandError::Entry {
                option: table.option(),
                number: before + 1,
                entry: String::from_str(alloc, entry)?,
                rule,
            }));
        }
    }
    Ok(None)
}

// The rule that an entry breaks by itself.
fn broken(alloc: Global, table: Table, entry: &str) -> Result<Option<&'static str>, AllocError> {
    match table {
        Table::Namespaces => broken_of_namespace(alloc, entry),
        Table::Tokens => broken_of_token(alloc, entry),
    }
}

fn broken_of_namespace(alloc: Global, entry: &str) -> Result<Option<&'static str>, AllocError> {
    const FORM: &str = "it is not NAME=SIZE,SECONDS,FLAGS";
    let table = Table::Namespaces;
    let Some((name, values)) = entry.split_once('=') else {
        return Ok(Some(FORM));
    };
    let Some((size, values)) = values.split_once(',') else {
        return Ok(Some(FORM));
    };
    let Some((seconds, flags)) = values.split_once(',') else {
        return Ok(Some(FORM));
    };
    if !table.takes(alloc, format!(in alloc; "{name}=1,1,"))? {
        return Ok(Some("NAME is not at most 32 ASCII letters, digits, `-` or `_`"));
    }
    if !table.takes(alloc, format!(in alloc; "={size},1,"))? {
        return Ok(Some("SIZE is not 1 to 10000"));
    }
    if !table.takes(alloc, format!(in alloc; "=1,{seconds},"))? {
        return Ok(Some("SECONDS is not 1 to 2592000"));
    }
    if !table.takes(alloc, format!(in alloc; "=1,1,{flags}"))? {
        return Ok(Some("FLAGS are not `p`, `h` and `s`, each once at most"));
    }
    Ok(None)
}

fn broken_of_token(alloc: Global, entry: &str) -> Result<Option<&'static str>, AllocError> {
    let table = Table::Tokens;
    let Some((token, user)) = entry.split_once('=') else {
        return Ok(Some("it is not TOKEN=USER"));
    };
    if !table.takes(alloc, format!(in alloc; "{token}=u"))? {
        return Ok(Some("TOKEN is not 1 to 64 ASCII letters, digits, `-` or `_`"));
    }
    if !table.takes(alloc, format!(in alloc; "t={user}"))? {
        return Ok(Some("USER is not 1 to 64 ASCII letters, digits, `-` or `_`"));
    }
    Ok(None)
}

// Keeps what stands before an entry's `=`. The rule that the entry breaks, if an earlier one has the same there.
fn keep_name(
    alloc: Global,
    table: Table,
    entry: &str,
    names: &mut BTreeSet<String>,
) -> Result<Option<&'static str>, AllocError> {
    let name = match entry.split_once('=') {
        Some((name, _)) => name,
        None => entry,
    };
    if names.contains(name) {
        return Ok(Some(table.twice()));
    }
    match names.insert(String::from_str(alloc, name)?) {
        Ok(_) => Ok(None),
        Err(_) => Err(AllocError),
    }
}

impl Table {
    fn option(self) -> &'static str {
        match self {
            Table::Namespaces => "--ns",
            Table::Tokens => "--tokens",
        }
    }

    fn setting(self) -> Setting {
        match self {
            Table::Namespaces => Setting::Namespaces,
            Table::Tokens => Setting::Tokens,
        }
    }

    // What is wrong with an entry whose name stands in an earlier one.
    fn twice(self) -> &'static str {
        match self {
            Table::Namespaces => "an earlier entry has this NAME",
            Table::Tokens => "an earlier entry has this TOKEN",
        }
    }

    // Whether a text, if there was memory for it, is one that this setting takes.
    fn takes(self, alloc: Global, text: Result<String, AllocError>) -> Result<bool, AllocError> {
        let text = text?;
        let fault = match self {
            Table::Namespaces => read_namespaces(alloc, text.as_str()).err(),
            Table::Tokens => read_tokens(alloc, text.as_str()).err(),
        };
        match fault {
            None => Ok(true),
            Some(ReadFault::Bad) => Ok(false),
            Some(ReadFault::Memory) => Err(AllocError),
        }
    }
}

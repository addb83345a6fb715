//! The users that may connect.
ghost use Rattle.std.specs.Prelude.{◌≡◌, ℕ, List, option_copied, IfOk, MatchOption};
ghost use Rattle.cf_protocol.specs.Settings.{TokenTable, user_of, in_bytes};
ghost use Rattle.cf_protocol.specs.SettingsText.{IsTokens, IsToken, is_name, IsReadAs};
ghost use Rattle.cf_protocol.specs.SettingsRead.{Adds};

use crate::fault::ReadFault;
use crate::table::value_of;
use crate::words::{cut_name, is_word};
use std::alloc::Global;
use std::marker::Model;

/// The longest token, and the longest name of a user, in bytes.
const MAX_WORD: usize = 64;

/// The user of each token.
#[derive(Drop)]
pub struct Tokens {
    entries: Vec<(String, String)>,
}

impl Model for Tokens {
    ghost use Rattle.cf_protocol.specs.Settings.{TokenTable, in_bytes};

    ghost Value = { TokenTable };

    ghost view = { λ t. in_bytes t.entries.items };
}

impl Tokens {
    /// The user that a token connects, if the token is known. The empty token connects the empty user.
    pub fn user(&self, token: &str) -> Option<&str>
        ensures { option_copied result ≡ user_of self.now token.now }
    {
        if token.is_empty() {
            return Some("");
        }
        match value_of(&self.entries, token) {
            Some(user) => Some(user.as_str()),
            None => None,
        }
    }
}

/// Whether these are 1 to 64 ASCII letters, digits, `-` or `_`.
fn is_name(text: &str) -> bool
    ensures { result ≡ is_name text.now }
{
    !text.is_empty() && is_word(text, MAX_WORD)
}

/// An entry: `TOKEN=USER`.
fn read_entry(text: &str) -> Option<(&str, &str)>
    ensures { MatchOption result ((e : List ℕ × List ℕ) → IsToken text.now e → ⊥)
        (λ p. IsToken text.now (p.0.now, p.1.now)) }
{
    let (token, user) = cut_name(text)?;
    if !is_name(token) {
        return None;
    }
    if !is_name(user) {
        return None;
    }
    Some((token, user))
}

/// One entry more, behind the others. `Bad` if the text is no entry, or its token stands already.
fn add(entries: &mut Vec<(String, String)>, alloc: Global, text: &str) -> Result<(), ReadFault>
    ensures { Adds IsToken text.now (in_bytes entries.old.items) result
        (in_bytes entries.new.items) }
{
    let Some((token, user)) = read_entry(text) else {
        return Err(ReadFault::Bad);
    };
    if value_of(entries, token).is_some() {
        return Err(ReadFault::Bad);
    }
    let token = String::from_str(alloc, token)?;
    let user = String::from_str(alloc, user)?;
    entries.push((token, user)).map_err(ReadFault::from)
}

/// The tokens that a text sets up: entries separated by `;`, each `TOKEN=USER`, both 1 to 64 ASCII letters, digits, `-` or `_`,
/// no token twice. The empty text has no entry. `Bad` is any other text.
pub fn read_tokens(alloc: Global, text: &str) -> Result<Tokens, ReadFault>
    // What is read is what the text spells.
    ensures found { IfOk result (λ table. IsTokens text.now table) }
    // A text that spells a table is read as it, unless memory is refused; so `Bad` is a text that spells none.
    ensures only { (table : TokenTable) → IsTokens text.now table → IsReadAs table result }
{
    let mut entries = Vec::new(alloc);
    if text.is_empty() {
        return Ok(Tokens { entries });
    }
    for entry in text.split(';') {
        add(&mut entries, alloc, entry)?;
    }
    Ok(Tokens { entries })
}

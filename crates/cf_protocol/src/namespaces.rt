//! The namespaces that are set up.
ghost use Rattle.std.specs.Prelude.{◌≡◌, ◌≤◌, ℕ, List, IfSome, IfOk, MatchOption, is_some};
ghost use Rattle.std.specs.List.Sorted.{IsPermutation};
ghost use Rattle.cf_protocol.specs.Settings.{NamespaceTable, entry_at, settings_of, namespace_of, named, IsUsable, with_size};
ghost use Rattle.cf_protocol.specs.SettingsText.{IsNamespaces, IsNamespace, IsSettings, IsReadAs, letters_of};
ghost use Rattle.cf_protocol.specs.SettingsRead.{IsFoundBy, AddsLetter, HasMost, Adds};
ghost use Rattle.cf_protocol.specs.declared.settings.Settings.{Settings as SettingsValue};

use crate::fault::ReadFault;
use crate::limits::LARGEST_SIZE;
use crate::settings::Settings;
use crate::table::value_of;
use crate::words::{count_of, cut_name, cut_part, is_word};
use std::alloc::{AllocError, Global};
use std::marker::Model;

/// The longest name of a namespace, in bytes.
const MAX_NAME: usize = 32;
/// The most seconds for which a stream may hold them, thirty days.
const MAX_SECONDS: u64 = 2_592_000;

/// The settings of each namespace that is set up, by its name.
#[derive(Drop)]
pub struct Namespaces {
    entries: Vec<(String, Settings)>,
}

impl Model for Namespaces {
    ghost use Rattle.cf_protocol.specs.Settings.{NamespaceTable, coded_namespaces, AreUsable, named};

    ghost Value = { NamespaceTable };

    ghost coded = { coded_namespaces };

    ghost view = { λ n. named n.entries.items };

    ghost invariant = { λ n. AreUsable (named n.entries.items) };
}

impl Namespaces {
    /// The same settings again, unless memory is refused.
    pub fn copied(&self) -> Result<Namespaces, AllocError>
        ensures { IfOk result (λ n. n ≡ self.now) }
    {
        Ok(Namespaces {
            entries: self.entries.clone()?,
        })
    }

    /// The settings of a channel, if its namespace is set up.
    pub fn find(&self, channel: &str) -> Option<Settings>
        ensures found { result ≡ settings_of self.now channel.now }
        ensures usable { IfSome result IsUsable }
    {
        value_of(&self.entries, namespace_of(channel)).copied()
    }

    /// Whether a namespace of this name is set up.
    pub fn contains(&self, name: &str) -> bool
        ensures { result ≡ is_some (entry_at self.now name.now) }
    {
        value_of(&self.entries, name).is_some()
    }

    /// Sets the size of a namespace that is set up. It takes no memory.
    pub fn set_size(&mut self, name: &str, size: usize)
        requires { (1 ≤ size) × (size ≤ LARGEST_SIZE) }
        ensures { self.new ≡ with_size name.now size self.old }
    {
        for entry in self.entries.iter_mut() {
            if entry.0.as_str() == name {
                entry.1.size = size;
            }
        }
    }
}

/// The text before the first `:` of a channel, or the empty text.
pub fn namespace_of(channel: &str) -> &str
    ensures { result.now ≡ namespace_of channel.now }
{
    match channel.split_once(':') {
        Some((name, _)) => name,
        None => "",
    }
}

/// The settings with one flag more: `p` (publish), `h` (history) or `s` (presence), if it isn't set yet.
fn with_flag(settings: Settings, flag: u8) -> Option<Settings>
    ensures { MatchOption result (HasMost flag settings) (AddsLetter flag settings) }
{
    let mut settings = settings;
    if flag == b'p' && !settings.publish {
        settings.publish = true;
        return Some(settings);
    }
    if flag == b'h' && !settings.history {
        settings.history = true;
        return Some(settings);
    }
    if flag == b's' && !settings.presence {
        settings.presence = true;
        return Some(settings);
    }
    None
}

/// The settings of this size and time with these flags, each at most once, in any order.
fn read_flags(flags: &str, size: usize, seconds: u64) -> Option<Settings>
    ensures { MatchOption result ((s : SettingsValue) → IsPermutation (letters_of s) flags.now → ⊥)
        (λ s. (s.size ≡ size) × (s.seconds ≡ seconds) × IsPermutation (letters_of s) flags.now) }
{
    let mut settings = Settings {
        size,
        seconds,
        publish: false,
        history: false,
        presence: false,
    };
    for flag in flags.as_bytes() {
        let Some(with_this) = with_flag(settings, *flag) else {
            return None;
        };
        settings = with_this;
    }
    Some(settings)
}

/// What stands behind the `=` of an entry: `SIZE,SECONDS,FLAGS`.
fn read_settings(text: &str) -> Option<Settings>
    ensures { IsFoundBy (IsSettings text.now) result }
{
    let (size_text, rest) = cut_part(text)?;
    let (seconds_text, flags) = cut_part(rest)?;
    let size = count_of(size_text, LARGEST_SIZE)?;
    let seconds = count_of(seconds_text, MAX_SECONDS)?;
    read_flags(flags, size as usize, seconds)
}

/// An entry: `NAME=SIZE,SECONDS,FLAGS`.
fn read_entry(text: &str) -> Option<(&str, Settings)>
    ensures { MatchOption result ((e : List ℕ × SettingsValue) → IsNamespace text.now e → ⊥)
        (λ p. IsNamespace text.now (p.0.now, p.1)) }
{
    let (name, rest) = cut_name(text)?;
    if !is_word(name, MAX_NAME) {
        return None;
    }
    let settings = read_settings(rest)?;
    Some((name, settings))
}

/// One entry more, behind the others. `Bad` if the text is no entry, or its name stands already.
fn add(entries: &mut Vec<(String, Settings)>, alloc: Global, text: &str) -> Result<(), ReadFault>
    ensures { Adds IsNamespace text.now (named entries.old.items) result
        (named entries.new.items) }
{
    let Some((name, settings)) = read_entry(text) else {
        return Err(ReadFault::Bad);
    };
    if value_of(entries, name).is_some() {
        return Err(ReadFault::Bad);
    }
    let name = String::from_str(alloc, name)?;
    entries.push((name, settings)).map_err(ReadFault::from)
}

/// The namespaces that a text sets up: entries separated by `;`, each `NAME=SIZE,SECONDS,FLAGS`. A name is at most 32 ASCII
/// letters, digits, `-` or `_`, and none stands twice; SIZE is 1 to 10,000 and SECONDS 1 to 2,592,000, without leading zeros;
/// FLAGS has each of `p` (clients may publish), `h` (they may ask for the history) and `s` (presence is kept) at most once.
/// `Bad` is any other text, the empty one among them.
pub fn read_namespaces(alloc: Global, text: &str) -> Result<Namespaces, ReadFault>
    // What is read is what the text spells.
    ensures found { IfOk result (λ table. IsNamespaces text.now table) }
    // A text that spells a table is read as it, unless memory is refused; so `Bad` is a text that spells none.
    ensures only { (table : NamespaceTable) → IsNamespaces text.now table → IsReadAs table result }
{
    let mut entries = Vec::new(alloc);
    for entry in text.split(';') {
        add(&mut entries, alloc, entry)?;
    }
    Ok(Namespaces { entries })
}

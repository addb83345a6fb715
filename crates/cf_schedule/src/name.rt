//! The words of a schedule's lines.
ghost use Rattle.std.specs.Prelude.{◌≡◌, IfOk, IsErrOf, ◌↔◌};
ghost use Rattle.std.specs.Char.{is_ascii_graphic};
ghost use Rattle.std.specs.List.{list_all};
ghost use Rattle.cf_schedule.specs.Seen.{key_of};
ghost use Rattle.cf_schedule.specs.Word.{is_name_byte, is_client_name, is_channel_name, IsClientName, IsChannelName};
ghost use Rattle.cf_schedule.specs.Word.{is_key, is_namespace_name, IsKey, IsNamespaceName};

use crate::event::EventFault;
use std::alloc::Global;
use std::fmt;
use std::marker::Model;

/// A client's name: 1 to 32 ASCII letters, digits, `-` or `_`.
#[derive(Drop)]
pub struct ClientName {
    text: String,
}

impl Model for ClientName {
    ghost use Rattle.std.specs.Prelude.{ℕ, List, string_bytes};
    ghost use Rattle.cf_schedule.specs.Word.{IsClientName};

    ghost Value = { List ℕ };

    ghost view = { λ n. string_bytes n.text };

    ghost invariant = { λ n. IsClientName (string_bytes n.text) };
}

/// A channel's name: 1 to 255 visible ASCII characters.
#[derive(Drop)]
pub struct ChannelName {
    text: String,
}

impl Model for ChannelName {
    ghost use Rattle.std.specs.Prelude.{ℕ, List, string_bytes};
    ghost use Rattle.cf_schedule.specs.Word.{IsChannelName};

    ghost Value = { List ℕ };

    ghost view = { λ n. string_bytes n.text };

    ghost invariant = { λ n. IsChannelName (string_bytes n.text) };
}

/// The key of a publish: 1 to 64 visible ASCII characters.
#[derive(Drop)]
pub struct Key {
    text: String,
}

impl Model for Key {
    ghost use Rattle.std.specs.Prelude.{ℕ, List, string_bytes};
    ghost use Rattle.cf_schedule.specs.Word.{IsKey};

    ghost Value = { List ℕ };

    ghost view = { λ k. string_bytes k.text };

    ghost invariant = { λ k. IsKey (string_bytes k.text) };
}

/// A namespace's name: at most 32 ASCII letters, digits, `-` or `_`.
#[derive(Drop)]
pub struct NamespaceName {
    text: String,
}

impl Model for NamespaceName {
    ghost use Rattle.std.specs.Prelude.{ℕ, List, string_bytes};
    ghost use Rattle.cf_schedule.specs.Word.{IsNamespaceName};

    ghost Value = { List ℕ };

    ghost view = { λ n. string_bytes n.text };

    ghost invariant = { λ n. IsNamespaceName (string_bytes n.text) };
}

fn is_name_byte(byte: &u8) -> bool
    ensures { result ≡ is_name_byte byte.now }
{
    byte.is_ascii_alphanumeric() || *byte == b'-' || *byte == b'_'
}

fn has_name_bytes(text: &str) -> bool
    ensures { result ≡ list_all is_name_byte text.now }
{
    text.as_bytes().iter().all(is_name_byte)
}

fn is_client_name(text: &str) -> bool
    ensures { result ≡ is_client_name text.now }
{
    !text.is_empty() && text.len() <= 32 && has_name_bytes(text)
}

fn has_visible_bytes(text: &str) -> bool
    ensures { result ≡ list_all is_ascii_graphic text.now }
{
    text.as_bytes().iter().all(u8::is_ascii_graphic)
}

fn is_channel_name(text: &str) -> bool
    ensures { result ≡ is_channel_name text.now }
{
    !text.is_empty() && text.len() <= 255 && has_visible_bytes(text)
}

fn is_key(text: &str) -> bool
    ensures { result ≡ is_key text.now }
{
    !text.is_empty() && text.len() <= 64 && has_visible_bytes(text)
}

fn is_namespace_name(text: &str) -> bool
    ensures { result ≡ is_namespace_name text.now }
{
    text.len() <= 32 && has_name_bytes(text)
}

impl ClientName {
    /// The name that a text is. Unreadable if the text is none.
    pub fn read(alloc: Global, text: &str) -> Result<ClientName, EventFault>
        ensures ok { IfOk result (λ name. name ≡ text.now) }
        ensures unreadable { IsErrOf result EventFault.Unreadable ↔ ¬ IsClientName text.now }
    {
        if !is_client_name(text) {
            return Err(EventFault::Unreadable);
        }
        Ok(ClientName {
            text: String::from_str(alloc, text)?,
        })
    }

    /// The name's characters.
    pub fn as_str(&self) -> &str
        ensures { result.now ≡ self.now }
    {
        self.text.as_str()
    }
}

impl ChannelName {
    /// The name that a text is. Unreadable if the text is none.
    pub fn read(alloc: Global, text: &str) -> Result<ChannelName, EventFault>
        ensures ok { IfOk result (λ name. name ≡ text.now) }
        ensures unreadable { IsErrOf result EventFault.Unreadable ↔ ¬ IsChannelName text.now }
    {
        if !is_channel_name(text) {
            return Err(EventFault::Unreadable);
        }
        Ok(ChannelName {
            text: String::from_str(alloc, text)?,
        })
    }

    /// The name's characters.
    pub fn as_str(&self) -> &str
        ensures { result.now ≡ self.now }
    {
        self.text.as_str()
    }
}

impl Key {
    /// The key that a text is. Unreadable if the text is none.
    pub fn read(alloc: Global, text: &str) -> Result<Key, EventFault>
        ensures ok { IfOk result (λ key. key ≡ text.now) }
        ensures unreadable { IsErrOf result EventFault.Unreadable ↔ ¬ IsKey text.now }
    {
        if !is_key(text) {
            return Err(EventFault::Unreadable);
        }
        Ok(Key {
            text: String::from_str(alloc, text)?,
        })
    }

    /// The key's characters.
    pub fn as_str(&self) -> &str
        ensures { result.now ≡ self.now }
    {
        self.text.as_str()
    }
}

/// The characters of a key, none if there is no key.
pub fn key_text(key: &Option<Key>) -> &str
    ensures { result.now ≡ key_of key.now }
{
    match key {
        Some(key) => key.as_str(),
        None => "",
    }
}

impl NamespaceName {
    /// The name that a text is. Unreadable if the text is none.
    pub fn read(alloc: Global, text: &str) -> Result<NamespaceName, EventFault>
        ensures ok { IfOk result (λ name. name ≡ text.now) }
        ensures unreadable { IsErrOf result EventFault.Unreadable ↔ ¬ IsNamespaceName text.now }
    {
        if !is_namespace_name(text) {
            return Err(EventFault::Unreadable);
        }
        Ok(NamespaceName {
            text: String::from_str(alloc, text)?,
        })
    }

    /// The name's characters.
    pub fn as_str(&self) -> &str
        ensures { result.now ≡ self.now }
    {
        self.text.as_str()
    }
}

impl fmt::Display for ClientName {
    ghost use Rattle.std.specs.Prelude.{Some};

    ghost output = { λ n. Some n };

    fn fmt<W: fmt::Write>(&self, f: &mut fmt::Formatter<W>) -> fmt::Result {
        f.write_str(self.as_str())
    }
}

impl fmt::Display for ChannelName {
    ghost use Rattle.std.specs.Prelude.{Some};

    ghost output = { λ n. Some n };

    fn fmt<W: fmt::Write>(&self, f: &mut fmt::Formatter<W>) -> fmt::Result {
        f.write_str(self.as_str())
    }
}

//! The epoch of a stream.
ghost use Rattle.std.specs.Prelude.{◌≡◌, ◌==◌, ◌↔◌, IsTrue, length, []};
ghost use Rattle.std.specs.Str.{bytes_eq};
ghost use Rattle.cf_protocol.specs.Epoch.{IsEpoch, epoch_of, is_epoch};

use std::marker::Model;
use std::{fmt, str};

/// The most characters that an epoch has.
const MAX_LEN: usize = 32;

/// An epoch of a stream: at most 32 ASCII letters or digits. The empty one stands for none.
#[derive(Clone, Copy, Debug)]
pub struct Epoch {
    bytes: [u8; MAX_LEN],
    len: u8,
}

impl Model for Epoch {
    ghost use Rattle.std.specs.Prelude.{◌≡◌, ℕ, List, take, length};
    ghost use Rattle.cf_protocol.specs.Epoch.{IsEpoch, padded};

    ghost Value = { List ℕ };

    ghost view = { λ e. take e.len e.bytes };

    ghost invariant = { λ e. (length (take e.len e.bytes) ≡ e.len)
        × IsEpoch (take e.len e.bytes)
        × (e.bytes ≡ padded (take e.len e.bytes)) };

    ghost inverse = { λ s. record { bytes = padded s; len = length s } };
}

/// Whether these are at most 32 ASCII letters or digits.
pub fn is_epoch(text: &[u8]) -> bool
    ensures { result ≡ is_epoch text.now }
{
    for byte in text {
        if !byte.is_ascii_alphanumeric() {
            return false;
        }
    }
    text.len() <= MAX_LEN
}

impl Epoch {
    /// The empty epoch.
    pub fn none() -> Epoch
        ensures { result ≡ [] }
    {
        Epoch {
            bytes: [0; MAX_LEN],
            len: 0,
        }
    }

    /// The epoch that a text is read as: a text that isn't 1 to 32 ASCII letters or digits is read as the empty epoch.
    pub fn from_text(text: &str) -> Epoch
        ensures { result ≡ epoch_of text.now }
    {
        let given = text.as_bytes();
        if !is_epoch(given) {
            return Epoch::none();
        }
        let mut bytes = [0; MAX_LEN];
        bytes[..given.len()].copy_from_slice(given);
        Epoch {
            bytes,
            len: given.len() as u8,
        }
    }

    /// Whether this stands for no epoch.
    pub fn is_empty(&self) -> bool
        ensures { result ≡ (length self.now == 0) }
    {
        self.len == 0
    }

    /// Its characters.
    pub fn as_str(&self) -> &str
        ensures characters { result.now ≡ self.now }
        ensures letters_or_digits { IsEpoch self.now }
    {
        match str::from_utf8(&self.bytes[..self.len as usize]) {
            Ok(text) => text,
            Err(_) => unreachable!(),
        }
    }
}

/// Two epochs are equal if their characters are.
impl PartialEq for Epoch {
    ghost use Rattle.std.specs.Str.{bytes_eq};
    ghost use Rattle.std.specs.Cmp.{partial_equiv_from_equiv};
    ghost use Rattle.std.specs.Cmp.Lexicographic.{nat_list_eq_equiv};

    ghost eq = { bytes_eq };

    ghost laws = { partial_equiv_from_equiv nat_list_eq_equiv };

    fn eq(&self, other: &Epoch) -> bool
        ensures answers { result ≡ bytes_eq self.now other.now }
        ensures same { IsTrue result ↔ (self.now ≡ other.now) }
    {
        self.bytes[..self.len as usize] == other.bytes[..other.len as usize]
    }
}

impl Eq for Epoch {
    ghost use Rattle.std.specs.Cmp.Lexicographic.{nat_list_eq_equiv};

    ghost laws = { nat_list_eq_equiv };
}

impl fmt::Display for Epoch {
    ghost use Rattle.std.specs.Prelude.{Some};

    ghost output = { λ e. Some e };

    fn fmt<W: fmt::Write>(&self, f: &mut fmt::Formatter<W>) -> fmt::Result {
        f.write_str(self.as_str())
    }
}

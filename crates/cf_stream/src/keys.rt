//! The keys that a stream remembers.
ghost use Rattle.std.specs.Prelude.{◌≡◌, ◌≤◌, ◌+◌, [], false, min, length, OnOk};
ghost use Rattle.std.specs.String.{string_bytes};
ghost use Rattle.circular_buffer.specs.Buffer.{buffer};
ghost use Rattle.cf_model.specs.Keys.{and_key, is_no_key, offset_of};

use crate::ring::Ring;
use std::alloc::{AllocError, Global};
use std::marker::Model;

/// How many keys a stream remembers.
const MOST_KEYS: usize = 100;

/// A key, and the offset of the publication that brought it.
#[derive(Drop)]
pub(crate) struct KeptKey {
    key: String,
    offset: u64,
}

impl Model for KeptKey {
    ghost use Rattle.std.specs.String.{string_bytes};
    ghost use Rattle.cf_model.specs.Keys.{KeyAt};

    ghost Value = { KeyAt };

    ghost view = { λ k. record { key = string_bytes k.key; offset = k.offset } };
}

/// The keys that a stream remembers, the oldest first. Until the first one comes they take a word.
#[derive(Drop)]
pub(crate) struct RecentKeys {
    ring: Ring<KeptKey>,
}

impl Model for RecentKeys {
    ghost use Rattle.circular_buffer.specs.Buffer.{Buffer};
    ghost use Rattle.cf_model.specs.Keys.{KeyAt};

    ghost Value = { Buffer KeyAt };

    ghost view = { λ k. k.ring };
}

impl RecentKeys {
    /// None, and no room for one.
    pub(crate) fn new() -> RecentKeys
        ensures { result ≡ buffer [] 0 }
    {
        RecentKeys { ring: Ring::new() }
    }

    /// Makes room for a key, if it is one: the empty key is none.
    pub(crate) fn make_room(&mut self, alloc: Global, key: &str) -> Result<(), AllocError>
        requires { length self.old.items ≤ 100 }
        ensures items { self.new.items ≡ self.old.items }
        ensures room { OnOk result (is_no_key key.now ≡ false
            → min 100 (length self.old.items + 1) ≤ self.new.capacity) }
    {
        if key.is_empty() {
            return Ok(());
        }
        self.ring.make_room(alloc, MOST_KEYS)
    }

    /// Remembers the key of a publication, and lets the oldest go past a hundred. The empty key is none. It takes no memory.
    pub(crate) fn remember(&mut self, key: String, offset: u64)
        requires few { length self.old.items ≤ 100 }
        requires room { is_no_key (string_bytes key) ≡ false
            → min 100 (length self.old.items + 1) ≤ self.old.capacity }
        ensures { self.new.items ≡ and_key self.old.items (string_bytes key) offset }
    {
        if !key.is_empty() {
            self.ring.put(MOST_KEYS, KeptKey { key, offset });
        }
    }

    /// The offset at which a key stands.
    pub(crate) fn offset_of(&self, key: &str) -> Option<u64>
        ensures { result ≡ offset_of key.now self.now.items }
    {
        for i in 0..self.ring.len() {
            match self.ring.get(i) {
                None => unreachable!(),
                Some(at) => {
                    if at.key.as_str() == key {
                        return Some(at.offset);
                    }
                }
            }
        }
        None
    }
}

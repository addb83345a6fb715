//! Maps by texts.
ghost use Rattle.std.specs.Prelude.{◌≡◌, IfOk, OnOk, OnErr, Some};
ghost use Rattle.cf_presence.specs.Maps.{SetsAt, Puts};

use crate::error::PresenceError;
use std::alloc::{AllocFailed, Global};
use std::collections::BTreeMap;

/// Puts a value at a key, and answers what was there. `Memory` if a growth was refused.
pub(crate) fn put<V: Drop>(
    map: &mut BTreeMap<String, V>,
    alloc: Global,
    key: &str,
    value: V,
) -> Result<Option<V>, PresenceError>
    ensures puts { IfOk result (λ before. Puts map.old map.new key.now value before) }
    ensures sets { OnOk result (SetsAt map.old map.new key.now (Some value)) }
    ensures err { OnErr result (map.new.entries ≡ map.old.entries) }
{
    let key = String::from_str(alloc, key)?;
    match map.insert(key, value) {
        Ok(before) => Ok(before),
        Err(
            AllocFailed {
                value: (_key, _value),
            },
        ) => Err(PresenceError::Memory),
    }
}

//! The channels' names, each under a number.

use slab::Slab;
use std::alloc::{AllocError, Global};
use std::collections::BTreeMap;

/// The names that have a number, both ways.
#[derive(Drop)]
pub struct Names {
    pub(crate) numbers: BTreeMap<String, u32>,
    pub(crate) names: Slab<String>,
}

impl Names {
    ghost use Rattle.std.specs.Prelude.{◌≡◌, None, Some, IfOk, OnErr};
    ghost use Rattle.cf_subscribers.specs.Names.{AreNumbered, HasNone, SetsName, SameNames, name_at, number_at};

    /// No name. It takes no memory.
    pub(crate) fn new(alloc: Global) -> Names
        ensures numbered { AreNumbered result }
        ensures none { HasNone result }
    {
        Names {
            numbers: BTreeMap::new(alloc),
            names: Slab::new(alloc),
        }
    }

    /// The number of a name.
    pub(crate) fn number(&self, name: &str) -> Option<u32>
        ensures { result ≡ number_at self.now name.now }
    {
        self.numbers.get(name).copied()
    }

    /// Gives a number to a name that has none. All that takes memory comes before the first change.
    pub(crate) fn add(&mut self, alloc: Global, name: &str) -> Result<u32, AllocError>
        requires numbered { AreNumbered self.old }
        requires absent { number_at self.old name.now ≡ None }
        ensures numbered { AreNumbered self.new }
        ensures free { IfOk result (λ n. name_at self.old n ≡ None) }
        ensures ok { IfOk result (λ n. SetsName self.old self.new n (Some name.now)) }
        ensures err { OnErr result (SameNames self.old self.new) }
    {
        self.names.reserve(1)?;
        let Ok(number) = u32::try_from(self.names.vacant_key()) else {
            return Err(AllocError);
        };
        let key = String::from_str(alloc, name)?;
        let text = String::from_str(alloc, name)?;
        self.numbers.insert(key, number)?;
        self.names.insert_reserved(text);
        Ok(number)
    }

    /// Takes a name's number back. It takes no memory.
    pub(crate) fn remove(&mut self, number: u32)
        requires numbered { AreNumbered self.old }
        ensures numbered { AreNumbered self.new }
        ensures gone { SetsName self.old self.new number None }
    {
        if let Some(name) = self.names.try_remove(number as usize) {
            let _number = self.numbers.remove(name.as_str());
        }
    }
}

//! The sessions of a node, each at the place of its number.
ghost use Rattle.std.specs.Prelude.{◌≡◌, ◌≢◌, ◌≤◌, ℕ, [], Some, None, OnOk, OnErr, IfNone, IfSome, length};
ghost use Rattle.std.specs.Borrow.{sem};
ghost use Rattle.std.specs.Option.{option_copied, option_copied_mut};

use crate::session::AttachedSession;
use std::alloc::{AllocError, Global};
use std::marker::Model;

/// Sessions by number: a session is found at once. The list of the places grows and never shrinks.
#[derive(Drop)]
pub(crate) struct Sessions {
    places: Vec<Option<Box<AttachedSession>>>,
}

impl Model for Sessions {
    ghost use Rattle.std.specs.Prelude.{◌^◌, ◌≤◌, List, Option, length};
    ghost use Rattle.std.specs.Coded.{coded_list, coded_option};
    ghost use Rattle.cf_hub.specs.declared.session.AttachedSession.{AttachedSession};
    ghost use Rattle.cf_hub.specs.contracts.session.AttachedSession as session;
    ghost use Rattle.cf_hub.specs.Places.{unboxed_all};

    ghost Value = { List (Option AttachedSession) };

    ghost coded = { coded_list (coded_option session.the_row.coded) };

    ghost view = { λ s. unboxed_all s.places.items };

    ghost invariant = { λ s. length s.places.items ≤ 2 ^ 32 };
}

impl Sessions {
    ghost use Rattle.std.specs.Prelude.{◌≡◌, ◌≢◌, ◌≤◌, ℕ, [], Some, None, OnOk, OnErr, IfNone, IfSome, length};
    ghost use Rattle.std.specs.Borrow.{sem};
    ghost use Rattle.std.specs.Option.{option_copied, option_copied_mut};
    ghost use Rattle.cf_hub.specs.Places.{session_in};
    ghost use Rattle.cf_hub.specs.Hub.{HasNoneFrom, IsNextFrom, attached_in};
    ghost use Rattle.cf_hub.specs.Lent.{LendsSession};

    /// None, and no room. It takes no memory.
    pub(crate) fn new(alloc: Global) -> Sessions
        ensures { result ≡ [] }
    {
        Sessions {
            places: Vec::new(alloc),
        }
    }

    /// The session of a number.
    pub(crate) fn get(&self, number: u32) -> Option<&AttachedSession>
        ensures { option_copied result ≡ session_in self.now number }
    {
        match self.places.get(number as usize) {
            Some(Some(session)) => Some(session),
            _ => None,
        }
    }

    /// The session of a number, to be changed.
    pub(crate) fn get_mut(&mut self, number: u32) -> Option<&mut AttachedSession>
        ensures* writes_back { sem 𝓛 (LendsSession self.entry number result) }
        ensures value { option_copied_mut result ≡ session_in self.old number }
    {
        let place = self.places.get_mut(number as usize)?;
        match place {
            Some(session) => Some(session),
            None => None,
        }
    }

    /// The least number from this one on that has a session.
    pub(crate) fn next_from(&self, from: u32) -> Option<u32>
        ensures none { IfNone result (HasNoneFrom from (attached_in self.now)) }
        ensures next { IfSome result (λ k. IsNextFrom from k (attached_in self.now)) }
    {
        for place in from as usize..self.places.len() {
            let number = place as u32;
            if self.get(number).is_some() {
                return Some(number);
            }
        }
        None
    }

    /// Puts a session at a number that has a place, or at the one behind all places. If memory is refused, nothing changes.
    pub(crate) fn insert(
        &mut self,
        alloc: Global,
        number: u32,
        session: AttachedSession,
    ) -> Result<(), AllocError>
        requires { number ≤ length self.old }
        ensures here { OnOk result (session_in self.new number ≡ Some session) }
        ensures others { OnOk result
            ((j : ℕ) → j ≢ number → session_in self.new j ≡ session_in self.old j) }
        ensures err { OnErr result (self.new ≡ self.old) }
    {
        let boxed = Some(Box::new(alloc, session)?);
        if number as usize == self.places.len() {
            return Ok(self.places.push(boxed)?);
        }
        self.places[number as usize] = boxed;
        Ok(())
    }

    /// Takes the session of a number away. It takes no memory.
    pub(crate) fn remove(&mut self, number: u32)
        ensures here { session_in self.new number ≡ None }
        ensures others { (j : ℕ) → j ≢ number → session_in self.new j ≡ session_in self.old j }
    {
        let Some(place) = self.places.get_mut(number as usize) else {
            return;
        };
        drop(place.take());
    }
}

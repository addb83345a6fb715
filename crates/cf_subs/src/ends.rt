//! Where the list of each number begins and ends.
ghost use Rattle.std.specs.Prelude.{◌≡◌, ◌<◌, Some, IsSome, nat_eq, option_map};
ghost use Rattle.std.specs.HashMap.{get, spare};
ghost use Rattle.cf_subs.specs.Ends.{SetsAt, grown, shrunk};

use crate::blocks::At;
use std::collections::HashMap;

/// The first block of a list, and the last.
#[derive(Clone, Copy, Drop)]
pub struct ListEnds {
    pub(crate) first: At,
    pub(crate) last: At,
}

/// The ends of each number's list. A number whose list is empty has no entry.
pub type EndsByNumber = HashMap<u32, ListEnds>;

/// The first block of a number's list.
pub(crate) fn first(ends: &EndsByNumber, number: u32) -> Option<At>
    ensures { result ≡ option_map (λ e. e.first) (get nat_eq ends.now number) }
{
    match ends.get(&number) {
        Some(found) => Some(found.first),
        None => None,
    }
}

/// The last block of a number's list.
pub(crate) fn last(ends: &EndsByNumber, number: u32) -> Option<At>
    ensures { result ≡ option_map (λ e. e.last) (get nat_eq ends.now number) }
{
    match ends.get(&number) {
        Some(found) => Some(found.last),
        None => None,
    }
}

/// A block is linked in behind all others of a number's list. It takes no memory.
pub(crate) fn grow(ends: &mut EndsByNumber, number: u32, at: At)
    requires { 0 < spare ends.old }
    ensures { SetsAt ends.old ends.new number (Some (grown (get nat_eq ends.old number) at)) }
{
    let first = first(ends, number).unwrap_or(at);
    match ends.insert(number, ListEnds { first, last: at }) {
        Ok(_) => {}
        Err(_) => unreachable!(),
    }
}

/// A block is unlinked from a number's list, where these lie before it and after it. It takes no memory.
pub(crate) fn shrink(ends: &mut EndsByNumber, number: u32, before: Option<At>, after: Option<At>)
    ensures { SetsAt ends.old ends.new number (shrunk (get nat_eq ends.old number) before after) }
{
    let Some(old) = ends.get_mut(&number) else {
        return;
    };
    match (before, after) {
        (None, None) => {
            ends.remove(&number);
        }
        (None, Some(first)) => old.first = first,
        (Some(last), None) => old.last = last,
        (Some(_), Some(_)) => {}
    }
}

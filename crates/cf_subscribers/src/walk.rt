//! A walk over the rows of one channel.
ghost use Rattle.std.specs.Prelude.{◌≡◌};
ghost use Rattle.std.specs.Iterator.{YieldsFirst, item_count};

use cf_subs::Walk;
use std::marker::Model;

/// The sessions that follow a channel, in order of adding.
#[derive(Drop)]
pub struct FollowerWalk<'a> {
    /// None if the channel has no number, and so no row.
    pub(crate) rest: Option<Walk<'a>>,
}

impl<'a> Model for FollowerWalk<'a> {
    ghost use Rattle.std.specs.Prelude.{List, ℕ, [], unwrap_or};

    ghost Value = { List ℕ };

    ghost view = { λ w. unwrap_or w.rest [] };
}

impl<'a> Iterator for FollowerWalk<'a> {
    type Item = u32;

    ghost next_gives = { YieldsFirst (λ w. w) };

    ghost remaining = { item_count (λ w. w) };

    fn next(&mut self) -> Option<u32> {
        match &mut self.rest {
            Some(rest) => rest.next(),
            None => None,
        }
    }
}

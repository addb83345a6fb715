//! A walk over the channels to which a tick would do something.
ghost use Rattle.std.specs.Prelude.{◌≡◌};
ghost use Rattle.std.specs.Iterator.{YieldsFirstBy, item_count};

use crate::stream::Stream;
use crate::streams::seconds_for;
use cf_protocol::Namespaces;
use std::collections::btree_map;
use std::marker::Model;

/// What a tick would do to a stream.
#[derive(Clone, Copy, PartialEq, Eq, Debug)]
pub enum Due {
    /// The stream was not used for long, and ends.
    Forget,
    /// What it holds was published too long ago, and goes.
    Empty,
}

/// The channels to which a tick would do something, in the order of their bytes.
#[derive(Drop)]
pub struct DueWalk<'a> {
    pub(crate) rest: btree_map::Iter<'a, String, Stream>,
    pub(crate) namespaces: &'a Namespaces,
    pub(crate) now: u64,
    // Nothing is due at that moment.
    pub(crate) is_quiet: bool,
}

impl<'a> Model for DueWalk<'a> {
    ghost use Rattle.std.specs.Prelude.{List, [], ℕ, map, if◌then◌else◌};
    ghost use Rattle.std.specs.String.{string_bytes};
    ghost use Rattle.cf_stream.specs.declared.due.Due.{Due};

    ghost Value = { List (List ℕ × Due) };

    ghost use Rattle.cf_stream.specs.Streams.{due_channels};

    ghost view = { λ w. if w.is_quiet then [] else due_channels w.now w.namespaces.now
        (map (λ e. (string_bytes e.0, e.1)) w.rest) };
}

impl<'a> Iterator for DueWalk<'a> {
    type Item = (&'a str, Due);

    ghost next_gives = { YieldsFirstBy (λ p. (p.0.now, p.1)) (λ w. w) };

    ghost remaining = { item_count (λ w. w) };

    fn next(&mut self) -> Option<(&'a str, Due)> {
        if self.is_quiet {
            return None;
        }
        while let Some((channel, stream)) = self.rest.next() {
            let seconds = seconds_for(self.namespaces, channel);
            if let Some(due) = stream.due(self.now, seconds) {
                return Some((channel.as_str(), due));
            }
        }
        None
    }
}

//! The table of rows.
ghost use Rattle.std.specs.Prelude.{◌≡◌, ◌↔◌, [], length, false, OnOk, OnErr, IsErrOf, slice_get};
ghost use Rattle.cf_subscribers.specs.Follows.{AreFollows, after_in, channels_of, follows, sessions_of, with_follow, without_follow, without_session};
ghost use Rattle.cf_model.specs.Streams.{most_rows};

use crate::named_rows::{add_first_row, remove_row};
use crate::names::Names;
use crate::walk::FollowerWalk;
use cf_subs::{MOST_ROWS, SubTable, SubTableError};
use std::alloc::Global;
use std::marker::Model;

/// The rows of one node, in order of adding: each at most once, and at most 65,536.
///
/// A channel has a number while it has rows, and the rows are linked by number. So no call searches the rows of other channels
/// and of other sessions.
#[derive(Drop)]
pub struct Subscribers {
    names: Names,
    rows: SubTable,
}

impl Model for Subscribers {
    ghost use Rattle.std.specs.Prelude.{List};
    ghost use Rattle.cf_subscribers.specs.Follows.{Follow};

    ghost Value = { List Follow };

    ghost use Rattle.cf_subscribers.specs.Names.{AreKept, named};

    ghost view = { λ t. named t.names t.rows };

    ghost invariant = { λ t. AreKept t.names t.rows };
}

impl Subscribers {
    /// No session follows a channel. It takes no memory.
    pub fn new(alloc: Global) -> Subscribers
        ensures { result ≡ [] }
    {
        Subscribers {
            names: Names::new(alloc),
            rows: SubTable::new(alloc),
        }
    }

    /// How many rows there are. It takes no memory.
    pub fn len(&self) -> usize
        ensures len { result ≡ length self.now }
        ensures rows { AreFollows self.now }
    {
        let _names = &self.names;
        self.rows.len()
    }

    /// Adds the row of a session that doesn't follow the channel yet, behind all others.
    ///
    /// It is refused with `Full` exactly if there are 65,536 rows, and with `Memory` if memory is refused.
    pub fn add(&mut self, alloc: Global, channel: &str, session: u32) -> Result<(), SubTableError>
        requires absent { follows self.old channel.now session ≡ false }
        ensures ok { OnOk result (self.new ≡ with_follow self.old channel.now session) }
        ensures full { IsErrOf result SubTableError.Full ↔ (length self.old ≡ most_rows) }
        ensures err { OnErr result (self.new ≡ self.old) }
        ensures rows { AreFollows self.new }
    {
        if self.rows.len() >= MOST_ROWS {
            return Err(SubTableError::Full);
        }
        match self.names.number(channel) {
            Some(number) => self.rows.add(number, session),
            None => add_first_row(&mut self.names, &mut self.rows, alloc, channel, session),
        }
    }

    /// Whether a session follows a channel. It takes no memory.
    pub fn has(&self, channel: &str, session: u32) -> bool
        ensures { result ≡ follows self.now channel.now session }
    {
        match self.names.number(channel) {
            Some(number) => self.rows.has(number, session),
            None => false,
        }
    }

    /// How many channels a session follows. It takes no memory.
    pub fn count(&self, session: u32) -> usize
        ensures { result ≡ length (channels_of self.now session) }
    {
        let _names = &self.names;
        self.rows.channel_count(session)
    }

    /// Removes the row of a channel and a session, and says whether there was one. It takes no memory.
    pub fn remove(&mut self, channel: &str, session: u32) -> bool
        ensures removed { self.new ≡ without_follow self.old channel.now session }
        ensures found { result ≡ follows self.old channel.now session }
        ensures rows { AreFollows self.new }
    {
        match self.names.number(channel) {
            Some(number) => remove_row(&mut self.names, &mut self.rows, number, session),
            None => false,
        }
    }

    /// Removes all rows of a session, and says how many they were. It takes no memory.
    pub fn detach(&mut self, session: u32) -> usize
        ensures removed { self.new ≡ without_session self.old session }
        ensures counted { result ≡ length (channels_of self.old session) }
        ensures rows { AreFollows self.new }
    {
        let count = self.rows.len();
        while let Some(number) = self.rows.walk_session(session).next() {
            remove_row(&mut self.names, &mut self.rows, number, session);
        }
        count - self.rows.len()
    }

    /// The sessions that follow a channel, in order of adding. It takes no memory, and costs one look-up of the name.
    pub fn walk(&self, channel: &str) -> FollowerWalk<'_>
        ensures sessions { result ≡ sessions_of self.now channel.now }
        ensures rows { AreFollows self.now }
    {
        let Some(number) = self.names.number(channel) else {
            return FollowerWalk { rest: None };
        };
        let rest = self.rows.walk(number);
        FollowerWalk { rest: Some(rest) }
    }

    /// The first session that follows a channel. It takes no memory.
    pub fn first(&self, channel: &str) -> Option<u32>
        ensures first { result ≡ slice_get (sessions_of self.now channel.now) 0 }
        ensures rows { AreFollows self.now }
    {
        let Some(number) = self.names.number(channel) else {
            return None;
        };
        self.rows.first(number)
    }

    /// The session that follows a channel next after another one that does. Rows may go between two of these calls, so that
    /// a walk may remove what it has passed. It takes no memory.
    pub fn after(&self, channel: &str, session: u32) -> Option<u32>
        ensures next { result ≡ after_in session (sessions_of self.now channel.now) }
        ensures rows { AreFollows self.now }
    {
        let Some(number) = self.names.number(channel) else {
            return None;
        };
        self.rows.after(number, session)
    }
}

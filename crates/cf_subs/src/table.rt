//! The table of rows.
ghost use Rattle.std.specs.Prelude.{◌≡◌, ◌≤◌, ◌↔◌, ℕ, [], length, slice_get, false, OnOk, OnErr, IsErrOf};
ghost use Rattle.cf_subs.specs.Rows.{AreRows, HasEachOnce, OnlyDetaches, OnlyJoins, OnlyLeaves, OtherWalksStay, WalkLoses};
ghost use Rattle.cf_subs.specs.Rows.{WalksLose, after_in, channels_of, follows, follows_by, has_channel, is_among, most_rows};
ghost use Rattle.cf_subs.specs.Rows.{sessions_of, with_row, without_row, without_session};

use crate::channel_walk::ChannelWalk;
use crate::error::SubTableError;
use crate::linked_rows::LinkedRows;
use crate::walk::Walk;
use std::alloc::Global;
use std::marker::Model;

/// How many rows a table has at most.
pub const MOST_ROWS: usize = 65_536;

/// A session that follows a channel, both by their numbers.
#[derive(Clone, Copy, Debug, PartialEq, Eq, Drop)]
pub struct Row {
    /// The number of the channel.
    pub channel: u32,
    /// The number of the session.
    pub session: u32,
}

/// The rows of one node, in order of adding: each at most once, and at most 65,536.
///
/// Each row is a block of its own, linked both ways into its channel's list and into its session's list. So a walk costs
/// what it gives, however many rows there are. Two maps tell where the list of each number begins and ends; a number
/// without rows has no entry in them, so their room is bounded by the most numbers that had rows at one time.
pub struct SubTable {
    rows: LinkedRows,
    count: usize,
    alloc: Global,
}

impl Model for SubTable {
    ghost use Rattle.std.specs.Prelude.{List};
    ghost use Rattle.cf_subs.specs.declared.table.Row.{Row};

    ghost Value = { List Row };

    ghost use Rattle.cf_subs.specs.RowBlocks.{rows_of};
    ghost use Rattle.cf_subs.specs.Whole.{IsTable};

    ghost view = { λ t. rows_of t.rows.row_blocks.blocks.held };

    ghost invariant = { λ t. IsTable t.rows t.count };
}

impl Drop for SubTable {
    fn drop(self) {
        let SubTable {
            rows,
            count: _,
            alloc,
        } = self;
        rows.end(alloc);
    }
}

impl SubTable {
    /// A table without rows. It takes no memory.
    pub fn new(alloc: Global) -> SubTable
        ensures { result ≡ [] }
    {
        SubTable {
            rows: LinkedRows::new(alloc),
            count: 0,
            alloc,
        }
    }

    /// Adds the row of a session that doesn't follow the channel yet, behind all others.
    ///
    /// It is refused with `Full` exactly if the table has 65,536 rows, and with `Memory` if memory is refused. Before
    /// anything changes it takes all that takes memory: a block, and room in both maps. It costs the same however many rows
    /// there are, but when a map grows.
    pub fn add(&mut self, channel: u32, session: u32) -> Result<(), SubTableError>
        requires absent { follows self.old channel session ≡ false }
        ensures ok { OnOk result (self.new ≡ with_row self.old channel session) }
        ensures full { IsErrOf result SubTableError.Full ↔ (length self.old ≡ most_rows) }
        ensures err { OnErr result (self.new ≡ self.old) }
        ensures members { OnOk result (OnlyJoins self.old self.new channel session) }
        ensures back { OnOk result (without_row self.new channel session ≡ self.old) }
        ensures rows { AreRows self.new }
    {
        if self.count >= MOST_ROWS {
            return Err(SubTableError::Full);
        }
        self.rows.push(Row { channel, session }, self.alloc)?;
        self.count += 1;
        Ok(())
    }

    /// Whether a session follows a channel. It takes no memory, and goes along the session's channels up to this one.
    pub fn has(&self, channel: u32, session: u32) -> bool
        ensures followed { result ≡ follows self.now channel session }
        ensures in_channel { result ≡ is_among session (sessions_of self.now channel) }
        ensures in_session { result ≡ is_among channel (channels_of self.now session) }
    {
        self.rows.find(channel, session).is_some()
    }

    /// Removes the row of a channel and a session, and says whether there was one. It takes no memory. It frees the row's
    /// block.
    ///
    /// The row is found along the session's channels and not along the channel's sessions: a session follows few.
    pub fn remove(&mut self, channel: u32, session: u32) -> bool
        ensures removed { self.new ≡ without_row self.old channel session }
        ensures found { result ≡ follows self.old channel session }
        ensures members { OnlyLeaves self.old self.new channel session }
        ensures walked { WalkLoses self.old self.new channel session }
        ensures others { OtherWalksStay self.old self.new channel }
        ensures rows { AreRows self.new }
    {
        let Some(at) = self.rows.find(channel, session) else {
            return false;
        };
        self.rows.unlink(at, self.alloc);
        self.count -= 1;
        true
    }

    /// Removes all rows of a session, and says how many they were. It takes no memory, and costs these rows alone.
    pub fn detach(&mut self, session: u32) -> usize
        ensures removed { self.new ≡ without_session self.old session }
        ensures counted { result ≡ length (channels_of self.old session) }
        ensures members { OnlyDetaches self.old self.new session }
        ensures walked { WalksLose self.old self.new session }
        ensures rows { AreRows self.new }
    {
        let gone = self.rows.detach(session, self.alloc);
        self.count -= gone;
        gone
    }

    /// The sessions that follow a channel, in order of adding. It takes no memory.
    pub fn walk(&self, channel: u32) -> Walk<'_>
        ensures sessions { result ≡ sessions_of self.now channel }
        ensures each { HasEachOnce (sessions_of self.now channel) (follows self.now channel) }
        ensures rows { AreRows self.now }
    {
        Walk {
            row_blocks: &self.rows.row_blocks,
            next: self.rows.first_in_channel(channel),
            channel,
        }
    }

    /// The first session that follows a channel, if one does. It takes no memory, and costs one look-up.
    pub fn first(&self, channel: u32) -> Option<u32>
        ensures first { result ≡ slice_get (sessions_of self.now channel) 0 }
        ensures each { HasEachOnce (sessions_of self.now channel) (follows self.now channel) }
        ensures rows { AreRows self.now }
    {
        self.walk(channel).next()
    }

    /// The session that comes next after this one in the walk of a channel that this one follows; no session if it is the
    /// last or doesn't follow the channel. It takes no memory.
    ///
    /// With `first` it goes over a channel's sessions while rows go: take the next session before this one's row is removed.
    /// Nothing but numbers is kept from one step to the next, so any row may go between them but that of the next session.
    /// It goes along the session's channels up to this one, and not along the channel's sessions.
    pub fn after(&self, channel: u32, session: u32) -> Option<u32>
        ensures next { result ≡ after_in session (sessions_of self.now channel) }
        ensures rows { AreRows self.now }
    {
        let Some(at) = self.rows.find(channel, session) else {
            return None;
        };
        let mut rest = Walk {
            row_blocks: &self.rows.row_blocks,
            next: self.rows.row_blocks.next_in_channel(at),
            channel,
        };
        rest.next()
    }

    /// Whether any session follows a channel. It takes no memory, and costs one look-up.
    pub fn has_channel(&self, channel: u32) -> bool
        ensures followed { result ≡ has_channel self.now channel }
        ensures none { (result ≡ false) ↔ (sessions_of self.now channel ≡ []) }
        ensures members { result ≡ false → (s : ℕ) → follows self.now channel s ≡ false }
    {
        self.first(channel).is_some()
    }

    /// How many channels a session follows. It takes no memory, and goes along them.
    pub fn channel_count(&self, session: u32) -> usize
        ensures { result ≡ length (channels_of self.now session) }
    {
        self.walk_session(session).count()
    }

    /// How many rows there are. It takes no memory.
    pub fn len(&self) -> usize
        ensures counted { result ≡ length self.now }
        ensures most { length self.now ≤ most_rows }
    {
        self.count
    }

    /// The channels that a session follows, in order of adding. It takes no memory.
    pub fn walk_session(&self, session: u32) -> ChannelWalk<'_>
        ensures channels { result ≡ channels_of self.now session }
        ensures each { HasEachOnce (channels_of self.now session) (follows_by self.now session) }
        ensures rows { AreRows self.now }
    {
        ChannelWalk {
            row_blocks: &self.rows.row_blocks,
            next: self.rows.first_in_session(session),
            session,
        }
    }
}

//! The rows of a table in the lists of their channels and of their sessions.
ghost use Rattle.std.specs.Prelude.{◌≡◌, ◌+◌, ◌≤◌, [], ◌∷◌, ◌++◌, length, IsSome, OnOk, OnErr, IsNone, IfSome};
ghost use Rattle.cf_subs.specs.Held.{found, without};
ghost use Rattle.cf_subs.specs.Rows.{most_rows, without_session};
ghost use Rattle.cf_subs.specs.RowBlocks.{IsUnlinked, channel_of, place_of, rows_of, session_of};
ghost use Rattle.cf_subs.specs.Threads.{first_of};
ghost use Rattle.cf_subs.specs.Whole.{IsWhole, blocks_of, rows_in};

use crate::blocks::{At, Blocks};
use crate::ends;
use crate::ends::EndsByNumber;
use crate::linked_row::LinkedRow;
use crate::row_blocks::RowBlocks;
use crate::table::Row;
use std::alloc::{AllocError, Global};
use std::collections::HashMap;

/// The rows' blocks, and where the list of each channel and of each session begins and ends.
pub struct LinkedRows {
    pub(crate) row_blocks: RowBlocks,
    pub(crate) channels: EndsByNumber,
    pub(crate) sessions: EndsByNumber,
}

impl LinkedRows {
    /// No rows. It takes no memory.
    pub(crate) fn new(alloc: Global) -> LinkedRows
        ensures whole { IsWhole result }
        ensures rows { rows_in result ≡ [] }
    {
        LinkedRows {
            row_blocks: RowBlocks {
                blocks: Blocks::new(),
            },
            channels: HashMap::new(alloc),
            sessions: HashMap::new(alloc),
        }
    }

    /// What the block of a row will hold that is linked in behind all others.
    fn unlinked(&self, row: Row) -> LinkedRow
        requires whole { IsWhole self.now }
        ensures row { result.row ≡ row }
        ensures unlinked { IsUnlinked (blocks_of self.now) result }
    {
        LinkedRow {
            row,
            before_in_channel: ends::last(&self.channels, row.channel),
            after_in_channel: None,
            before_in_session: ends::last(&self.sessions, row.session),
            after_in_session: None,
        }
    }

    /// Adds a row behind all others. All that takes memory comes before the first link.
    pub(crate) fn push(&mut self, row: Row, alloc: Global) -> Result<(), AllocError>
        requires whole { IsWhole self.old }
        ensures whole { IsWhole self.new }
        ensures ok { OnOk result (rows_in self.new ≡ rows_in self.old ++ row ∷ []) }
        ensures err { OnErr result (rows_in self.new ≡ rows_in self.old) }
    {
        self.channels.reserve(1)?;
        self.sessions.reserve(1)?;
        let block = Box::new(alloc, self.unlinked(row))?;
        let at = self.row_blocks.link(block);
        ends::grow(&mut self.channels, row.channel, at);
        ends::grow(&mut self.sessions, row.session, at);
        Ok(())
    }

    /// Unlinks a row and frees its block. It takes no memory.
    pub(crate) fn unlink(&mut self, at: At, alloc: Global)
        requires whole { IsWhole self.old }
        requires held { IsSome (found (blocks_of self.old) at.ptr) }
        ensures whole { IsWhole self.new }
        ensures rows { rows_in self.new ≡ rows_of (without (blocks_of self.old) at.ptr) }
    {
        let linked_row = self.row_blocks.unlink(at, alloc);
        let row = linked_row.row;
        ends::shrink(
            &mut self.channels,
            row.channel,
            linked_row.before_in_channel,
            linked_row.after_in_channel,
        );
        ends::shrink(
            &mut self.sessions,
            row.session,
            linked_row.before_in_session,
            linked_row.after_in_session,
        );
    }

    /// The first row of a channel.
    pub(crate) fn first_in_channel(&self, channel: u32) -> Option<At>
        requires whole { IsWhole self.now }
        ensures { result ≡ first_of channel_of channel (blocks_of self.now) }
    {
        ends::first(&self.channels, channel)
    }

    /// The first row of a session.
    pub(crate) fn first_in_session(&self, session: u32) -> Option<At>
        requires whole { IsWhole self.now }
        ensures { result ≡ first_of session_of session (blocks_of self.now) }
    {
        ends::first(&self.sessions, session)
    }

    /// Where a row lies. It goes along the session's list.
    pub(crate) fn find(&self, channel: u32, session: u32) -> Option<At>
        requires whole { IsWhole self.now }
        ensures { result ≡ place_of channel session (blocks_of self.now) }
    {
        let mut next = self.first_in_session(session);
        while let Some(here) = next {
            if self.row_blocks.row(here).channel == channel {
                return Some(here);
            }
            next = self.row_blocks.next_in_session(here);
        }
        None
    }

    /// Unlinks all rows of a session, and says how many they were.
    pub(crate) fn detach(&mut self, session: u32, alloc: Global) -> usize
        requires whole { IsWhole self.old }
        requires few { length (rows_in self.old) ≤ most_rows }
        ensures whole { IsWhole self.new }
        ensures rows { rows_in self.new ≡ without_session (rows_in self.old) session }
        ensures counted { result + length (rows_in self.new) ≡ length (rows_in self.old) }
    {
        let mut gone = 0;
        while let Some(here) = self.first_in_session(session) {
            self.unlink(here, alloc);
            gone += 1;
        }
        gone
    }

    /// The first row of some channel, while there is a row.
    fn any(&self) -> Option<At>
        requires whole { IsWhole self.now }
        ensures none { IsNone result → blocks_of self.now ≡ [] }
        ensures held { IfSome result (λ at. IsSome (found (blocks_of self.now) at.ptr)) }
    {
        match self.channels.keys().next() {
            Some(number) => self.first_in_channel(*number),
            None => None,
        }
    }

    /// Frees all blocks.
    pub(crate) fn end(self, alloc: Global)
        requires whole { IsWhole self }
    {
        let mut rows = self;
        while let Some(here) = rows.any() {
            rows.unlink(here, alloc);
        }
        let LinkedRows {
            row_blocks: RowBlocks { blocks },
            channels,
            sessions,
        } = rows;
        blocks.finish();
        drop(channels);
        drop(sessions);
    }
}

//! The links between the rows' blocks.
ghost use Rattle.std.specs.Prelude.{◌≡◌, Some, IsSome};
ghost use Rattle.cf_subs.specs.Held.{Tells, found, without};
ghost use Rattle.cf_subs.specs.Threads.{Changes, IsHeld};
ghost use Rattle.cf_subs.specs.RowBlocks.{AreLinked, IsUnlinked, LinksIn, SameLists, before_in_channel, after_in_channel, before_in_session, after_in_session};

use crate::blocks::{At, Blocks};
use crate::linked_row::LinkedRow;
use crate::loose::Loose;
use crate::table::Row;
use std::alloc::Global;

/// The rows' blocks.
pub struct RowBlocks {
    pub(crate) blocks: Blocks<LinkedRow>,
}

impl RowBlocks {
    /// The row of a block.
    pub(crate) fn row(&self, at: At) -> Row
        requires { IsSome (found self.now.blocks.held at.ptr) }
        ensures { Tells (λ s. s.row) self.now.blocks.held at.ptr result }
    {
        self.blocks.get(at).row
    }

    /// The next row of the same channel.
    pub(crate) fn next_in_channel(&self, at: At) -> Option<At>
        requires { IsSome (found self.now.blocks.held at.ptr) }
        ensures { Tells (λ s. s.after_in_channel) self.now.blocks.held at.ptr result }
    {
        self.blocks.get(at).after_in_channel
    }

    /// The next row of the same session.
    pub(crate) fn next_in_session(&self, at: At) -> Option<At>
        requires { IsSome (found self.now.blocks.held at.ptr) }
        ensures { Tells (λ s. s.after_in_session) self.now.blocks.held at.ptr result }
    {
        self.blocks.get(at).after_in_session
    }

    fn set_before_in_channel(&mut self, at: Option<At>, before: Option<At>)
        requires { IsHeld self.old.blocks.held at }
        ensures { Changes (before_in_channel before) at self.old.blocks.held self.new.blocks.held }
    {
        if let Some(at) = at {
            let mut linked_row = *self.blocks.get(at);
            linked_row.before_in_channel = before;
            self.blocks.put(at, linked_row);
        }
    }

    fn set_after_in_channel(&mut self, at: Option<At>, after: Option<At>)
        requires { IsHeld self.old.blocks.held at }
        ensures { Changes (after_in_channel after) at self.old.blocks.held self.new.blocks.held }
    {
        if let Some(at) = at {
            let mut linked_row = *self.blocks.get(at);
            linked_row.after_in_channel = after;
            self.blocks.put(at, linked_row);
        }
    }

    fn set_before_in_session(&mut self, at: Option<At>, before: Option<At>)
        requires { IsHeld self.old.blocks.held at }
        ensures { Changes (before_in_session before) at self.old.blocks.held self.new.blocks.held }
    {
        if let Some(at) = at {
            let mut linked_row = *self.blocks.get(at);
            linked_row.before_in_session = before;
            self.blocks.put(at, linked_row);
        }
    }

    fn set_after_in_session(&mut self, at: Option<At>, after: Option<At>)
        requires { IsHeld self.old.blocks.held at }
        ensures { Changes (after_in_session after) at self.old.blocks.held self.new.blocks.held }
    {
        if let Some(at) = at {
            let mut linked_row = *self.blocks.get(at);
            linked_row.after_in_session = after;
            self.blocks.put(at, linked_row);
        }
    }

    /// Links a row in behind all others, if its neighbours before it are the last of its channel and of its session.
    pub(crate) fn link(&mut self, block: Box<LinkedRow>) -> At
        requires linked { AreLinked self.old.blocks.held }
        requires unlinked { IsUnlinked self.old.blocks.held block.value }
        ensures linked { AreLinked self.new.blocks.held }
        ensures lists { LinksIn self.old.blocks.held self.new.blocks.held result block.value }
    {
        let (before_in_channel, before_in_session) = (
            block.before_in_channel,
            block.before_in_session,
        );
        let at = self.blocks.hold(Loose::of(block));
        self.set_after_in_channel(before_in_channel, Some(at));
        self.set_after_in_session(before_in_session, Some(at));
        at
    }

    /// Unlinks a row and frees its block.
    pub(crate) fn unlink(&mut self, at: At, alloc: Global) -> LinkedRow
        requires linked { AreLinked self.old.blocks.held }
        requires held { IsSome (found self.old.blocks.held at.ptr) }
        ensures linked { AreLinked self.new.blocks.held }
        ensures linked_row { Some result ≡ found self.old.blocks.held at.ptr }
        ensures lists { SameLists self.new.blocks.held (without self.old.blocks.held at.ptr) }
    {
        let linked_row = *self.blocks.release(at, alloc).into_box();
        self.set_after_in_channel(linked_row.before_in_channel, linked_row.after_in_channel);
        self.set_before_in_channel(linked_row.after_in_channel, linked_row.before_in_channel);
        self.set_after_in_session(linked_row.before_in_session, linked_row.after_in_session);
        self.set_before_in_session(linked_row.after_in_session, linked_row.before_in_session);
        linked_row
    }
}

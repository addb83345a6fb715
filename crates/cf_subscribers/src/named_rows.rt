//! Rows by number, under names: what a row's coming or going makes of both.
ghost use Rattle.std.specs.Prelude.{◌≡◌, length, None, OnOk, OnErr, IsErrOf};
ghost use Rattle.cf_subs.specs.Rows.{follows, most_rows, without_row};
ghost use Rattle.cf_subscribers.specs.Follows.{with_follow};
ghost use Rattle.cf_subscribers.specs.Names.{AreNumbered, AreUsed, named, number_at};

use crate::names::Names;
use cf_subs::{SubTable, SubTableError};
use std::alloc::Global;

/// Adds the first row of a channel, under a new number.
pub(crate) fn add_first_row(
    names: &mut Names,
    rows: &mut SubTable,
    alloc: Global,
    channel: &str,
    session: u32,
) -> Result<(), SubTableError>
    requires numbered { AreNumbered names.old }
    requires used { AreUsed names.old rows.old }
    requires absent { number_at names.old channel.now ≡ None }
    ensures numbered { AreNumbered names.new }
    ensures used { AreUsed names.new rows.new }
    ensures ok { OnOk result
        (named names.new rows.new ≡ with_follow (named names.old rows.old) channel.now session) }
    ensures full { IsErrOf result SubTableError.Full → length rows.old ≡ most_rows }
    ensures err { OnErr result (named names.new rows.new ≡ named names.old rows.old) }
{
    let number = names.add(alloc, channel)?;
    match rows.add(number, session) {
        Ok(()) => Ok(()),
        Err(refused) => {
            names.remove(number);
            Err(refused)
        }
    }
}

/// Removes a row, and its channel's name with the last row. Says whether there was one. It takes no memory.
pub(crate) fn remove_row(names: &mut Names, rows: &mut SubTable, channel: u32, session: u32) -> bool
    requires numbered { AreNumbered names.old }
    requires used { AreUsed names.old rows.old }
    ensures numbered { AreNumbered names.new }
    ensures used { AreUsed names.new rows.new }
    ensures rows { rows.new ≡ without_row rows.old channel session }
    ensures removed { named names.new rows.new
        ≡ named names.old (without_row rows.old channel session) }
    ensures found { result ≡ follows rows.old channel session }
{
    let found = rows.remove(channel, session);
    if !rows.has_channel(channel) {
        names.remove(channel);
    }
    found
}

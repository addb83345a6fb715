//! What a row's block holds.
use crate::blocks::At;
use crate::table::Row;

/// A row with its neighbours in its channel's list and in its session's list.
#[derive(Clone, Copy, Drop)]
pub struct LinkedRow {
    pub(crate) row: Row,
    pub(crate) before_in_channel: Option<At>,
    pub(crate) after_in_channel: Option<At>,
    pub(crate) before_in_session: Option<At>,
    pub(crate) after_in_session: Option<At>,
}

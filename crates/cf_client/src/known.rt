//! What a client knows.
use crate::calls::Call;
use crate::channels::Mode;
use std::collections::BTreeMap;

/// What a client knows of its connection, its channels and its calls.
#[derive(Drop)]
pub(crate) struct Known {
    /// What it is doing on each channel that it asked for.
    pub(crate) channels: BTreeMap<String, Mode>,
    /// The publishes and histories that aren't answered yet, oldest first.
    pub(crate) calls: Vec<Call>,
    pub(crate) is_connected: bool,
    pub(crate) last_id: u32,
}

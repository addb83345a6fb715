//! What the applications got in a run.
use cf_world::Entry;

/// What the applications got in a run, in order.
#[derive(Drop)]
pub struct Trace {
    pub entries: Vec<Entry>,
}

//! Which session of a node follows which channel, by the channel's name: rows in order of adding.
//!
//! The order and the limit are this project's own.
#![tactic(auto)]

mod named_rows;
mod names;
mod subscribers;
mod walk;

pub use cf_subs::MOST_ROWS;
pub use subscribers::Subscribers;
pub use walk::FollowerWalk;

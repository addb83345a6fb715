//! What each event of a schedule did, told in remarks beside the trace; and why a line is none of a schedule's.
#![tactic(auto)]

mod client_command;
mod event;
mod explainer;
mod glance;
mod reason;
mod remarks;
mod subject;
mod unreadable;

pub use explainer::Explainer;
pub use remarks::Remarks;
pub use unreadable::{LineError, line_fault};

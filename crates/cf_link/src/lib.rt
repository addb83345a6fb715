//! A bounded link from one thread to another: what was received, and then what waits, is what was sent.
//!
//! The broker has one to each node. That a full link gives an item back, rather than wait, is this project's own rule.
#![tactic(auto)]

mod bell;
pub mod ends;
pub mod log;
mod told;

pub use ends::{Receiver, Sender, pair, settle};
pub use told::Told;

//! What a subscription does with deliveries: those that come before its reply, and those that come after.
//!
//! The rules are those of Centrifugo's document on history and recovery; the limit of what is kept is this project's own.
#![tactic(auto)]

pub mod laws;
mod stored;
mod verdict;
mod waiting;

pub use verdict::{Verdict, check};
pub use waiting::{MOST_KEPT, Released, Waiting};

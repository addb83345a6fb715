//! What the moves of a hub's calls make of sessions that say notes among other texts.
//!
//! Nothing here runs. Each function is a law: its contract is what is proved.
#![tactic(auto)]

pub mod laws;

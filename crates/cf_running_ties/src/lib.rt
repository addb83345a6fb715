//! What contracts say of a call is what a section of the running server does.
//!
//! Nothing here runs. Each function is a law: its contract is what is proved.
#![tactic(auto)]

pub mod asides;
pub mod laws;
pub mod nodes;
pub mod scripts;

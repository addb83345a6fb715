//! The interval machine: what each line of a schedule makes of the world, and what holds of every run.
//!
//! Nothing here runs. Each function is a law: its contract is what is proved.
#![tactic(auto)]

pub mod examples;
pub mod keyed;
pub mod laws;
pub mod rules;

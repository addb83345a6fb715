//! Schedules as texts, carried out event by event: what `cf_server simulate` does, without its process.
#![tactic(auto)]

mod error;
mod schedule;
mod simulation;

pub use error::SimulateError;
pub use schedule::{Line, Schedule};
pub use simulation::simulate;

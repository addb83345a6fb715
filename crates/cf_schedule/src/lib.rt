//! Schedules of events, run on one thread: the world, and the trace of a run. The laws of the machine that `run` is
//! proved by, and what a trace has, go by this crate's name too.
#![tactic(auto)]

mod body;
mod config;
mod event;
mod name;
mod number;
mod trace;
mod whole;
mod world;

pub use body::{Body, MAX_BODY_DEPTH};
pub use cf_machine::laws::{notes_lead, one_datum, safe_always, safe_loose};
pub use cf_world::{Entry, Short};
pub use config::Config;
pub use event::{Event, EventFault};
pub use name::{ChannelName, ClientName, Key, NamespaceName, key_text};
pub use number::HistorySize;
pub use trace::Trace;
pub use whole::{Stopped, fresh, run};
pub use world::World;

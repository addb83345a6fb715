//! What lies under a node's lock: its sessions, beside what it has seen of the shards' logs. The type keeps that each session
//! says only what stands in them, and a subscription that has begun is a value that only the read made for it can end.
#![tactic(auto)]

mod begun;
mod histories;
mod node_hub;
mod queries;
mod replies;
mod telling;

pub use begun::Begun;
pub use histories::history_reply;
pub use node_hub::NodeHub;

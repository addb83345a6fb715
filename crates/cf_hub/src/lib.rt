//! One node's sessions: their subscriptions, and what waits for each client.
#![tactic(auto)]

mod asking;
mod checked;
mod delivered;
mod deliveries;
mod fate;
mod hub;
pub mod laws;
mod output;
mod pending;
mod queued;
mod refusal;
mod reply;
mod session;
mod session_table;
mod sessions;
mod step;
mod subscription;
mod subscriptions;
mod upkeep;
mod wording;

pub use asking::UnreadSubscription;
pub use checked::Checked;
pub use delivered::Delivered;
pub use hub::{Hub, MOST_CHANNELS, MOST_SESSIONS};
pub use queued::Queued;
pub use refusal::HubRefusal;

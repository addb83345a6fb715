//! Who is there in each channel: for each client its user, and the moment at which it entered last.
//!
//! The rules are those of Centrifugo's document on presence; that an entry goes after 60 seconds is this project's own.
#![tactic(auto)]

mod clients;
mod error;
mod maps;
mod presence;
mod users;

pub use clients::ENTRY_SECONDS;
pub use error::PresenceError;
pub use presence::{Presence, Stats};

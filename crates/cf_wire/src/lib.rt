//! A wire: the WebSocket of one client on any stream, turn by turn, and the desk that hears its texts and gives what goes out.
//!
//! The messages are those of RFC 6455, carried out by `tungstenite`.
#![tactic(auto)]

mod accept;
mod desk;
mod end;
mod gather;
mod head;
mod wire;

pub use accept::{RefusedStream, WireFault};
pub use desk::Desk;
pub use end::{Stage, TurnEnd, WireEnd};
pub use gather::Gather;
pub use wire::Wire;

//! Who asks for a node's health otherwise than by `GET`: `HEAD` is answered as `GET` is, without the body, and any other method
//! is told which there are. Nothing here reads or writes.
#![tactic(auto)]

mod ask;

pub use ask::{HealthAsk, health_ask};

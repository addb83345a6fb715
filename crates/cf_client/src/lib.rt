//! A client of a broadcast node in Centrifugo's client protocol, without its connection: what it sends, what it knows of its
//! channels, and what its application gets.
#![tactic(auto)]

mod calls;
mod channels;
mod client;
mod draft;
mod event;
mod fault;
mod known;
pub mod laws;
mod text;

pub use client::Client;
pub use event::AppEvent;
pub use fault::ClientFault;

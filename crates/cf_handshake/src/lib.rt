//! The opening handshake of a client (RFC 6455, 4.2): what the head of its request asks for, and the
//! texts that answer it. Nothing here reads or writes.
#![tactic(auto)]

mod answer;
mod asked;
mod lines;

pub use answer::{HandshakeError, Opening, health_answer};
pub use asked::{HeadAsk, asked_of};

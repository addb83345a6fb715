//! A client's session: its hub, its commands and its wire.
mod handshake;
mod health;
mod hub;
mod session;
mod stream;
mod wire;

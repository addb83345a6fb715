//! A node: a dispatcher that brings what the broker published to the hub, and an IO loop that
//! serves the clients' sockets.
//!
//! Locks are taken in this order: a shard of the broker, then a link; the hub's lock is held with
//! no other. The check of a subscription's position takes none where its shard's log is as it was
//! at the last one.
#![tactic(auto)]

mod acceptor;
mod attached_client;
mod backend;
mod command_handler;
mod connection;
mod costs;
mod desk;
mod dispatcher;
mod error_counts;
mod gate;
mod io_loop;
mod leaving;
mod live_backend;
mod node;
mod rounds;
mod shared;
mod socket;
mod window;

pub use costs::Reach;
pub use error_counts::ErrorCounts;
pub use gate::{DISPATCHER, Gate, IO_LOOP};
pub use node::{Node, Setup};

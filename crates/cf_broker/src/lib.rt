//! The broker: sixteen shards of channels, each under a lock of its own, and a link to each node.
//!
//! A channel belongs to one shard by its name. What a call does is done under that shard's lock, by the method of the same name
//! of `Shard`, and each answer is that of one thread's broker at a point of the shard's log, which begins with all that the
//! caller's pass had seen. The rules of streams and presence are those of Centrifugo's documents; shards and
//! links are this project's own.
#![tactic(auto)]

mod broker;
mod change;
mod links;
mod locked_shard;
mod parts;
mod quarter;
mod words;

pub use broker::Broker;
pub use cf_shard::{Passes, SHARDS, shard_of};
pub use words::Words;

//! What an operator's `size` line does while nodes serve: a namespace gets another size in all shards of the broker, by passes of its
//! own, so that it disturbs no worker.
#![tactic(auto)]

mod sizes;

pub use sizes::set_size_in_all;

//! The epochs of a running server. Each names the start, the shard and a count, so none is ever given twice.
#![tactic(auto)]

mod boot;
pub mod laws;
mod source;

pub use boot::Boot;
pub use source::BootEpochs;

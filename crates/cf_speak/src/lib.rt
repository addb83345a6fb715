//! One client's session on a node of its own, text by text: what `cf_server speak` does, without its process.
#![tactic(auto)]

mod conversation;
mod epochs;
mod error;
mod local_node;

pub use conversation::{SpeakSetup, converse};
pub use epochs::GivenEpochs;
pub use error::SpeakError;
pub use local_node::LocalNode;

//! Commands, replies, pushes and settings of Centrifugo's client protocol in its JSON form.
#![tactic(auto)]

mod codes;
mod command;
mod epoch;
mod fault;
pub mod laws;
mod limits;
mod namespaces;
mod outgoing;
mod position;
mod publication;
mod read;
mod settings;
mod table;
mod tokens;
mod words;
mod write;

pub use codes::{CloseCode, ErrorCode, INSUFFICIENT, close_reason};
pub use command::{Command, Data, Request};
pub use epoch::Epoch;
pub use fault::ReadFault;
pub use limits::{LARGEST_SIZE, LONGEST_CHANNEL, LONGEST_KEY, LONGEST_TEXT};
pub use namespaces::{Namespaces, namespace_of, read_namespaces};
pub use outgoing::{Outcome, Outgoing, Pushed};
pub use position::Position;
pub use publication::{Info, Publication};
pub use read::{read_commands, read_replies};
pub use settings::Settings;
pub use tokens::{Tokens, read_tokens};
pub use write::{write_command, write_publication, write_reply, write_unsubscribe};

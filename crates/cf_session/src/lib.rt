//! What a session does for its client's commands, without its connection, its hub and its broker; and its texts carried out on a
//! node, whatever the node is. The client's wire goes by this crate's name too.
//!
//! The commands, their replies and codes are those of Centrifugo's client protocol in its JSON form.
#![tactic(auto)]

mod action;
mod budget;
mod command_executor;
mod kind;
pub mod laws;
mod refusal;
mod refused;
mod replied;
mod serve;
mod session;
mod stage;
mod turn;

pub use action::{Action, Answer, Publish};
pub use budget::{Budget, cost_of};
pub use cf_wire::{Desk, TurnEnd, Wire, WireFault};
pub use command_executor::{CommandExecutor, act};
pub use kind::CommandKind;
pub use refusal::refusal_of;
pub use refused::{hub_error, presence_error, stream_error};
pub use serve::serve_text;
pub use session::{Session, reply_text};
pub use turn::{carry_on, hear_text};

//! What a node's two workers decide, over what is lent to them: a publication that comes is brought to the hub, what waits in the
//! hub for its clients is taken for them, and who gets nowhere, or doesn't answer, is told apart from who wasn't heard.
//!
//! That workers take turns is this project's own; Centrifugo's documents say what a client gets, not by whom.
#![tactic(auto)]

mod answers;
mod batch;
mod life;
mod mailbox;
mod outbox;
mod outlet;
mod pongs;
mod rota;
mod standing;
mod ticks;

pub use answers::{broker_error, goes_on, keeps_presence, mark_after};
pub use batch::{Outlets, SESSIONS_AT_ONCE, take_batch};
pub use life::{SECONDS_FOR_CLOSE, SECONDS_FOR_HEAD, is_close_over, is_head_over};
pub use mailbox::{Mailbox, pass_on};
pub use outbox::Outbox;
pub use outlet::{Taken, take_for};
pub use pongs::{PongWatch, SECONDS_TO_PING, SECONDS_TO_PONG};
pub use rota::{GROUPS, Group, Rota, nobody_is_passed_over};
pub use standing::Standing;
pub use ticks::{MOST_LATE, Ticks};

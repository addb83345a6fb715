//! The program's commands: the words that ask for them, and `simulate`, `speak` and `serve` over standard input and
//! output.
#![tactic(auto)]

mod command_line;
mod entries;
mod error;
mod explaining;
mod program;
mod readiness;
mod report;
mod running;
mod serving;
mod settings;
mod sizes;
mod speaking;
mod stand_ins;

pub use cf_explain::LineError;
pub use cf_simulate::simulate;
pub use command_line::{Options, ServeOptions, SpeakOptions};
pub use error::{CommandError, Setting};
pub use explaining::explain;
pub use program::run;
pub use serving::serve;
pub use settings::config_of;
pub use speaking::{setup_of, speak};

//! How a command of the program ends if it doesn't succeed.
ghost use Rattle.std.specs.Prelude.{◌≡◌};
ghost use Rattle.cf_commands.specs.Status.{status_of, fault_of_text};

use cf_explain::LineError;
use cf_protocol::ReadFault;
use cf_simulate::SimulateError;
use std::alloc::{AllocError, AllocFailed};
use std::io;
use std::net::SocketAddr;
use thiserror::Error;

/// A setting that can't be used. The text names its option and says what is wrong with it.
#[derive(Clone, Copy, Debug, Drop, PartialEq, Eq, Error)]
pub enum Setting {
    #[error("--nodes is not 1 to 8")]
    Nodes,
    #[error("--ns is not NAME=SIZE,SECONDS,FLAGS separated by `;`, each in its limits and each name once")]
    Namespaces,
    #[error("--tokens is not TOKEN=USER separated by `;`, each in its limits and each token once")]
    Tokens,
    #[error("--epochs is not E1,E2,.. of 1 to 32 letters or digits each, and each once")]
    Epochs,
    #[error("--boot is not 1 to 999999999999999")]
    Boot,
    #[error("--port and --nodes together pass 65536")]
    Port,
    #[error("--link is not 1 to 65536")]
    Link,
}

/// Why a command of the program ended before its end. The message is what the program writes to standard error.
#[derive(Debug, Drop, Error)]
pub enum CommandError {
    /// A schedule can't be used, or its run ended before its end.
    #[error("{fault}")]
    Simulation {
        fault: SimulateError,
    },
    /// The input isn't UTF-8.
    #[error("not UTF-8")]
    NotUtf8,
    /// A setting is of another form than it should be.
    #[error("unusable setting: {setting}")]
    Setting {
        setting: Setting,
    },
    /// An entry of an option breaks a rule. Entries are numbered from 1.
    #[error("unusable setting: {option}: entry {number}, `{entry}`: {rule}")]
    Entry {
        option: &'static str,
        number: usize,
        entry: String,
        rule: &'static str,
    },
    /// A line of a schedule is unreadable, and why, which is said if the schedule is explained.
    #[error("line {line}: unreadable\nline {line}: {why}")]
    Unreadable {
        line: usize,
        why: LineError,
    },
    #[error("out of memory")]
    Memory,
    /// A read or a write failed, or gave no end.
    #[error("input or output failed")]
    InputOutput,
    /// A node can't listen at its address, as when another program has the port.
    #[error("node {node}: can't listen at {address}\ninput or output failed")]
    Listen {
        node: u8,
        address: SocketAddr,
    },
    /// A node's thread can't be started.
    #[error("node {node}: its thread can't be started\ninput or output failed")]
    NotStarted {
        node: u8,
    },
    /// A node's loop ended, or couldn't begin, while the node was to serve.
    #[error("node {node}: its loop has ended\ninput or output failed")]
    Ended {
        node: u8,
    },
}

impl CommandError {
    /// The program's exit status: 2 for its words and its input, 3 for want of memory, 4 if input or output failed.
    pub fn status(&self) -> u8
        ensures { result ≡ status_of self.now }
    {
        match self {
            CommandError::Simulation { fault } => fault.status(),
            CommandError::NotUtf8
            | CommandError::Setting { .. }
            | CommandError::Entry { .. }
            | CommandError::Unreadable { .. } => 2,
            CommandError::Memory => 3,
            CommandError::InputOutput
            | CommandError::Listen { .. }
            | CommandError::NotStarted { .. }
            | CommandError::Ended { .. } => 4,
        }
    }

    /// The fault of a setting whose text can't be read.
    pub fn of_text(setting: Setting, fault: ReadFault) -> CommandError
        ensures { result ≡ fault_of_text setting fault }
    {
        match fault {
            ReadFault::Bad => CommandError::Setting { setting },
            ReadFault::Memory => CommandError::Memory,
        }
    }
}

impl From<AllocError> for CommandError {
    ghost use Rattle.std.specs.Prelude.{◌≡◌};
    ghost use Rattle.cf_commands.specs.declared.error.CommandError.TheVariants.{Memory};

    ghost from_gives = { λ _ fault. fault ≡ Memory };

    fn from(_refused: AllocError) -> CommandError {
        CommandError::Memory
    }
}

impl<T: Drop> From<AllocFailed<T>> for CommandError {
    ghost use Rattle.std.specs.Prelude.{◌≡◌};
    ghost use Rattle.cf_commands.specs.declared.error.CommandError.TheVariants.{Memory};

    ghost from_gives = { λ _ fault. fault ≡ Memory };

    fn from(_refused: AllocFailed<T>) -> CommandError {
        CommandError::Memory
    }
}

impl From<SimulateError> for CommandError {
    ghost use Rattle.std.specs.Prelude.{◌≡◌};
    ghost use Rattle.cf_commands.specs.declared.error.CommandError.TheVariants.{Simulation};

    ghost from_gives = { λ fault given. given ≡ Simulation fault };

    fn from(fault: SimulateError) -> CommandError {
        CommandError::Simulation { fault }
    }
}

impl From<io::Error> for CommandError {
    ghost use Rattle.cf_commands.specs.Status.{IsOutside};

    ghost from_gives = { λ _ fault. IsOutside fault };

    fn from(error: io::Error) -> CommandError {
        match error.kind() {
            io::ErrorKind::OutOfMemory => CommandError::Memory,
            _ => CommandError::InputOutput,
        }
    }
}

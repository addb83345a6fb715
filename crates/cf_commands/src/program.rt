//! A run of the program: its words, and the command that they ask for.

use crate::command_line::{self, Job, Options, SpeakOptions, VERSION};
use crate::error::CommandError;
use crate::explaining::explain;
use crate::serving::serve;
use crate::settings::config_of;
use crate::speaking::{setup_of, speak};
use cf_simulate::simulate;
use std::io::{BufReader, BufWriter, IsTerminal, Write};
use std::net::Net;
use std::process::ExitCode;
use std::rt::{Env, Files};
use std::sync::Wait;
use std::thread::Threads;
use std::time::Clock;
use std::{env, io};

const WAITS_FOR_SCHEDULE: &str =
    "simulate waits for a schedule on standard input, a line for each event, and runs it at the end of the
input (Ctrl-D). `cf_server --help` tells what else there is, `cf_server simulate --help` what a line may say.";

const WAITS_FOR_MESSAGES: &str =
    "speak waits for a client's messages on standard input, a line for each, until the end of the input
(Ctrl-D). `cf_server speak --help` has some to paste.";

// Says on standard error what a command waits for, if its reader is a terminal, at which somebody sits.
fn say_wait<R: Eprint, T: IsTerminal>(rt: &R, reader: &T, what: &str) {
    if reader.is_terminal() {
        let _ = rt.eprintln(what);
    }
}

fn simulate_standard<R>(rt: &R, options: Options<'_>) -> Result<(), CommandError>
where
    R: Input + Print + Eprint + AllocGlobal,
    R::Reader: IsTerminal,
{
    let alloc = rt.alloc();
    let explains = options.explains;
    let config = config_of(alloc, options)?;
    let mut reader = rt.reader();
    say_wait(rt, &reader, WAITS_FOR_SCHEDULE);
    let mut writer = BufWriter::new(alloc, io::writer(rt))?;
    if explains {
        explain(alloc, &mut reader, &mut writer, &config)
    } else {
        simulate(alloc, &mut reader, &mut writer, &config, false).map_err(CommandError::from)
    }
}

fn speak_standard<R>(rt: &R, options: SpeakOptions<'_>) -> Result<(), CommandError>
where
    R: Input + Print + Eprint + AllocGlobal,
    R::Reader: IsTerminal,
{
    let alloc = rt.alloc();
    let setup = setup_of(alloc, options)?;
    let reader = rt.reader();
    say_wait(rt, &reader, WAITS_FOR_MESSAGES);
    let mut reader = BufReader::new(alloc, reader)?;
    let mut writer = BufWriter::new(alloc, io::writer(rt))?;
    speak(alloc, &mut reader, &mut writer, setup)
}

// The program's words. One that isn't UTF-8 is unusable.
fn words<R: Env + AllocGlobal>(rt: &R) -> Result<Vec<String>, CommandError> {
    match env::args(rt) {
        Ok(given) => Ok(given.collect(rt.alloc())?),
        Err(error) if error.kind() == io::ErrorKind::InvalidData => Err(CommandError::NotUtf8),
        Err(error) => Err(CommandError::from(error)),
    }
}

fn program<R>(rt: &R) -> Result<ExitCode, CommandError>
where
    R: Input + Print + Eprint + Env + AllocGlobal + Files + Threads + Wait + Clock + Net + Sync,
    R::Reader: IsTerminal,
{
    let words = words(rt)?;
    let done = match command_line::read_words(rt.alloc(), words.as_slice()) {
        Ok(Job::Simulate(options)) => simulate_standard(rt, options),
        Ok(Job::Speak(options)) => speak_standard(rt, options),
        Ok(Job::Serve(options)) => serve(rt, options),
        Ok(Job::Version) => rt.println(VERSION).map_err(CommandError::from),
        Err(shown) => return command_line::show(rt, &shown),
    };
    done?;
    Ok(ExitCode::SUCCESS)
}

/// Does what the program's words ask for, over its standard input and output, and gives its exit status: 0 if that is
/// done, else the fault's, which is said on standard error.
pub fn run<R>(rt: &R) -> ExitCode
where
    R: Input + Print + Eprint + Env + AllocGlobal + Files + Threads + Wait + Clock + Net + Sync,
    R::Reader: IsTerminal,
{
    match program(rt) {
        Ok(code) => code,
        Err(fault) => {
            let _ = rt.eprintln(&fault);
            ExitCode::from(fault.status())
        }
    }
}

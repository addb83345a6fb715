//! The command `simulate` with `--explain`: of a line that is unreadable it is said why.
ghost use Rattle.std.specs.Prelude.{true, IfSome, OnOk};
ghost use Rattle.cf_schedule.specs.Seen.{shown_config};
ghost use Rattle.cf_simulate.specs.Simulation.{Prints};

use crate::error::CommandError;
use cf_explain::line_fault;
use cf_schedule::Config;
use cf_simulate::{SimulateError, simulate};
use std::alloc::Global;
use std::io::{Read, Write};
use std::str;

/// Reads all of a schedule, runs it, and writes its trace with remarks, as `simulate` does. If a line is unreadable, it
/// says why.
///
/// # Errors
///
/// `Unreadable` if a line is; `Simulation` for what else `simulate` ends with; `InputOutput` if the input can't be
/// read; `Memory`.
pub fn explain<R: Read, W: Write>(
    alloc: Global,
    reader: &mut R,
    writer: &mut W,
    config: &Config,
) -> Result<(), CommandError>
    ensures done { OnOk result (IfSome (R.remaining reader.old)
        (λ input. Prints true (shown_config config.now) input (W.contents writer.old)
        (W.contents writer.new))) }
{
    let mut input = Vec::new(alloc);
    reader.read_to_end(&mut input)?;
    explain_input(alloc, input.as_slice(), writer, config)
}

// The same of an input that was read.
fn explain_input<W: Write>(
    alloc: Global,
    input: &[u8],
    writer: &mut W,
    config: &Config,
) -> Result<(), CommandError>
    ensures done { OnOk result (Prints true (shown_config config.now) input.now
        (W.contents writer.old) (W.contents writer.new)) }
{
    let mut left = input;
    match simulate(alloc, &mut left, writer, config, true) {
        Ok(()) => Ok(()),
        Err(SimulateError::Unreadable { line }) => {
            Err(fault_of(alloc, input, config.nodes, line))
        }
        Err(fault) => Err(CommandError::from(fault)),
    }
}

// The fault of an unreadable line of this number.
fn fault_of(alloc: Global, input: &[u8], nodes: u8, line: usize) -> CommandError {
    let plain = CommandError::Simulation {
        fault: SimulateError::Unreadable { line },
    };
    let Ok(text) = str::from_utf8(input) else {
        return plain;
    };
    let Some(words) = text.split('\n').nth(line.saturating_sub(1)) else {
        return plain;
    };
    match line_fault(alloc, words, nodes) {
        Ok(Some(why)) => CommandError::Unreadable { line, why },
        Ok(None) => plain,
        Err(_) => CommandError::Memory,
    }
}

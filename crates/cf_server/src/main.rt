//! The program `cf_server`: broadcast nodes that speak Centrifugo's client protocol.
#![tactic(auto)]

#[cfg(test)]
mod tests;

use std::process::ExitCode;

fn main(rt: HostRuntime) -> ExitCode {
    cf_commands::run(&rt)
}

//! Times calls of the libraries, for `bench/hub` and `bench/texts`, and makes those that are promised to take no memory, for
//! `.ci/no-memory`.
//!
//! A line of the input is the name of a call and what it is passed; behind the same name are printed how much was done and the
//! nanoseconds that it took. Behind `no_memory` alone are printed the names of calls.
#![tactic(auto)]

mod crowd;
mod no_memory;
mod table;
mod texts;

use crowd::Crowds;
use std::alloc::Global;
use std::io;
use std::time::Instant;
use table::Rows;

/// The number of a word; 0 if it is none.
fn number_of(word: Option<&str>) -> u32 {
    match word {
        Some(word) => word.parse::<u32>().unwrap_or(0),
        None => 0,
    }
}

/// The numbers that a call is passed; 0 for each that is missing.
fn numbers_of(passed: &str) -> (u32, u32, u32) {
    let mut words = passed.split(' ');
    let first = number_of(words.next());
    let second = number_of(words.next());
    (first, second, number_of(words.next()))
}

/// Makes a call, and says how much was done; none if it was refused, or there is no such call.
fn call(
    alloc: Global,
    crowds: &mut Crowds,
    rows: &mut Rows,
    (name, passed): (&str, &str),
) -> Option<u64> {
    let numbers = numbers_of(passed);
    match name {
        "gather" | "move" => crowds.call(alloc, name, numbers),
        "commands" | "replies" | "write" => texts::call(alloc, name, passed),
        _ => rows.call(name, numbers),
    }
}

/// Makes a call, and prints how much was done and how long it took.
fn time(
    rt: &HostRuntime,
    crowds: &mut Crowds,
    rows: &mut Rows,
    (name, passed): (&str, &str),
) -> io::Result<()> {
    let start = Instant::now(rt)?;
    let done = call(rt.alloc(), crowds, rows, (name, passed));
    let spent = start.elapsed(rt)?.as_nanos();
    match done {
        Some(done) => println!(rt; "{name} {done} {spent}"),
        None => println!(rt; "unusable line"),
    }
}

/// `deliver TIMES`, whose deliveries alone are timed.
fn deliver(rt: &HostRuntime, crowds: &mut Crowds, times: u32) -> io::Result<()> {
    let (pushes, spent) = crowds.deliver(rt, times)?;
    println!(rt; "deliver {pushes} {spent}")
}

/// Makes the calls that are promised to take no memory.
fn make_all(rt: &HostRuntime) -> io::Result<()> {
    if no_memory::calls(rt) {
        return Ok(());
    }
    println!(rt; "unusable line")
}

fn run(rt: &HostRuntime, crowds: &mut Crowds, rows: &mut Rows, line: &str) -> io::Result<()> {
    let (name, passed) = line.split_once(' ').unwrap_or((line, ""));
    match name {
        "deliver" => deliver(rt, crowds, number_of(Some(passed))),
        "no_memory" => make_all(rt),
        _ => time(rt, crowds, rows, (name, passed)),
    }
}

fn main(rt: HostRuntime) -> io::Result<()> {
    let mut crowds = Crowds::new(rt.alloc())?;
    let mut rows = Rows::new(rt.alloc());
    for line in rt.lines(rt.alloc()) {
        run(&rt, &mut crowds, &mut rows, line?.as_str())?;
    }
    Ok(())
}

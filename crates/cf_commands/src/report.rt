//! What an operator sees on standard error while nodes serve: at most one line a second of each node and kind.
use crate::readiness::Readiness;
use crate::running::Running;
use cf_broker::Broker;
use cf_node::ErrorCounts;
use cf_shard::Naming;
use cf_stream::Epochs;
use mio::Interest;
use std::fmt::Display;
use std::net::Net;
use std::os::fd::RawFd;
use std::sync::Wait;
use std::sync::atomic::{AtomicU64, Ordering};
use std::time::{Clock, Duration};
use std::{io, thread};

/// So many times in a second it is looked whether the program ends.
const LOOKS: u32 = 10;

/// How many milliseconds lie between two looks.
const BETWEEN: u64 = 100;

const STANDARD_ERROR: RawFd = 2;

/// What tells on standard error what goes wrong, and answers lines of standard input.
#[derive(Drop)]
pub(crate) struct Teller {
    output: Readiness,
}

impl Teller {
    /// A teller at standard error.
    pub(crate) fn open<R: Net + AllocGlobal>(rt: &R) -> io::Result<Teller> {
        let output = Readiness::open(rt, STANDARD_ERROR, Interest::WRITABLE)?;
        Ok(Teller { output })
    }

    // Whether a line would be taken at once. One that nobody would read is dropped: who waited for that couldn't end.
    fn is_heard(&mut self) -> bool {
        self.output.is_ready(Duration::ZERO).unwrap_or(false)
    }

    /// Says a line, unless nobody would read it.
    pub(crate) fn say<R: Eprint, T: Display>(&mut self, rt: &R, line: &T) {
        if self.is_heard() {
            let _ = rt.eprintln(line);
        }
    }

    // Tells how often it has gone wrong at a node since that was told last, and how often in all, if there is something
    // new.
    fn tell<R: Eprint>(&mut self, rt: &R, node: usize, what: &str, told: &mut u64, all: u64) {
        let more = all.saturating_sub(*told);
        if more > 0 && self.is_heard() {
            let _ = eprintln!(rt; "node {node}: {what}: {more} more, {all} in all");
            *told = all;
        }
    }
}

// What goes wrong at a node, and how much of it was told.
#[derive(Drop)]
struct Told<'a> {
    node: usize,
    counts: &'a ErrorCounts,
    refused: u64,
    lost: u64,
    slow: u64,
}

impl<'a> Told<'a> {
    // Tells what is new, if the node's link has lost so many publications.
    fn go_on<R: Eprint>(&mut self, rt: &R, teller: &mut Teller, lost: u64) {
        let node = self.node;
        let lack = "connections refused for want of descriptors or memory";
        teller.tell(rt, node, lack, &mut self.refused, self.counts.refused());
        let full = "publications lost on full links";
        teller.tell(rt, node, full, &mut self.lost, lost);
        let slow = "sessions closed for slowness";
        teller.tell(rt, node, slow, &mut self.slow, self.counts.slow());
    }
}

/// What tells each second what goes wrong at the nodes.
#[derive(Drop)]
pub(crate) struct Reporter<'a> {
    teller: Teller,
    // One for each node; none if the program is to be quiet.
    nodes: Vec<Told<'a>>,
}

impl<'a> Reporter<'a> {
    /// A reporter at standard error, who has told nothing yet.
    pub(crate) fn open<R: Net + AllocGlobal>(
        rt: &R,
        running: &'a Running,
    ) -> io::Result<Reporter<'a>> {
        let mut nodes = Vec::new(rt.alloc());
        if !running.is_quiet {
            for (node, counts) in running.counts.iter().enumerate() {
                nodes.push(Told {
                    node,
                    counts,
                    refused: 0,
                    lost: 0,
                    slow: 0,
                })?;
            }
        }
        let teller = Teller::open(rt)?;
        Ok(Reporter { teller, nodes })
    }

    /// Tells each second what has gone wrong since the last one, until `stop` isn't 0.
    pub(crate) fn report<R, N, E>(&mut self, rt: &R, broker: &Broker<N, E>, stop: &AtomicU64)
    where
        R: Eprint + Wait + Clock,
        N: Naming,
        E: Epochs + Drop,
    {
        if self.nodes.is_empty() {
            return;
        }
        for _ in rt.forever() {
            let is_over = sees_stop(rt, stop);
            for told in self.nodes.iter_mut() {
                let lost = broker.lost(told.node);
                told.go_on(rt, &mut self.teller, lost);
            }
            if is_over {
                break;
            }
        }
    }
}

// Waits for a second, or until `stop` isn't 0. Whether it is.
fn sees_stop<R: Clock>(rt: &R, stop: &AtomicU64) -> bool {
    for _ in 0..LOOKS {
        if stop.load(Ordering::SeqCst) != 0 {
            return true;
        }
        thread::sleep(rt, Duration::from_millis(BETWEEN));
    }
    false
}

//! A broker with two links, who calls it, and the rows that are played on it.
ghost use Rattle.std.specs.Prelude.{◌≡◌, ◌<◌};
ghost use Rattle.cf_broker.specs.Shards.{names};

use super::calls::{tell_brought, tell_call};
use crate::rows::{Table, Told, call_of, done_in, in_full};
use cf_broker::{Broker, Passes, Words, shard_of};
use cf_link::{Receiver, pair};
use cf_protocol::{Epoch, Namespaces};
use cf_shard::{Delivery, Naming};
use cf_stream::Epochs;
use std::alloc::Global;
use std::process::Abort;
use std::sync::Wait;
use std::sync::atomic::{AtomicU64, Ordering};
use std::thread;
use std::thread::Threads;

/// The epoch `aaaa`, again and again.
#[derive(Clone, Copy)]
pub(super) enum Draws<'d> {
    Alone,
    /// It is drawn only once another thread draws one too.
    Meeting {
        mine: &'d AtomicU64,
        other: &'d AtomicU64,
    },
}

impl<'d> Epochs for Draws<'d> {
    ghost use Rattle.std.specs.Prelude.{⊤};

    ghost draws = { λ old r new. ⊤ };

    fn draw(&mut self) -> Option<Epoch> {
        let Draws::Meeting { mine, other } = *self else {
            return Some(Epoch::from_text("aaaa"));
        };
        mine.store(1, Ordering::SeqCst);
        for _ in 0..100_000_000 {
            if other.load(Ordering::SeqCst) == 1 {
                return Some(Epoch::from_text("aaaa"));
            }
            thread::yield_now();
        }
        None
    }
}

/// Rows, and the epochs of the shards of the broker on which they are played.
#[derive(Drop)]
pub(super) struct Part<'a> {
    epochs: [Draws<'a>; 16],
    rows: &'a str,
}

/// These rows. In those of `two_shards` the epochs of shard 2 and those of the others wait for one another, by these flags.
pub(super) fn part_of<'a>(rows: &'a str, first: &'a AtomicU64, second: &'a AtomicU64) -> Part<'a> {
    let mut epochs = [Draws::Alone; 16];
    if rows.starts_with("# two_shards") {
        epochs = [Draws::Meeting {
            mine: first,
            other: second,
        }; 16];
        epochs[2] = Draws::Meeting {
            mine: second,
            other: first,
        };
    }
    Part { epochs, rows }
}

/// What is called.
#[derive(Drop)]
pub(super) struct Stage<'a, 'd, N: Naming> {
    pub(super) alloc: Global,
    pub(super) broker: &'a Broker<N, Draws<'d>>,
    pub(super) namespaces: &'a Namespaces,
    ghost named: { namespaces.now ≡ N.namespaces },
}

/// Who calls it, and at which moment.
#[derive(Drop)]
pub(super) struct Caller<N: Naming> {
    pub(super) passes: Passes<N>,
    pub(super) now: u64,
}

/// Ours and theirs, and the ends of the links that receive.
#[derive(Drop)]
struct Cast<N: Naming> {
    ours: Caller<N>,
    theirs: Caller<N>,
    links: Vec<Receiver<Delivery<N>>>,
}

/// What a step of a caller tells.
fn told_of<N: Naming, R: Wait + Abort>(
    rt: &R,
    stage: &Stage<'_, '_, N>,
    caller: &mut Caller<N>,
    step: &str,
) -> Told {
    let mut told = Told::new(stage.alloc);
    tell_call(rt, stage, caller, step, &mut told);
    told
}

/// Tells two steps that are taken at once, the second by another thread.
fn tell_both<N: Naming + Send + Sync, R: Threads + Wait + Abort + Sync>(
    rt: &R,
    stage: &Stage<'_, '_, N>,
    ours: &mut Caller<N>,
    theirs: &mut Caller<N>,
    steps: &str,
    told: &mut Told,
) {
    let (our_step, their_step) = steps.split_once(" | ").unwrap_or((steps, ""));
    let (our, their) = thread::join(
        rt,
        || told_of(rt, stage, ours, our_step),
        || told_of(rt, stage, theirs, their_step),
    );
    told.tell(format_args!("{} | {}", our.shown(), their.shown()));
}

/// Our pass of a channel's shard takes theirs in.
fn join<N: Naming>(
    stage: &Stage<'_, '_, N>,
    ours: &mut Passes<N>,
    theirs: &mut Passes<N>,
    channel: &str,
) {
    let shard = shard_of(channel);
    let mut our = ours.take(stage.broker, shard);
    let their = theirs.take(stage.broker, shard);
    stage.broker.word(shard).join(&mut our, their);
    ours.put(shard, our);
}

/// Our pass of a channel's shard and theirs meet: each has seen what the other has.
fn meet<N: Naming>(
    stage: &Stage<'_, '_, N>,
    ours: &mut Passes<N>,
    theirs: &mut Passes<N>,
    channel: &str,
) {
    let shard = shard_of(channel);
    let mut our = ours.take(stage.broker, shard);
    let mut their = theirs.take(stage.broker, shard);
    stage.broker.word(shard).meet(&mut our, &mut their);
    ours.put(shard, our);
    theirs.put(shard, their);
}

/// Tells what comes next over the link to node I: `receive I`; how much that node lost: `lost I`; or whether any is behind:
/// `crowded`.
fn tell_offered<N: Naming, R: Wait>(
    rt: &R,
    stage: &Stage<'_, '_, N>,
    links: &mut [Receiver<Delivery<N>>],
    done: &str,
    told: &mut Told,
) {
    let (name, node) = call_of(done);
    let node = told.number(node) as usize;
    match (name, links.get_mut(node)) {
        ("lost", _) => told.tell(stage.broker.lost(node)),
        ("crowded", _) => told.is_so(stage.broker.is_crowded(rt)),
        (_, Some(link)) => tell_brought(told, link.receive(rt)),
        _ => told.tell("no link"),
    }
}

/// Does what a row does, and tells what comes of it.
fn tell_row<N: Naming + Send + Sync, R: Threads + Wait + Abort + Sync>(
    rt: &R,
    stage: &Stage<'_, '_, N>,
    cast: &mut Cast<N>,
    done: &str,
    told: &mut Told,
) {
    let (word, rest) = call_of(done);
    match word {
        "both" => tell_both(rt, stage, &mut cast.ours, &mut cast.theirs, rest, told),
        "they" => tell_call(rt, stage, &mut cast.theirs, rest, told),
        "join" => join(stage, &mut cast.ours.passes, &mut cast.theirs.passes, rest),
        "meet" => meet(stage, &mut cast.ours.passes, &mut cast.theirs.passes, rest),
        "receive" | "lost" | "crowded" => {
            tell_offered(rt, stage, cast.links.as_mut_slice(), done, told);
        }
        _ => tell_call(rt, stage, &mut cast.ours, done, told),
    }
}

/// These rows are played, in their order.
fn play_rows<N: Naming + Send + Sync, R: Threads + Wait + Abort + Sync>(
    rt: &R,
    stage: &Stage<'_, '_, N>,
    mut cast: Cast<N>,
    table: &mut Table<'_>,
    part: &str,
) {
    for line in part.split('\n') {
        if table.has_row(line) {
            let row = in_full(stage.alloc, line);
            let mut told = Told::new(stage.alloc);
            tell_row(rt, stage, &mut cast, done_in(&row), &mut told);
            table.compare(&row, &told);
        }
    }
    table.part_ends();
}

/// The rows of a part are played on a broker over these words, with a link of one place, and one of twenty. The broker lies in a
/// box, since a function that lends a broker of its own is costly to prove.
pub(super) fn play<N: Naming + Send + Sync, R: Threads + Wait + Abort + AllocGlobal + Sync>(
    rt: &R,
    words: Words,
    namespaces: &Namespaces,
    part: Part<'_>,
    table: &mut Table<'_>,
)
    requires words { words ≡ names N.words 16 }
    requires namespaces { namespaces.now ≡ N.namespaces }
{
    let alloc = rt.alloc();
    let Part { epochs, rows } = part;
    let (near, at_near) = pair(alloc, 1).expect(rt, "memory");
    let (far, at_far) = pair(alloc, 20).expect(rt, "memory");
    let senders = Vec::from_array(alloc, [near, far]).expect(rt, "memory");
    let links = Vec::from_array(alloc, [at_near, at_far]).expect(rt, "memory");
    let made = Broker::<N, Draws<'_>>::new(alloc, words, namespaces, epochs, senders);
    let (broker, mut passes) = made.expect(rt, "memory");
    let broker = Box::new(alloc, broker).expect(rt, "memory");
    let stage = Stage {
        alloc,
        broker: &*broker,
        namespaces,
    };
    let lent = passes.lend(alloc, stage.broker).expect(rt, "memory");
    let cast = Cast {
        ours: Caller { passes, now: 0 },
        theirs: Caller {
            passes: lent,
            now: 0,
        },
        links,
    };
    play_rows(rt, &stage, cast, table, rows);
}

//! Two nodes that run together, and what is done while they do.
ghost use Rattle.std.specs.Prelude.{◌≡◌, ◌<◌};
ghost use Rattle.cf_broker.specs.Shards.{names};

use super::hand::Hand;
use super::nodes::{Opened, Settings, broker_to, open};
use super::{losses, script};
use cf_broker::{Broker, Passes, Words};
use cf_epochs::BootEpochs;
use cf_node::Node;
use cf_shard::Naming;
use std::net::{Net, SocketAddr};
use std::process::Abort;
use std::sync::Wait;
use std::sync::atomic::{AtomicU64, Ordering};
use std::thread;
use std::thread::Threads;
use std::time::Clock;

/// What is done while two nodes run: the rows of a test are played, which is named first.
#[derive(Clone, Copy)]
pub(super) enum Task {
    /// By three clients and who leads the nodes' workers.
    Talk(&'static str, &'static str),
    /// By four clients that get all that a fifth publishes, though some of it is lost on its way.
    Losses(&'static str, &'static str),
}

// It is done with clients of the nodes at these addresses, while a hand leads the nodes' workers.
fn carry_out<R: Net + Clock + Abort + AllocGlobal>(
    rt: &R,
    hand: &Hand,
    task: Task,
    addresses: (SocketAddr, SocketAddr),
) {
    match task {
        Task::Talk(name, rows) => script::play(rt, hand, name, rows, addresses),
        Task::Losses(name, rows) => losses::play(rt, name, rows, addresses),
    }
}

// A node with its passes.
type Ready<'a, N> = (Node<'a, N>, Passes<N>);

fn serve<'a, N, R>(
    rt: &'a R,
    broker: &'a Broker<N, BootEpochs>,
    hand: &'a Hand,
    ready: Ready<'a, N>,
    stop: &'a AtomicU64,
)
where
    N: Naming + Send + Sync,
    R: Threads + Wait + Clock + AllocGlobal + Sync,
{
    let (node, passes) = ready;
    let _ = node.run(rt, broker, passes, hand, stop);
}

// Runs nodes while the task is done, after which they are to stop.
fn run_all<N, R>(
    rt: &R,
    broker: &Broker<N, BootEpochs>,
    hand: &Hand,
    nodes: Vec<Ready<'_, N>>,
    task: Task,
    addresses: (SocketAddr, SocketAddr),
)
where
    N: Naming + Send + Sync,
    R: Threads + Wait + Clock + Net + Abort + AllocGlobal + Sync,
{
    let stop = AtomicU64::new(0);
    let stop = &stop;
    thread::scope(thread::scope_env(), rt, |scope| {
        for ready in nodes {
            let _ = scope.spawn(move || serve(rt, broker, hand, ready, stop));
        }
        carry_out(rt, hand, task, addresses);
        stop.store(1, Ordering::SeqCst);
    });
}

/// Two nodes at one broker over these words, whose links have room for so many publications, run while the task is done. All four
/// workers are there. How many publications the links had no room for.
pub(super) fn two_nodes<N, R>(
    rt: &R,
    words: Words,
    settings: &Settings,
    room: usize,
    hand: &Hand,
    task: Task,
) -> u64
where
    N: Naming + Send + Sync,
    R: Threads + Wait + Clock + Net + Abort + AllocGlobal + Sync,
    requires room { 0 < room }
    requires words { words ≡ names N.words 16 }
    requires namespaces { settings.now.namespaces ≡ N.namespaces }
{
    let Opened {
        sender: to_ours,
        node: ours,
        address: first,
    } = open::<N, R>(rt, 0, room, settings);
    let Opened {
        sender: to_theirs,
        node: theirs,
        address: second,
    } = open::<N, R>(rt, 1, room, settings);
    let senders = Vec::from_array(rt.alloc(), [to_ours, to_theirs]).expect(rt, "memory");
    let (broker, lent, passes) = broker_to::<N, R>(rt, words, settings, senders);
    let broker = &*broker;
    let nodes = Vec::from_array(rt.alloc(), [(ours, lent), (theirs, passes)]);
    let nodes = nodes.expect(rt, "memory");
    run_all(rt, broker, hand, nodes, task, (first, second));
    assert!(rt; hand.have_met());
    broker.lost(0).saturating_add(broker.lost(1))
}

//! The command `serve`: nodes that clients connect to.
ghost use Rattle.std.specs.Prelude.{◌≡◌, ◌<◌, IfOk};
ghost use Rattle.cf_broker.specs.Shards.{names};
ghost use denote.Param.Send.{IsSend, IsSync};

use crate::command_line::ServeOptions;
use crate::entries::{namespaces_of, tokens_of};
use crate::error::{CommandError, Setting};
use crate::report::{Reporter, Teller};
use crate::running::{Ear, Running, wait_for_workers};
use crate::sizes::{Listener, Sizes};
use crate::stand_ins::stand_ins;
use cf_broker::{Broker, Passes, Words};
use cf_epochs::{Boot, BootEpochs};
use cf_link::{Receiver, Sender, pair};
use cf_node::{Node, Setup};
use cf_protocol::{Namespaces, Tokens};
use cf_shard::{Delivery, Naming};
use mio::net::TcpListener;
use std::io::{BufWriter, ErrorKind, Write};
use std::marker::Brand;
use std::net::{Ipv4Addr, Net, SocketAddr};
use std::rt::Files;
use std::sync::Wait;
use std::sync::atomic::{AtomicU64, Ordering};
use std::thread::{Scope, Threads};
use std::time::Clock;
use std::{io, thread};

// The bytes of a buffer that is freed before clients come: glibc keeps up to twice as many that are freed from then on.
const LARGE_BUFFER: usize = 16_777_216;

// How many ports an address has.
const PORTS: u32 = 65_536;

/// The most publications that may wait on the link to a node.
pub(crate) const MOST_ON_LINK: i64 = 65_536;

// The nodes, the broker's ends of their links, and where they listen.
#[derive(Drop)]
struct Opened<'a, N: Naming> {
    senders: Vec<Sender<Delivery<N>>>,
    nodes: Vec<Node<'a, N>>,
    addresses: Vec<SocketAddr>,
}

// The nodes, the broker between them with its passes, and where they listen. The broker lies in a box, since a function
// that lends a broker of its own is costly to prove.
#[derive(Drop)]
struct Joined<'a, N: Naming> {
    broker: Box<Broker<N, BootEpochs>>,
    passes: Passes<N>,
    nodes: Vec<Node<'a, N>>,
    addresses: Vec<SocketAddr>,
}

// What hears standard input, and what tells on standard error.
#[derive(Drop)]
struct Senses<'a> {
    ear: Ear,
    reporter: Reporter<'a>,
}

/// Serves clients until standard input ends. Each node's address is printed as `node I 127.0.0.1:PORT` once all nodes
/// serve.
///
/// # Errors
///
/// `Setting` and `Entry` name the option that can't be used; `Listen` a node that can't listen, `NotStarted` one whose
/// thread can't be started, `Ended` one whose loop has ended; `InputOutput` if standard input or output fails;
/// `Memory`.
pub fn serve<R>(rt: &R, options: ServeOptions<'_>) -> Result<(), CommandError>
where
    R: Input + Print + Eprint + AllocGlobal + Files + Threads + Wait + Clock + Net + Sync,
{
    // Before anything else is opened, which would take the numbers of those that are closed.
    let _stand_ins = stand_ins(rt)?;
    let alloc = rt.alloc();
    let namespaces = namespaces_of(alloc, options.namespaces)?;
    let tokens = tokens_of(alloc, options.tokens)?;
    let boot = boot_of(options)?;
    serve_on::<Brand, R>(rt, options, boot, Words::new(alloc)?, &namespaces, &tokens)
}

// The number of this start, if there are ports for all nodes.
fn boot_of(options: ServeOptions<'_>) -> Result<Boot, CommandError> {
    if u32::from(options.port) + u32::from(options.nodes) > PORTS {
        return Err(CommandError::Setting {
            setting: Setting::Port,
        });
    }
    Boot::new(options.boot).ok_or(CommandError::Setting {
        setting: Setting::Boot,
    })
}

// How many publications may wait on a node's link.
fn room_of(options: ServeOptions<'_>) -> Result<usize, CommandError>
    ensures same { IfOk result (λ room. room ≡ options.entry.link) }
    ensures some { IfOk result (λ room. 0 < room) }
{
    if options.link < 1 || i64::from(options.link) > MOST_ON_LINK {
        return Err(CommandError::Setting {
            setting: Setting::Link,
        });
    }
    Ok(options.link as usize)
}

// The same over these words and namespaces, which the type names.
fn serve_on<N, R>(
    rt: &R,
    options: ServeOptions<'_>,
    boot: Boot,
    words: Words,
    namespaces: &Namespaces,
    tokens: &Tokens,
) -> Result<(), CommandError>
where
    N: Naming + Send + Sync,
    R: Input + Print + Eprint + AllocGlobal + Threads + Wait + Clock + Net + Sync,
    requires words { words ≡ names N.words 16 }
    requires namespaces { namespaces.now ≡ N.namespaces }
{
    let running = Running::new(rt, options.nodes, options.is_quiet)?;
    let Joined {
        broker,
        passes,
        nodes,
        addresses,
    } = join::<N, R>(rt, options, boot, words, &running, namespaces, tokens)?;
    let mut sizes = Sizes {
        rt,
        broker: &*broker,
        passes,
        namespaces,
        teller: Teller::open(rt)?,
    };
    // All that a start needs is there before the first client is accepted.
    let senses = Senses {
        ear: Ear::open(rt)?,
        reporter: Reporter::open(rt, &running)?,
    };
    run_nodes(
        rt,
        &running,
        nodes,
        addresses.as_slice(),
        &mut sizes,
        senses,
    )
}

// Opens the nodes, and the broker that sends to them.
fn join<'a, N: Naming, R: Net + AllocGlobal>(
    rt: &R,
    options: ServeOptions<'_>,
    boot: Boot,
    words: Words,
    running: &'a Running,
    namespaces: &'a Namespaces,
    tokens: &'a Tokens,
) -> Result<Joined<'a, N>, CommandError>
    requires words { words ≡ names N.words 16 }
    requires namespaces { namespaces.now ≡ N.namespaces }
{
    let alloc = rt.alloc();
    let Opened {
        senders,
        nodes,
        addresses,
    } = open_nodes::<N, R>(rt, options, running, namespaces, tokens)?;
    let epochs = BootEpochs::of_shards(boot);
    let (broker, passes) = Broker::<N, BootEpochs>::new(alloc, words, namespaces, epochs, senders)?;
    Ok(Joined {
        broker: Box::new(alloc, broker)?,
        passes,
        nodes,
        addresses,
    })
}

// The nodes, at listeners that stand.
fn open_nodes<'a, N: Naming, R: Net + AllocGlobal>(
    rt: &R,
    options: ServeOptions<'_>,
    running: &'a Running,
    namespaces: &'a Namespaces,
    tokens: &'a Tokens,
) -> Result<Opened<'a, N>, CommandError>
    requires { namespaces.now ≡ N.namespaces }
{
    let mut opened = Opened {
        senders: Vec::new(rt.alloc()),
        nodes: Vec::new(rt.alloc()),
        addresses: Vec::new(rt.alloc()),
    };
    for number in 0..options.nodes {
        let mut setup = Setup::new(number, options.boot, namespaces, tokens)
            .stale(u64::from(options.stale))
            .reaching(&running.reach);
        if let Some(counts) = running.counts.get(usize::from(number)) {
            setup = setup.counted(counts);
        }
        add_node(rt, options, setup, &mut opened)?;
    }
    Ok(opened)
}

// Puts one more node behind the others.
fn add_node<'a, N: Naming, R: Net + AllocGlobal>(
    rt: &R,
    options: ServeOptions<'_>,
    setup: Setup<'a, N>,
    opened: &mut Opened<'a, N>,
) -> Result<(), CommandError> {
    let room = room_of(options)?;
    let listener = listen(rt, options, setup.node(), &mut opened.addresses)?;
    let (sender, receiver) = pair(rt.alloc(), room)?;
    opened.senders.push(sender)?;
    let node = Node::open(rt, setup, receiver, listener)?;
    opened.nodes.push(node).map_err(CommandError::from)
}

// Listens at the node's port, and keeps where, since a port may be any that is free.
fn listen<R: Net>(
    rt: &R,
    options: ServeOptions<'_>,
    node: u8,
    addresses: &mut Vec<SocketAddr>,
) -> Result<TcpListener, CommandError> {
    let port = if options.port == 0 {
        0
    } else {
        options.port.saturating_add(u16::from(node))
    };
    let address = SocketAddr::from((Ipv4Addr::LOCALHOST, port));
    match TcpListener::bind(rt, address) {
        Ok(listener) => {
            addresses.push(listener.local_addr()?)?;
            Ok(listener)
        }
        Err(error) if error.kind() == ErrorKind::OutOfMemory => Err(CommandError::Memory),
        Err(_) => Err(CommandError::Listen { node, address }),
    }
}

// Starts a node in a thread of its own, with passes that it is lent.
fn start<'s, N, R, E>(
    scope: &Scope<'s, E>,
    rt: &'s R,
    broker: &'s Broker<N, BootEpochs>,
    running: &'s Running,
    passes: &mut Passes<N>,
    (number, node): (u8, Node<'s, N>),
    stop: &'s AtomicU64,
) -> Result<(), CommandError>
where
    N: Naming + Send + Sync,
    R: AllocGlobal + Threads + Wait + Clock + Sync,
{
    let passes = passes.lend(rt.alloc(), broker)?;
    let started = scope.spawn(move || {
        if node.run(rt, broker, passes, running, stop).is_err() {
            running.fail(number);
        }
    });
    match started {
        Ok(_) => Ok(()),
        Err(_) => Err(CommandError::NotStarted { node: number }),
    }
}

// Starts each node in a thread of its own.
fn start_all<'s, N, R, E>(
    scope: &Scope<'s, E>,
    rt: &'s R,
    broker: &'s Broker<N, BootEpochs>,
    running: &'s Running,
    passes: &mut Passes<N>,
    nodes: Vec<Node<'s, N>>,
    stop: &'s AtomicU64,
) -> Result<(), CommandError>
where
    N: Naming + Send + Sync,
    R: AllocGlobal + Threads + Wait + Clock + Sync,
{
    let mut number: u8 = 0;
    for node in nodes {
        start(scope, rt, broker, running, passes, (number, node), stop)?;
        number = number.saturating_add(1);
    }
    Ok(())
}

// Runs each node in a thread of its own until standard input, whose lines set sizes, ends, or a node doesn't go on.
fn run_nodes<N, R>(
    rt: &R,
    running: &Running,
    nodes: Vec<Node<'_, N>>,
    addresses: &[SocketAddr],
    sizes: &mut Sizes<'_, R, N, BootEpochs>,
    senses: Senses<'_>,
) -> Result<(), CommandError>
where
    N: Naming + Send + Sync,
    R: Input + Print + Eprint + AllocGlobal + Threads + Wait + Clock + Net + Sync,
{
    let broker = sizes.broker;
    let Senses {
        mut ear,
        mut reporter,
    } = senses;
    let stop = AtomicU64::new(0);
    let stop = &stop;
    thread::scope(
        thread::scope_env(),
        rt,
        // What it calls requires these of `N`, which the prover doesn't take from its body.
        |scope|
            requires send { IsSend N.row }
            requires sync { IsSync N.row }
        {
            let served = match start_all(
                scope,
                rt,
                broker,
                running,
                &mut sizes.passes,
                nodes,
                stop,
            ) {
                Ok(()) => {
                    // If nobody can tell what goes wrong, the nodes serve all the same.
                    let _ = scope.spawn(move || reporter.report(rt, broker, stop));
                    watch(rt, running, addresses, sizes, &mut ear)
                }
                Err(fault) => Err(fault),
            };
            stop.store(1, Ordering::SeqCst);
            served
        },
    )
}

// Says where the nodes listen, by way of a large buffer that is freed behind it: so glibc keeps what is freed later for
// what is asked for next; else it would give it back to the system, and ask for it again, with each large publication.
fn say_addresses<R: Print + AllocGlobal>(rt: &R, addresses: &[SocketAddr]) -> io::Result<()> {
    let mut writer = BufWriter::with_capacity(rt.alloc(), LARGE_BUFFER, io::writer(rt))?;
    for (node, address) in addresses.iter().enumerate() {
        writeln!(writer, "node {node} {address}")?;
    }
    writer.flush()
}

// Says where the nodes listen once their workers have begun, and hears the input to its end.
fn watch<R, L>(
    rt: &R,
    running: &Running,
    addresses: &[SocketAddr],
    listener: &mut L,
    ear: &mut Ear,
) -> Result<(), CommandError>
where
    R: Input + Print + AllocGlobal + Clock,
    L: Listener,
{
    wait_for_workers(rt, running, addresses.len())?;
    say_addresses(rt, addresses)?;
    ear.hear_all(&mut rt.reader(), running, listener)
}

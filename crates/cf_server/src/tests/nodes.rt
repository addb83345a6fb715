//! Nodes at free ports, and the broker between them.
ghost use Rattle.std.specs.Prelude.{◌≡◌, ◌<◌};
ghost use Rattle.cf_broker.specs.Shards.{names};

use cf_broker::{Broker, Passes, Words};
use cf_epochs::{Boot, BootEpochs};
use cf_link::{Sender, pair};
use cf_node::{Node, Setup};
use cf_protocol::{Namespaces, Tokens, read_namespaces, read_tokens};
use cf_shard::{Delivery, Naming};
use mio::net::TcpListener;
use std::net::{Ipv4Addr, Net, SocketAddr};
use std::process::Abort;

/// The number of this start of the program.
const BOOT: u64 = 7;

/// The namespace of channels without a prefix.
const NAMESPACES: &str = "=1000,2592000,phs";

/// What nodes are set up with.
#[derive(Drop)]
pub(super) struct Settings {
    pub(super) namespaces: Namespaces,
    pub(super) tokens: Tokens,
}

/// One namespace, and no tokens.
pub(super) fn default_settings<R: Abort + AllocGlobal>(rt: &R) -> Settings {
    let namespaces = read_namespaces(rt.alloc(), NAMESPACES).expect(rt, "namespaces");
    let tokens = read_tokens(rt.alloc(), "").expect(rt, "tokens");
    Settings { namespaces, tokens }
}

/// A node that listens, and serves nobody yet.
#[derive(Drop)]
pub(super) struct Opened<'a, N: Naming> {
    /// The broker's end of the node's link.
    pub(super) sender: Sender<Delivery<N>>,
    pub(super) node: Node<'a, N>,
    pub(super) address: SocketAddr,
}

/// A node of this number whose link has room for so many publications.
pub(super) fn open<'a, N: Naming, R: Net + Abort + AllocGlobal>(
    rt: &R,
    number: u8,
    room: usize,
    settings: &'a Settings,
) -> Opened<'a, N>
    requires room { 0 < room }
    requires namespaces { settings.now.namespaces ≡ N.namespaces }
{
    let listener = listen(rt);
    let address = listener.local_addr().expect(rt, "its address");
    let (sender, receiver) = pair(rt.alloc(), room).expect(rt, "memory");
    let setup = Setup::new(number, BOOT, &settings.namespaces, &settings.tokens);
    let node = Node::open(rt, setup, receiver, listener).expect(rt, "readiness");
    Opened {
        sender,
        node,
        address,
    }
}

fn listen(rt: &(impl Net + Abort)) -> TcpListener {
    let port = SocketAddr::from((Ipv4Addr::LOCALHOST, 0));
    TcpListener::bind(rt, port).expect(rt, "a free port")
}

/// A broker that sends to nodes over these links, and two passes of each shard. It lies in a box, since a function that lends a
/// broker of its own is costly to prove.
pub(super) fn broker_to<N: Naming, R: Abort + AllocGlobal>(
    rt: &R,
    words: Words,
    settings: &Settings,
    senders: Vec<Sender<Delivery<N>>>,
) -> (Box<Broker<N, BootEpochs>>, Passes<N>, Passes<N>)
    requires words { words ≡ names N.words 16 }
    requires namespaces { settings.now.namespaces ≡ N.namespaces }
{
    let boot = Boot::new(BOOT).expect(rt, "a boot number");
    let epochs = BootEpochs::of_shards(boot);
    let opened = Broker::new(rt.alloc(), words, &settings.namespaces, epochs, senders);
    let (broker, mut passes) = opened.expect(rt, "memory");
    let broker = Box::new(rt.alloc(), broker).expect(rt, "memory");
    let lent = passes.lend(rt.alloc(), &*broker).expect(rt, "memory");
    (broker, lent, passes)
}

//! Publications that are lost on their way to a node, as rows: each client gets them all the same, once each and in order.
//!
//! `settle` waits until two clients of each node follow the news, and `return` until they do once more: each leaves, and asks
//! again from its position. `publish COUNT` publishes the numbers from 1 by a client of the first node, while they take what
//! comes. `count` is how many each of them got.
use super::connection::{Connection, open};
use super::hand::Hand;
use super::nodes::default_settings;
use super::peer::{Peer, connect};
use super::rows::{Subject, are_so, call_of, tell, tell_whether};
use super::together::{Task, two_nodes};
use cf_broker::Words;
use cf_client::AppEvent;
use cf_protocol::Position;
use std::alloc::Global;
use std::io::{Read, Write};
use std::marker::Brand;
use std::net::{Net, SocketAddr};
use std::process::Abort;
use std::thread;

/// So many turns of one of its two waits, and the test has failed: ten million in all.
const MOST_TURNS: u64 = 5_000_000;

const NEWS: &str = "news";

/// The epoch of its stream.
const EPOCH: &str = "7x13x1";

/// How many publications are on their way to the node at once.
const BURST: u64 = 10;

/// A client that is subscribed to the news.
#[derive(Drop)]
struct Reader<S> {
    connection: Connection<S>,
    // So many came, once each and in order.
    came: u64,
    // It doesn't wait for the answer to an ask.
    is_live: bool,
}

// A client that asks for the news of the node at this address.
fn subscribe<N: Net + AllocGlobal>(rt: &N, address: SocketAddr) -> Option<Reader<N::Stream>> {
    let mut connection = open(rt, rt.alloc(), address).ok()?;
    connection.send(|client| client.ask(NEWS)).ok()?;
    Some(Reader {
        connection,
        came: 0,
        is_live: false,
    })
}

impl<S: Read + Write + Drop> Reader<S> {
    // It takes what came. None if that isn't as it should be.
    fn turn(&mut self) -> Option<()> {
        for event in self.connection.hear().ok()? {
            self.take(event)?;
        }
        Some(())
    }

    // What its client asked for from a position is recovered; what the node ended is asked for again.
    fn take(&mut self, event: AppEvent) -> Option<()> {
        match event {
            AppEvent::Subscribed {
                was_recovering,
                recovered,
                ..
            } => {
                self.is_live = true;
                (recovered == was_recovering).then_some(())
            }
            AppEvent::Published { position, body, .. } => self.count(&position, body.as_str()),
            AppEvent::Resubscribing { .. } => self.ask_again(),
            AppEvent::PongDue => Some(()),
            _ => None,
        }
    }

    // The next publication is the one of the next number.
    fn count(&mut self, position: &Position, body: &str) -> Option<()> {
        self.came = self.came.saturating_add(1);
        let is_next = position.offset == self.came && position.epoch.as_str() == EPOCH;
        (is_next && body.parse::<u64>() == Ok(self.came)).then_some(())
    }

    fn ask_again(&mut self) -> Option<()> {
        self.is_live = false;
        self.connection.send(|client| client.ask_from(NEWS)).ok()
    }

    // If its client isn't idle it leaves, and it asks from its position.
    fn come_back(&mut self) -> Option<()> {
        if !self.connection.client().is_idle(NEWS) {
            self.connection.send(|client| client.leave(NEWS)).ok()?;
        }
        self.ask_again()
    }
}

/// Two readers at each node, and a client of the first node that publishes.
#[derive(Drop)]
struct Newsroom<S> {
    readers: Vec<Reader<S>>,
    author: Peer<S>,
}

fn gather<N: Net + AllocGlobal>(
    rt: &N,
    addresses: (SocketAddr, SocketAddr),
) -> Option<Newsroom<N::Stream>> {
    let mut readers = Vec::new(rt.alloc());
    for address in [addresses.0, addresses.0, addresses.1, addresses.1] {
        readers.push(subscribe(rt, address)?).ok()?;
    }
    let author = connect(rt, addresses.0).ok()?;
    Some(Newsroom { readers, author })
}

// Each has a turn.
fn turn_all<S: Read + Write + Drop>(readers: &mut [Reader<S>]) -> Option<()> {
    for reader in readers.iter_mut() {
        reader.turn()?;
    }
    thread::yield_now();
    Some(())
}

// All have their answers within so many turns.
fn settle<S: Read + Write + Drop>(readers: &mut [Reader<S>]) -> Option<()> {
    for _ in 0..MOST_TURNS {
        if readers.iter().all(|reader| reader.is_live) {
            return Some(());
        }
        turn_all(readers)?;
    }
    None
}

// Each comes back to the news.
fn come_back<S: Read + Write + Drop>(readers: &mut [Reader<S>]) -> Option<()> {
    for reader in readers.iter_mut() {
        reader.come_back()?;
    }
    settle(readers)
}

// A client publishes a number, whose answer is awaited later.
fn publish<S: Read + Write>(alloc: Global, author: &mut Peer<S>, number: u64) -> bool {
    let text = format!(in alloc;
        "{{\"id\":2,\"publish\":{{\"channel\":\"{NEWS}\",\"data\":{number}}}}}"
    );
    match text {
        Ok(text) => author.say(text.as_str()).is_ok(),
        Err(_) => false,
    }
}

// Its next answer is that it published.
fn has_published<S: Read + Write>(author: &mut Peer<S>) -> bool {
    match author.next_text() {
        Ok(text) => text == "{\"id\":2,\"publish\":{}}",
        Err(_) => false,
    }
}

// It publishes so many, some at a time, while the readers take what comes.
fn publish_all<S: Read + Write + Drop>(
    alloc: Global,
    author: &mut Peer<S>,
    readers: &mut [Reader<S>],
    count: u64,
) -> Option<()> {
    for number in 1..=count {
        let mut is_so = publish(alloc, author, number);
        if number.is_multiple_of(BURST) {
            is_so = is_so && (0..BURST).all(|_| has_published(author));
            turn_all(readers)?;
        }
        is_so.then_some(())?;
    }
    Some(())
}

// Tells how many came to each.
fn tell_counts<S>(readers: &[Reader<S>], told: &mut String) {
    for reader in readers {
        if !told.is_empty() {
            tell(told, " ");
        }
        tell(told, reader.came);
    }
}

impl<S: Read + Write + Drop> Subject for Newsroom<S> {
    fn play(&mut self, alloc: Global, done: &str, told: &mut String) {
        let readers = self.readers.as_mut_slice();
        let (name, passed) = call_of(done);
        match name {
            "settle" => tell_whether(told, settle(readers).is_some()),
            "publish" => {
                let count = passed.parse::<u64>().unwrap_or(0);
                let is_so = publish_all(alloc, &mut self.author, readers, count).is_some();
                tell_whether(told, count > 0 && is_so);
            }
            "return" => tell_whether(told, come_back(readers).is_some()),
            "count" => tell_counts(readers, told),
            _ => tell(told, "no such call"),
        }
    }
}

/// The rows of this test are so, in their order.
pub(super) fn play<R: Net + Abort + AllocGlobal>(
    rt: &R,
    name: &str,
    rows: &str,
    addresses: (SocketAddr, SocketAddr),
) {
    let mut newsroom = gather(rt, addresses).expect(rt, "connections");
    are_so(rt, rt.alloc(), name, &mut newsroom, rows);
}

const READINGS: &str = "settle => yes
publish 200 => yes
return => yes
count => 200 200 200 200";

// Over links with room for one publication, before slow dispatchers, some are lost on their way to the nodes. Two clients on each
// still get all 200, once each and in order, since those that the node tells so, and all in the end, ask again from their
// positions.
#[test]
fn loopback_two_nodes(rt: HostRuntime) {
    let settings = default_settings(&rt);
    let words = Words::new(rt.alloc()).expect(&rt, "memory");
    let hand = Hand::new(1000);
    let task = Task::Losses("loopback_two_nodes", READINGS);
    let lost = two_nodes::<Brand, HostRuntime>(&rt, words, &settings, 1, &hand, task);
    assert!(rt; lost > 0, "nothing was lost");
}

//! What two nodes do, as rows: ann and cat are clients of node 0, and bob is one of node 1.
//!
//! `say ann TEXT` is what she says, and `hear ann` what she gets next. `hold` holds the dispatcher of node 0 until `release`,
//! `at NOW` is the moment from then on, and `turns` waits until the IO loop of node 0 has begun two turns more. `well` waits
//! until node 0 says that it is, and `health` is what it answers to who asks.
use super::hand::Hand;
use super::nodes::default_settings;
use super::peer::{Peer, answer_to, connect};
use super::rows::{Subject, are_so, call_of, tell, tell_whether};
use super::together::{Task, two_nodes};
use cf_broker::Words;
use std::alloc::Global;
use std::marker::Brand;
use std::net::{Net, SocketAddr};
use std::process::Abort;
use std::time::{Clock, Duration};
use std::{io, str, thread};

/// So many questions, and the node isn't well.
const MOST_TRIES: usize = 500;

const HEALTH: &[u8] = b"GET /health HTTP/1.1\r\nHost: localhost\r\n\r\n";

const WELL: &[u8] =
    b"HTTP/1.1 200 OK\r\nContent-Type: text/plain\r\nContent-Length: 2\r\nConnection: close\r\n\r\nok";

const STUCK: &[u8] =
    b"HTTP/1.1 503 Service Unavailable\r\nContent-Type: text/plain\r\nContent-Length: 5\r\nConnection: close\r\n\r\nstuck";

/// Two nodes: the hand that leads their workers, the address of node 0, and their clients ann, cat and bob.
#[derive(Drop)]
struct Stage<'a, R: Net> {
    rt: &'a R,
    hand: &'a Hand,
    address: SocketAddr,
    peers: Vec<Peer<R::Stream>>,
}

// The clients: ann, cat and bob.
fn connect_all<R: Net + Abort + AllocGlobal>(
    rt: &R,
    addresses: (SocketAddr, SocketAddr),
) -> Vec<Peer<R::Stream>> {
    let mut peers = Vec::new(rt.alloc());
    for address in [addresses.0, addresses.0, addresses.1] {
        let peer = connect(rt, address).expect(rt, "a connection");
        peers.push(peer).expect(rt, "memory");
    }
    peers
}

// The short name of what a node answers to who asks whether it lives, or the whole answer.
fn name_of(answer: &[u8]) -> &str {
    if answer == WELL {
        return "ok";
    }
    if answer == STUCK {
        return "stuck";
    }
    str::from_utf8(answer).unwrap_or("no UTF-8")
}

impl<R: Net + Clock> Stage<'_, R> {
    // What node 0 answers to who asks whether it lives.
    fn ask_health(&self, alloc: Global) -> io::Result<Vec<u8>> {
        answer_to(self.rt, alloc, self.address, HEALTH)
    }

    // Whether node 0 is well within some seconds: its dispatcher may sleep through a moment that is given out.
    fn becomes_well(&self, alloc: Global) -> bool {
        for _ in 0..MOST_TRIES {
            if let Ok(answer) = self.ask_health(alloc)
                && answer.as_slice() == WELL
            {
                return true;
            }
            thread::sleep(self.rt, Duration::from_millis(20));
        }
        false
    }

    fn tell_health(&self, alloc: Global, told: &mut String) {
        match self.ask_health(alloc) {
            Ok(answer) => tell(told, name_of(answer.as_slice())),
            Err(error) => tell(told, error),
        }
    }

    // It is this moment from now on.
    fn set_moment(&self, moment: &str, told: &mut String) {
        match moment.parse::<u64>() {
            Ok(moment) => self.hand.set_moment(moment),
            Err(_) => tell(told, "no moment"),
        }
    }

    fn peer(&mut self, name: &str) -> Option<&mut Peer<R::Stream>> {
        let number = match name {
            "ann" => 0,
            "cat" => 1,
            "bob" => 2,
            _ => return None,
        };
        self.peers.get_mut(number)
    }

    // A client says a text.
    fn say(&mut self, name: &str, text: &str, told: &mut String) {
        let Some(peer) = self.peer(name) else {
            return tell(told, "nobody");
        };
        if let Err(error) = peer.say(text) {
            tell(told, error);
        }
    }

    // Tells what a client gets next.
    fn hear(&mut self, name: &str, told: &mut String) {
        let Some(peer) = self.peer(name) else {
            return tell(told, "nobody");
        };
        match peer.next_text() {
            Ok(text) => tell(told, text),
            Err(error) => tell(told, error),
        }
    }
}

impl<R: Net + Clock> Subject for Stage<'_, R> {
    fn play(&mut self, alloc: Global, done: &str, told: &mut String) {
        let (name, passed) = call_of(done);
        match name {
            "say" => {
                let (peer, text) = call_of(passed);
                self.say(peer, text, told);
            }
            "hear" => self.hear(passed, told),
            "hold" => tell_whether(told, self.hand.hold()),
            "release" => self.hand.let_go(),
            "at" => self.set_moment(passed, told),
            "turns" => tell_whether(told, self.hand.two_turns()),
            "well" => tell_whether(told, self.becomes_well(alloc)),
            "health" => self.tell_health(alloc, told),
            _ => tell(told, "no such call"),
        }
    }
}

/// The rows of this test are so, in their order, once the three clients are connected.
pub(super) fn play<R: Net + Clock + Abort + AllocGlobal>(
    rt: &R,
    hand: &Hand,
    name: &str,
    rows: &str,
    addresses: (SocketAddr, SocketAddr),
) {
    let mut stage = Stage {
        rt,
        hand,
        address: addresses.0,
        peers: connect_all(rt, addresses),
    };
    are_so(rt, rt.alloc(), name, &mut stage, rows);
}

const MEETING: &str = r#"say ann {"id":2,"subscribe":{"channel":"news"}} => nothing
hear ann => {"id":2,"subscribe":{"epoch":"7x13x1","positioned":true,"recoverable":true}}
say bob {"id":2,"subscribe":{"channel":"news"}} => nothing
hear bob => {"id":2,"subscribe":{"epoch":"7x13x1","positioned":true,"recoverable":true}}
say cat {"id":3,"publish":{"channel":"news","data":"hello"}} => nothing
hear cat => {"id":3,"publish":{}}
hear bob => {"push":{"channel":"news","pub":{"data":"hello","info":{"client":"0-7-2"},"offset":1}}}
hear ann => {"push":{"channel":"news","pub":{"data":"hello","info":{"client":"0-7-2"},"offset":1}}}"#;

// Each of the four workers waits inside its first turn for the other three; then a publish reaches a client on each node.
#[test]
fn gate_two_nodes(rt: HostRuntime) {
    let settings = default_settings(&rt);
    let words = Words::new(rt.alloc()).expect(&rt, "memory");
    let hand = Hand::new(1);
    let task = Task::Talk("gate_two_nodes", MEETING);
    two_nodes::<Brand, HostRuntime>(&rt, words, &settings, 1024, &hand, task);
}

const SECONDS: &str = r#"say ann {"id":2,"subscribe":{"channel":"news"}} => nothing
hear ann => {"id":2,"subscribe":{"epoch":"7x13x1","positioned":true,"recoverable":true}}
say ann {"id":3,"subscribe":{"channel":"b"}} => nothing
hear ann => {"id":3,"subscribe":{"epoch":"7x2x1","positioned":true,"recoverable":true}}
hold => yes
say cat {"id":2,"publish":{"channel":"news","data":1}} => nothing
hear cat => {"id":2,"publish":{}}
say cat {"id":3,"publish":{"channel":"news","data":2}} => nothing
hear cat => {"id":3,"publish":{}}
release => nothing
hear ann => {"push":{"channel":"news","pub":{"data":1,"info":{"client":"0-7-2"},"offset":1}}}
turns => yes
at 25 => nothing
hear ann => {}
say ann {} => nothing
say ann {"id":9,"ping":{}} => nothing
hear ann => {"id":9,"ping":{}}
turns => yes
at 50 => nothing
hear ann => {}
say ann {} => nothing
hear ann => {"push":{"channel":"news","unsubscribe":{"code":2500,"reason":"insufficient state"}}}
say ann {"id":9,"ping":{}} => nothing
hear ann => {"id":9,"ping":{}}
turns => yes
at 70 => nothing
say ann {"id":9,"ping":{}} => nothing
hear ann => {"id":9,"ping":{}}
turns => yes
say ann {"id":4,"presence":{"channel":"b"}} => nothing
hear ann => {"id":4,"presence":{"presence":{"0-7-1":{"client":"0-7-1"}}}}
well => yes
hold => yes
at 72 => nothing
turns => yes
health => ok
at 73 => nothing
turns => yes
health => stuck
release => nothing"#;

// Over a link with room for one a client misses the second of two publications. It is pinged every 25 seconds, told at its second
// check what it missed, and present 70 seconds on. The node is well for two seconds after its dispatcher's last turn.
#[test]
fn beats(rt: HostRuntime) {
    let settings = default_settings(&rt);
    let words = Words::new(rt.alloc()).expect(&rt, "memory");
    let hand = Hand::new(1);
    let task = Task::Talk("beats", SECONDS);
    two_nodes::<Brand, HostRuntime>(&rt, words, &settings, 1, &hand, task);
}

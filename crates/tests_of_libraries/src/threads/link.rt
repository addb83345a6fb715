//! A link of one place step by step, a receiver that is woken for each of a thousand items, and at once, and what an end is told.
use crate::rows::{Table, Told, call_of, done_in, in_full};
use cf_link::{Receiver, Sender, pair, settle};
use std::alloc::Global;
use std::process::Abort;
use std::sync::Wait;
use std::thread;
use std::thread::Threads;
use std::time::{Clock, Duration, Instant};

/// `send ITEM` gives the item back if there is no room.
const STEPS: &str = "\
waiting => 0
send 7 => sent
waiting => 1
send 8 => 8 comes back
receive => 7
waiting => 0
receive => none
within a millisecond => none
send 9 => sent
within a millisecond => 9";

/// Tells an item, or that there is none.
fn tell_item(told: &mut Told, item: Option<u32>) {
    match item {
        Some(item) => told.tell(item),
        None => told.tell("none"),
    }
}

/// Takes a step at the two ends of a link.
fn tell_step<R: Wait + Clock>(
    rt: &R,
    sender: &mut Sender<u32>,
    receiver: &mut Receiver<u32>,
    done: &str,
    told: &mut Told,
) {
    let (word, item) = call_of(done);
    match word {
        "receive" => tell_item(told, receiver.receive(rt)),
        "within" => tell_item(told, receiver.receive_within(rt, Duration::from_millis(1))),
        "waiting" => told.tell(sender.waiting(rt)),
        _ => {
            let item = told.number(item);
            match sender.send(rt, item) {
                Ok(()) => told.tell("sent"),
                Err(item) => told.tell(format_args!("{item} comes back")),
            }
        }
    }
}

#[test]
fn one_place(rt: HostRuntime) {
    let (mut sender, mut receiver) = pair(rt.alloc(), 1).expect(&rt, "memory");
    let mut table = Table::new(rt.alloc(), "threads/link");
    for line in STEPS.split('\n') {
        if table.has_row(line) {
            let row = in_full(rt.alloc(), line);
            let mut told = Told::new(rt.alloc());
            tell_step(&rt, &mut sender, &mut receiver, done_in(&row), &mut told);
            table.compare(&row, &told);
        }
    }
    table.ends(&rt);
}

/// What is left at the end was sent and not received: nothing, if all was received.
#[test]
fn settled_with_nothing_left(rt: HostRuntime) {
    let (mut sender, mut receiver) = pair(rt.alloc(), 1).expect(&rt, "memory");
    assert!(rt; sender.send(&rt, 7u32) == Ok(()));
    assert!(rt; sender.send(&rt, 8) == Err(8));
    assert!(rt; receiver.receive(&rt) == Some(7));
    assert!(rt; receiver.receive(&rt).is_none());
    assert!(rt; settle(&rt, sender, receiver) == 0);
}

/// The same: one, if a further send came before it.
#[test]
fn settled_behind_a_send(rt: HostRuntime) {
    let (mut sender, mut receiver) = pair(rt.alloc(), 1).expect(&rt, "memory");
    assert!(rt; sender.send(&rt, 7u32) == Ok(()));
    assert!(rt; sender.send(&rt, 8) == Err(8));
    assert!(rt; receiver.receive(&rt) == Some(7));
    assert!(rt; receiver.receive(&rt).is_none());
    assert!(rt; sender.send(&rt, 9) == Ok(()));
    assert!(rt; settle(&rt, sender, receiver) == 1);
}

/// Sends the numbers below `count`, each until it is taken.
fn send_all(rt: &impl Wait, sender: &mut Sender<u32>, count: u32) {
    for number in 0..count {
        for _ in rt.forever() {
            if sender.send(rt, number).is_ok() {
                sender.ring();
                break;
            }
            thread::yield_now();
        }
    }
}

/// The next item, for which a receiver would sleep for an hour at a time.
fn wait_for<R: Wait + Clock>(rt: &R, receiver: &mut Receiver<u32>) -> Option<u32> {
    for _ in rt.forever() {
        if let Some(item) = receiver.receive_within(rt, Duration::from_secs(3600)) {
            return Some(item);
        }
    }
    None
}

/// Sends an item after a fiftieth of a second, and rings. Whether it was sent.
fn send_later<R: Wait + Clock>(rt: &R, sender: &mut Sender<u32>) -> bool {
    thread::sleep(rt, Duration::from_millis(20));
    let sent = sender.send(rt, 7).is_ok();
    sender.ring();
    sent
}

/// Whether a receiver is woken at once by what another thread sends after a fiftieth of a second.
fn is_quick<R: Threads + Wait + Clock + Abort + Copy + Send + 'static>(
    rt: R,
    alloc: Global,
) -> bool {
    let start = Instant::now(&rt).expect(&rt, "a clock");
    let (mut sender, mut receiver) = pair(alloc, 1).expect(&rt, "memory");
    let child = thread::spawn(&rt, move || send_later(&rt, &mut sender)).expect(&rt, "a thread");
    let is_heard = wait_for(&rt, &mut receiver) == Some(7);
    let is_sent = child.join(&rt);
    let waited = start.elapsed(&rt).expect(&rt, "a clock");
    is_sent && is_heard && waited < Duration::from_millis(250)
}

/// A send wakes a receiver that sleeps, and not the end of its sleep: of three times one is quick on any machine.
#[test]
fn woken_by_a_send(rt: HostRuntime) {
    let alloc = rt.alloc();
    assert!(rt; is_quick(rt, alloc) || is_quick(rt, alloc) || is_quick(rt, alloc));
}

/// What a receiver was told to have been sent it gets, and what is left at the end was sent and not received.
#[test]
fn told_and_left(rt: HostRuntime) {
    let (mut sender, mut receiver) = pair(rt.alloc(), 2).expect(&rt, "memory");
    assert!(rt; sender.send(&rt, 7u32).is_ok());
    receiver.hear(sender.tell());
    assert!(rt; receiver.receive(&rt) == Some(7));
    sender.hear(receiver.tell());
    assert!(rt; sender.send(&rt, 8).is_ok());
    assert!(rt; settle(&rt, sender, receiver) == 1);
}

/// It is woken for each of a thousand items.
#[test]
fn between_two_threads(rt: HostRuntime) {
    let (mut sender, mut receiver) = pair(rt.alloc(), 1).expect(&rt, "memory");
    let child = thread::spawn(&rt, move || send_all(&rt, &mut sender, 1000)).expect(
        &rt, "a thread",
    );
    for number in 0..1000 {
        assert!(rt; wait_for(&rt, &mut receiver) == Some(number));
    }
    child.join(&rt);
    assert!(rt; receiver.receive(&rt).is_none());
}

//! Turns that are fair by cost.
use cf_fair::FairQueue;
use std::cmp::max;

/// 300 that publish 20,000 bytes to 300 each time, and one that publishes 100 bytes to 3 and comes again after each third turn of
/// theirs: once it is believed to be cheap it waits for one turn at most, whatever stands before it.
#[test]
fn light_one_waits_for_one_turn(rt: HostRuntime) {
    let mut queue = FairQueue::new(rt.alloc(), 6_000_000);
    for slot in 0..300 {
        queue.add(slot, false).expect(&rt, "there is memory");
    }
    let mut waited: usize = 0;
    let mut most: usize = 0;
    let mut heard: usize = 0;
    for turn in 0..3000 {
        if turn % 3 == 0 && !queue.waits(300) {
            queue.add(300, false).expect(&rt, "there is memory");
            waited = 0;
        }
        let slot = queue.next().expect(&rt, "somebody waits");
        if slot == 300 {
            heard = heard.saturating_add(1);
            if heard > 1 {
                most = max(most, waited);
            }
            queue.charge(slot, 300, 0);
        } else {
            waited = waited.saturating_add(1);
            queue.charge(slot, 6_000_000, 0);
            queue.add(slot, false).expect(&rt, "there is memory");
        }
    }
    assert!(rt; heard > 600, "heard {heard} times");
    assert!(rt; most <= 3, "waited for {most} turns");
}

/// 301 come at once after they were idle, 300 whose last turn cost much before one whose last turn cost less: it is the first.
#[test]
fn light_one_goes_before_a_burst(rt: HostRuntime) {
    let mut queue = FairQueue::new(rt.alloc(), 6_000_000);
    for slot in 0..301 {
        queue.add(slot, false).expect(&rt, "there is memory");
    }
    for slot in 0..301 {
        assert_eq!(rt; queue.next(), Some(slot));
        queue.charge(slot, if slot == 300 { 300 } else { 6_000_000 }, 0);
    }
    for slot in 0..301 {
        queue.add(slot, false).expect(&rt, "there is memory");
    }
    assert_eq!(rt; queue.next(), Some(300));
    assert_eq!(rt; queue.next(), Some(0));
}

/// A held one has no light turn, however early it is due, and the next turn of all once it is due first.
#[test]
fn held_ones_wait_for_next(rt: HostRuntime) {
    let mut queue = FairQueue::new(rt.alloc(), 6_000_000);
    queue.add(7, true).expect(&rt, "there is memory");
    assert!(rt; queue.is_light_empty());
    assert!(rt; !queue.is_empty());
    assert_eq!(rt; queue.next_light(), None);
    queue.add(2, false).expect(&rt, "there is memory");
    queue.add(5, false).expect(&rt, "there is memory");
    assert_eq!(rt; queue.len(), 3);
    assert_eq!(rt; queue.next_light(), Some(2));
    queue.charge(2, 10, 0);
    queue.add(2, false).expect(&rt, "there is memory");
    queue.remove(5);
    assert_eq!(rt; queue.next(), Some(7));
    assert_eq!(rt; queue.next(), Some(2));
    assert_eq!(rt; queue.next(), None);
}

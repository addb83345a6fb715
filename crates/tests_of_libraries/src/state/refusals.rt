//! What a refusal says.
use crate::rows::Told;
use cf_client::ClientFault;
use cf_hub::HubRefusal;
use cf_presence::PresenceError;
use cf_queue::QueueRefusal;
use cf_stream::StreamRefusal;
use cf_subs::SubTableError;
use cf_wire::WireFault;
use std::alloc::Global;
use std::fmt::Display;

/// Tells each value that isn't shown as its text.
fn tell_wrong<T: Display>(wrong: &mut Told, alloc: Global, values: &[(T, &str)]) {
    for (value, text) in values {
        let mut shown = Told::new(alloc);
        shown.tell(value);
        if shown.text() != Some(*text) {
            wrong.part("; ");
            wrong.tell(format_args!("wanted {text}, got {value}"));
        }
    }
}

const OF_STREAM: [(StreamRefusal, &str); 4] = [
    (
        StreamRefusal::AtLastOffset,
        "the stream is at its last offset",
    ),
    (
        StreamRefusal::WrongEpoch,
        "the position is of another epoch",
    ),
    (StreamRefusal::NoEpoch, "there is no epoch for a new stream"),
    (StreamRefusal::Memory, "out of memory"),
];

const OF_CLIENT: [(ClientFault, &str); 4] = [
    (ClientFault::Bad, "unreadable"),
    (ClientFault::NotNow, "not now"),
    (ClientFault::AtLastId, "no command id is left"),
    (ClientFault::Memory, "out of memory"),
];

const OF_QUEUE: [(QueueRefusal, &str); 3] = [
    (QueueRefusal::Closed, "the queue is closed"),
    (QueueRefusal::Slow, "the queue is at its limit"),
    (QueueRefusal::Memory, "out of memory"),
];

const OF_SUBS: [(SubTableError, &str); 2] = [
    (SubTableError::Full, "the table is full"),
    (SubTableError::Memory, "out of memory"),
];

const OF_HUB: [(HubRefusal, &str); 4] = [
    (HubRefusal::NoSession, "there is no such session"),
    (
        HubRefusal::Already,
        "the session follows the channel already",
    ),
    (
        HubRefusal::TooMany,
        "the node or the session has as many as it may have",
    ),
    (HubRefusal::Memory, "out of memory"),
];

#[test]
fn refusals_in_words(rt: HostRuntime) {
    let mut wrong = Told::new(rt.alloc());
    tell_wrong(&mut wrong, rt.alloc(), &OF_STREAM);
    tell_wrong(&mut wrong, rt.alloc(), &OF_CLIENT);
    tell_wrong(&mut wrong, rt.alloc(), &OF_QUEUE);
    tell_wrong(&mut wrong, rt.alloc(), &OF_SUBS);
    tell_wrong(
        &mut wrong,
        rt.alloc(),
        &[(PresenceError::Memory, "out of memory")],
    );
    tell_wrong(&mut wrong, rt.alloc(), &OF_HUB);
    tell_wrong(
        &mut wrong,
        rt.alloc(),
        &[(WireFault::Memory, "out of memory")],
    );
    let wrong = wrong.text().expect(&rt, "memory");
    assert!(rt; wrong.is_empty(), "{wrong}");
}

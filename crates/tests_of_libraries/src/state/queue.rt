//! A session's output.
use crate::rows::{Subject, Told, are_so, call_of};
use bytes::ByteStr;
use cf_queue::{Out, OutQueue, QueueRefusal};
use std::alloc::Global;

/// A text of so many letters.
fn text_of(alloc: Global, letters: &str, count: u32) -> Option<ByteStr> {
    let text = letters.repeat(alloc, count as usize).ok()?;
    ByteStr::from_string(text).ok()
}

/// Whether a text waits, of which a share is pushed or the text itself.
fn push(queue: &mut OutQueue, name: &str, text: ByteStr) -> Result<(), QueueRefusal> {
    if name == "share" {
        return queue.push_shared(&text);
    }
    match queue.push(text) {
        Ok(()) => Ok(()),
        Err((refusal, _)) => Err(refusal),
    }
}

/// Tells whether so many pieces wait.
fn tell_pushed(told: &mut Told, alloc: Global, queue: &mut OutQueue, name: &str, passed: &str) {
    let (letters, count) = call_of(passed);
    let count = told.number(count);
    match text_of(alloc, letters, count) {
        Some(text) => match push(queue, name, text) {
            Ok(()) => told.tell("kept"),
            Err(refusal) => told.tell(refusal),
        },
        None => told.lack(),
    }
}

/// Tells a text; of one that is longer than ten bytes how long it is.
fn tell_text(told: &mut Told, text: &str) {
    if text.len() > 10 {
        return told.tell(format_args!("{} bytes", text.len()));
    }
    told.tell(text);
}

/// Tells what is taken.
fn tell_taken(told: &mut Told, taken: Option<Out>) {
    match taken {
        Some(Out::Text(text)) => tell_text(told, text.as_str()),
        Some(Out::Close(code)) => told.tell(format_args!("close {code}")),
        None => told.tell("none"),
    }
}

/// `push LETTERS COUNT` is of so many pieces, and so is `share`, of a text that others hold as well.
impl Subject for OutQueue {
    fn play(&mut self, alloc: Global, done: &str, told: &mut Told) {
        let (name, passed) = call_of(done);
        match name {
            "push" | "share" => tell_pushed(told, alloc, self, name, passed),
            "take" => tell_taken(told, self.take()),
            "bytes" => told.tell(self.bytes()),
            "close" => {
                let code = told.number(passed);
                self.close((code % 5000) as u16);
            }
            _ => told.tell("no call"),
        }
    }
}

const FOUR_BYTES: &str = "\
push abcd 1 => kept
push e 1 => the queue is at its limit
bytes => 4
close 3008 => nothing
close 3001 => nothing
push f 1 => the queue is closed
take => abcd
take => close 3008
take => none";

/// A text of as many bytes as may wait for a client: a share of it is pushed, and given, and the text itself is pushed.
const WHOLE_LIMIT: &str = "\
share x 1048576 => kept
take => 1048576 bytes
push x 1048576 => kept";

#[test]
fn queue_limits(rt: HostRuntime) {
    let mut queue = OutQueue::new(rt.alloc(), 4);
    are_so(
        &rt,
        rt.alloc(),
        "state/queue four_bytes",
        &mut queue,
        FOUR_BYTES,
    );
    let mut queue = OutQueue::new(rt.alloc(), 1_048_576);
    are_so(
        &rt,
        rt.alloc(),
        "state/queue whole_limit",
        &mut queue,
        WHOLE_LIMIT,
    );
}

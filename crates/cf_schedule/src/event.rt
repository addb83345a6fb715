//! One line of a schedule, as a value.

ghost use Rattle.std.specs.Prelude.{◌≡◌, ◌≢◌, ℕ, ℤ, pos, neg_ℤ, ◌^◌, ◌<◌, ◌≤◌, List, ◌∷◌, ◌++◌, codes};
ghost use Rattle.std.specs.Prelude.{IfErr, IfOk, MatchOption};
ghost use Rattle.std.specs.Fmt.{decimal};
ghost use Rattle.cf_schedule.specs.ScheduleLine.{Says, IsPassedOver, IsLimit, last_number};
ghost use Rattle.cf_machine.specs.Event.{Event as SaidEvent};
ghost use Rattle.cf_schedule.specs.Seen.{key_of, seen};
ghost use Rattle.cf_schedule.specs.LineRead.{Answers, CutsAtSpace, IsInChannel, IsKeyBefore, IsNone, IsPublication};
ghost use Rattle.cf_schedule.specs.LineRead.{IsUnspaced, ReadAs, Refused, publish_word, put_word};

use crate::body::Body;
use crate::name::{ChannelName, ClientName, Key, NamespaceName};
use crate::number::{HistorySize, whole_number};
use cf_json::one_value;
use cf_protocol::{Epoch, LARGEST_SIZE};
use std::alloc::{AllocError, Global};
use thiserror::Error;

/// The most publications that a trim leaves.
const MOST_LEFT: u64 = LARGEST_SIZE;

/// The least number above all limits of a history.
const END_OF_LIMITS: u64 = 2_147_483_648;

/// What a line of a schedule says. A client, a channel, an epoch, a key, a datum, a namespace and a history size are
/// such as a line can name.
#[derive(Drop)]
pub enum Event {
    /// An epoch waits, behind the others, for the next stream that opens.
    Epoch {
        epoch: Epoch,
    },
    /// A client connects to a node.
    Connect {
        client: ClientName,
        node: u8,
    },
    /// A client sends a subscribe command, and its node reads it.
    Ask {
        client: ClientName,
        channel: ChannelName,
    },
    /// A client sends a subscribe command that asks from its last position, if it has one, and its node reads it.
    AskFrom {
        client: ClientName,
        channel: ChannelName,
    },
    /// The channel's stream is read for the client's subscription.
    Read {
        client: ClientName,
        channel: ChannelName,
    },
    /// The subscription is finished: its reply is queued.
    Finish {
        client: ClientName,
        channel: ChannelName,
    },
    /// A datum is published to a channel, perhaps under a key.
    Publish {
        channel: ChannelName,
        key: Option<Key>,
        body: Body,
    },
    /// A client publishes a datum to a channel, perhaps under a key.
    PublishBy {
        client: ClientName,
        channel: ChannelName,
        key: Option<Key>,
        body: Body,
    },
    /// A node is given a publication, by its number from 1 in the order of all that were accepted.
    Deliver {
        node: u8,
        publication: u64,
    },
    /// A client takes the front text of its connection.
    Take {
        client: ClientName,
    },
    /// A client's connection breaks.
    Break {
        client: ClientName,
    },
    /// A client leaves a channel.
    Leave {
        client: ClientName,
        channel: ChannelName,
    },
    /// The channel's stream holds no more than so many publications, the newest.
    Trim {
        channel: ChannelName,
        count: usize,
    },
    /// The channel's stream is gone.
    Forget {
        channel: ChannelName,
    },
    /// All streams are gone.
    BrokerRestart,
    /// The streams of a namespace hold at most so many publications from now on.
    SetSize {
        namespace: NamespaceName,
        size: HistorySize,
    },
    /// A node restarts: its sessions are gone.
    Restart {
        node: u8,
    },
    /// A node checks where a client's subscription stands against the channel's stream.
    Check {
        client: ClientName,
        channel: ChannelName,
    },
    /// A client asks for a channel's history, at most `limit` publications of it; a negative limit is none.
    ListHistory {
        client: ClientName,
        channel: ChannelName,
        limit: i32,
    },
}

/// Why a line of a schedule was not read.
#[derive(Clone, Copy, Debug, PartialEq, Eq, Drop, Error)]
pub enum EventFault {
    /// The line is none of a schedule's.
    #[error("unreadable")]
    Unreadable,
    /// No memory was left to keep the line's words.
    #[error("out of memory")]
    Memory,
}

impl From<AllocError> for EventFault {
    ghost use Rattle.std.specs.Prelude.{◌≡◌};
    ghost use Rattle.cf_schedule.specs.declared.event.EventFault.TheVariants.{Memory};

    ghost from_gives = { λ _ e. e ≡ Memory };

    fn from(_refused: AllocError) -> EventFault {
        EventFault::Memory
    }
}

impl Event {
    /// The event of a line, for a schedule over `nodes` nodes. None for a line that is passed over: an empty one, and
    /// one that begins with `#`. A line that is neither is Unreadable.
    pub fn read(alloc: Global, line: &str, nodes: u8) -> Result<Option<Event>, EventFault>
        // What is read is what the line says, and nothing only of a line that is passed over.
        ensures found { IfOk result
            (λ o. MatchOption o (IsPassedOver line.now) (λ e. Says nodes line.now (seen e))) }
        // A line that is passed over is.
        ensures passed_over { IsPassedOver line.now → result ≡ Ok None }
        // A line that says an event is read as it, unless memory runs out.
        ensures only { (e : SaidEvent) → Says nodes line.now e → ReadAs e result }
        // A line that is unreadable says no event.
        ensures unreadable { IfErr result (λ e. Refused e (IsNone (Says nodes line.now))) }
    {
        one_event();
        if line.is_empty() || line.starts_with('#') {
            return Ok(None);
        }
        match event_of(alloc, line, nodes) {
            Ok(event) => Ok(Some(event)),
            Err(fault) => Err(fault),
        }
    }
}

/// A line says one event alone, and one that is passed over says none.
pub fn one_event()
    ensures one { (nodes : ℕ) (line : List ℕ) (e f : SaidEvent) → nodes ≤ last_number
        → Says nodes line e → Says nodes line f → e ≡ f }
    ensures none { (nodes : ℕ) (line : List ℕ) (e : SaidEvent) → Says nodes line e
        → IsPassedOver line → ⊥ }
{
    one_value();
}

fn event_of(alloc: Global, line: &str, nodes: u8) -> Result<Event, EventFault>
    ensures { Answers (Says nodes line.now) result }
{
    let Some((word, rest)) = cut(line) else {
        return match line {
            "brokerrestart" => Ok(Event::BrokerRestart),
            _ => Err(EventFault::Unreadable),
        };
    };
    match word {
        "epoch" => epoch(rest),
        "connect" => connect(alloc, rest, nodes),
        "ask" | "askfrom" | "read" | "finish" | "leave" | "check" => in_channel(alloc, word, rest),
        "publish" => publish(alloc, rest, false),
        "publishkey" => publish(alloc, rest, true),
        "put" => put(alloc, rest, false),
        "putkey" => put(alloc, rest, true),
        "deliver" => deliver(rest, nodes),
        "take" => match ClientName::read(alloc, rest) {
            Ok(client) => Ok(Event::Take { client }),
            Err(fault) => Err(fault),
        },
        "break" => match ClientName::read(alloc, rest) {
            Ok(client) => Ok(Event::Break { client }),
            Err(fault) => Err(fault),
        },
        "trim" => trim(alloc, rest),
        "forget" => match ChannelName::read(alloc, rest) {
            Ok(channel) => Ok(Event::Forget { channel }),
            Err(fault) => Err(fault),
        },
        "size" => size(alloc, rest),
        "restart" => restart(rest, nodes),
        "list" => list(alloc, rest),
        _ => Err(EventFault::Unreadable),
    }
}

// What stands before the first space, and behind it.
fn cut(text: &str) -> Option<(&str, &str)>
    ensures { MatchOption result (IsUnspaced text.now) (λ p. CutsAtSpace text.now p.0.now p.1.now) }
{
    text.split_once(' ')
}

// A node's number, below the number of nodes.
fn node(text: &str, nodes: u8) -> Option<u8>
    ensures { MatchOption result ((n : ℕ) → n < nodes → text.now ≢ decimal n)
        (λ n. (n < nodes) × (text.now ≡ decimal n)) }
{
    let number = whole_number(text)?;
    if number < u64::from(nodes) {
        Some(number as u8)
    } else {
        None
    }
}

// The limit of a history: a number of 32 bits, perhaps with a minus sign.
fn limit_of(text: &str) -> Option<i32>
    ensures { MatchOption result ((limit : ℤ) → IsLimit text.now limit → ⊥) (IsLimit text.now) }
{
    match text.strip_prefix('-') {
        Some(digits) => least_of(digits),
        None => most_of(text),
    }
}

// A limit without a sign.
fn most_of(digits: &str) -> Option<i32>
    ensures { MatchOption result ((n : ℕ) → n < 2 ^ 31 → digits.now ≢ decimal n)
        (λ limit. (n : ℕ) × (n < 2 ^ 31) × (limit ≡ pos n) × (digits.now ≡ decimal n)) }
{
    let number = whole_number(digits)?;
    if number < END_OF_LIMITS {
        Some(number as i32)
    } else {
        None
    }
}

// The limit that has these digits behind a minus sign.
fn least_of(digits: &str) -> Option<i32>
    ensures { MatchOption result ((n : ℕ) → n ≤ 2 ^ 31 → digits.now ≢ decimal n)
        (λ limit. (n : ℕ) × (n ≤ 2 ^ 31) × (limit ≡ neg_ℤ (pos n)) × (digits.now ≡ decimal n)) }
{
    let number = whole_number(digits)?;
    if number <= END_OF_LIMITS {
        Some((0 - number as i64) as i32)
    } else {
        None
    }
}

fn epoch(text: &str) -> Result<Event, EventFault>
    ensures { (nodes : ℕ) → Answers (Says nodes (codes "epoch" ++ 32 ∷ text.now)) result }
{
    let epoch = Epoch::from_text(text);
    if epoch.is_empty() {
        return Err(EventFault::Unreadable);
    }
    Ok(Event::Epoch { epoch })
}

fn connect(alloc: Global, text: &str, nodes: u8) -> Result<Event, EventFault>
    ensures { Answers (Says nodes (codes "connect" ++ 32 ∷ text.now)) result }
{
    let Some((client, number)) = cut(text) else {
        return Err(EventFault::Unreadable);
    };
    let Some(node) = node(number, nodes) else {
        return Err(EventFault::Unreadable);
    };
    match ClientName::read(alloc, client) {
        Ok(client) => Ok(Event::Connect { client, node }),
        Err(fault) => Err(fault),
    }
}

// The event of a line that has a client and a channel behind its word.
fn in_channel(alloc: Global, word: &str, text: &str) -> Result<Event, EventFault>
    ensures { (nodes : ℕ) → IsInChannel word.now
        → Answers (Says nodes (word.now ++ 32 ∷ text.now)) result }
{
    let Some((client, channel)) = cut(text) else {
        return Err(EventFault::Unreadable);
    };
    let client = ClientName::read(alloc, client)?;
    let channel = ChannelName::read(alloc, channel)?;
    match word {
        "ask" => Ok(Event::Ask { client, channel }),
        "askfrom" => Ok(Event::AskFrom { client, channel }),
        "read" => Ok(Event::Read { client, channel }),
        "finish" => Ok(Event::Finish { client, channel }),
        "leave" => Ok(Event::Leave { client, channel }),
        _ => Ok(Event::Check { client, channel }),
    }
}

// A channel, a key if there is one, and a datum.
fn publication(
    alloc: Global,
    text: &str,
    is_keyed: bool,
) -> Result<(ChannelName, Option<Key>, Body), EventFault>
    ensures ok { IfOk result (λ p. IsPublication is_keyed p.0 (key_of p.1) p.2 text.now) }
    ensures err { IfErr result
        (λ e. Refused e ((c k body : List ℕ) → IsPublication is_keyed c k body text.now → ⊥)) }
{
    let Some((channel, rest)) = cut(text) else {
        return Err(EventFault::Unreadable);
    };
    let channel = ChannelName::read(alloc, channel)?;
    let (key, data) = key_before(alloc, rest, is_keyed)?;
    match Body::read(alloc, data) {
        Ok(body) => Ok((channel, key, body)),
        Err(fault) => Err(fault),
    }
}

// The key that stands before a datum, if there is one, and the datum.
fn key_before(alloc: Global, text: &str, is_keyed: bool) -> Result<(Option<Key>, &str), EventFault>
    ensures ok { IfOk result (λ p. IsKeyBefore is_keyed (key_of p.0) p.1.now text.now) }
    ensures err { IfErr result
        (λ e. Refused e ((k s : List ℕ) → IsKeyBefore is_keyed k s text.now → ⊥)) }
{
    if !is_keyed {
        return Ok((None, text));
    }
    let Some((key, data)) = cut(text) else {
        return Err(EventFault::Unreadable);
    };
    match Key::read(alloc, key) {
        Ok(key) => Ok((Some(key), data)),
        Err(fault) => Err(fault),
    }
}

fn publish(alloc: Global, text: &str, is_keyed: bool) -> Result<Event, EventFault>
    ensures { (nodes : ℕ)
        → Answers (Says nodes (publish_word is_keyed ++ 32 ∷ text.now)) result }
{
    match publication(alloc, text, is_keyed) {
        Ok((channel, key, body)) => Ok(Event::Publish { channel, key, body }),
        Err(fault) => Err(fault),
    }
}

fn put(alloc: Global, text: &str, is_keyed: bool) -> Result<Event, EventFault>
    ensures { (nodes : ℕ) → Answers (Says nodes (put_word is_keyed ++ 32 ∷ text.now)) result }
{
    let Some((client, rest)) = cut(text) else {
        return Err(EventFault::Unreadable);
    };
    let client = ClientName::read(alloc, client)?;
    match publication(alloc, rest, is_keyed) {
        Ok((channel, key, body)) => Ok(Event::PublishBy {
            client,
            channel,
            key,
            body,
        }),
        Err(fault) => Err(fault),
    }
}

fn deliver(text: &str, nodes: u8) -> Result<Event, EventFault>
    ensures { Answers (Says nodes (codes "deliver" ++ 32 ∷ text.now)) result }
{
    let Some((number, publication)) = cut(text) else {
        return Err(EventFault::Unreadable);
    };
    let Some(node) = node(number, nodes) else {
        return Err(EventFault::Unreadable);
    };
    let Some(publication) = whole_number(publication) else {
        return Err(EventFault::Unreadable);
    };
    Ok(Event::Deliver { node, publication })
}

fn trim(alloc: Global, text: &str) -> Result<Event, EventFault>
    ensures { (nodes : ℕ) → Answers (Says nodes (codes "trim" ++ 32 ∷ text.now)) result }
{
    let Some((channel, number)) = cut(text) else {
        return Err(EventFault::Unreadable);
    };
    let Some(count) = whole_number(number) else {
        return Err(EventFault::Unreadable);
    };
    if count > MOST_LEFT {
        return Err(EventFault::Unreadable);
    }
    let count = count as usize;
    match ChannelName::read(alloc, channel) {
        Ok(channel) => Ok(Event::Trim { channel, count }),
        Err(fault) => Err(fault),
    }
}

fn size(alloc: Global, text: &str) -> Result<Event, EventFault>
    ensures { (nodes : ℕ) → Answers (Says nodes (codes "size" ++ 32 ∷ text.now)) result }
{
    let Some((name, number)) = text.split_once('=') else {
        return Err(EventFault::Unreadable);
    };
    let Some(size) = HistorySize::read(number) else {
        return Err(EventFault::Unreadable);
    };
    match NamespaceName::read(alloc, name) {
        Ok(namespace) => Ok(Event::SetSize { namespace, size }),
        Err(fault) => Err(fault),
    }
}

fn restart(text: &str, nodes: u8) -> Result<Event, EventFault>
    ensures { Answers (Says nodes (codes "restart" ++ 32 ∷ text.now)) result }
{
    let Some(node) = node(text, nodes) else {
        return Err(EventFault::Unreadable);
    };
    Ok(Event::Restart { node })
}

fn list(alloc: Global, text: &str) -> Result<Event, EventFault>
    ensures { (nodes : ℕ) → Answers (Says nodes (codes "list" ++ 32 ∷ text.now)) result }
{
    let Some((client, rest)) = cut(text) else {
        return Err(EventFault::Unreadable);
    };
    let Some((channel, limit)) = cut(rest) else {
        return Err(EventFault::Unreadable);
    };
    let Some(limit) = limit_of(limit) else {
        return Err(EventFault::Unreadable);
    };
    let client = ClientName::read(alloc, client)?;
    match ChannelName::read(alloc, channel) {
        Ok(channel) => Ok(Event::ListHistory {
            client,
            channel,
            limit,
        }),
        Err(fault) => Err(fault),
    }
}
